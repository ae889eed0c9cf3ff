//! What single tokens are in statements.
ghost use Rattle.std.specs.Prelude.{◌≡◌};
ghost use Rattle.al_parse_block.specs.Parse as spec;

use al_lex::TokenKind;
use al_parse_expr::begins_value;
use al_parse_type::sees_type;
use al_tree::{Cursor, TypeNames, same_kind};

/// Whether a token of that kind begins a statement, and no expression.
fn starts(kind: TokenKind) -> bool
    ensures { result ≡ spec.starts kind }
{
    match kind {
        TokenKind::Semicolon | TokenKind::LeftBrace | TokenKind::If | TokenKind::While => true,
        TokenKind::Do | TokenKind::For | TokenKind::Switch | TokenKind::Alt => true,
        TokenKind::Par | TokenKind::Rescue | TokenKind::Raise | TokenKind::Return => true,
        TokenKind::Become | TokenKind::Break | TokenKind::Continue | TokenKind::Goto => true,
        TokenKind::Alloc | TokenKind::Unalloc | TokenKind::Check => true,
        TokenKind::Proc | TokenKind::Task => true,
        _ => false,
    }
}

/// Whether a statement begins with the next token.
#[tactic(auto, unfolding(crate::specs::Parse::begins_statement))]
pub(crate) fn begins_statement(types: &TypeNames, tokens: &Cursor<'_>) -> bool
    ensures { result ≡ spec.begins_statement types.now tokens.now }
{
    starts(tokens.peek()) || begins_value(types, tokens)
}

/// Whether what may stand in a block begins with the next token.
#[tactic(auto, unfolding(crate::specs::Parse::begins_inner))]
pub(crate) fn begins_inner(types: &TypeNames, tokens: &Cursor<'_>) -> bool
    ensures { result ≡ spec.begins_inner types.now tokens.now }
{
    sees_type(types, tokens) || begins_statement(types, tokens)
}

/// Whether a case begins with that token.
#[tactic(auto, unfolding(crate::specs::Parse::begins_case))]
pub(crate) fn begins_case(with_default: bool, next: TokenKind) -> bool
    ensures { result ≡ spec.begins_case with_default next }
{
    same_kind(next, TokenKind::Case) || (with_default && same_kind(next, TokenKind::Default))
}
