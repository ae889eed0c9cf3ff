//! Single tokens, and what they stand for.
ghost use Rattle.std.specs.Prelude.{◌≡◌, OnOk};
ghost use Rattle.al_lex.specs.TokenList.{bytes_of};
ghost use Rattle.al_tree.specs.Leaves.{leaves_of};
ghost use Rattle.al_tree.specs.Reading.{Reads};
ghost use Rattle.al_parse_type.specs.Parse as spec;

use al_lex::{Token, TokenKind, number_value};
use al_tree::{Cursor, ParseError, TypeNames};

/// The bytes of a token of this text.
#[tactic(auto, using(crate::proofs::Ranges::clipped))]
pub fn token_bytes<'t>(text: &'t [u8], token: Token) -> &'t [u8]
    ensures { result.now ≡ bytes_of text.now token }
{
    let from = (token.from as usize).min(text.len());
    let rest = &text[from..];
    let len = (token.to.saturating_sub(token.from) as usize).min(rest.len());
    &rest[..len]
}

/// The value of a number token of this text.
pub fn number_at(text: &[u8], token: Token) -> u64
    ensures { result ≡ (leaves_of text.now).number token }
{
    number_value(token_bytes(text, token)).unwrap_or(0)
}

/// Whether a name comes next that is no type's.
#[tactic(auto, unfolding(crate::specs::Parse::sees_other_name))]
pub fn sees_other_name(types: &TypeNames, tokens: &Cursor<'_>) -> bool
    ensures { result ≡ spec.sees_other_name types.now tokens.now }
{
    tokens.next_is(TokenKind::Name) && !types.knows(tokens.name())
}

/// Whether a type's name comes next.
#[tactic(auto, unfolding(crate::specs::Parse::sees_type_name))]
pub fn sees_type_name(types: &TypeNames, tokens: &Cursor<'_>) -> bool
    ensures { result ≡ spec.sees_type_name types.now tokens.now }
{
    tokens.next_is(TokenKind::Name) && types.knows(tokens.name())
}

/// A name that is no type's.
#[tactic(auto, unfolding(crate::specs::Parse::other_name))]
pub fn other_name(types: &TypeNames, tokens: &mut Cursor<'_>) -> Result<Token, ParseError>
    ensures { Reads (spec.other_name types.now tokens.old) result tokens.new }
{
    if sees_other_name(types, tokens) {
        tokens.take_if(true)
    } else {
        Err(tokens.refuse())
    }
}
