//! What stands behind a base type and stars, without reading them as a type.
ghost use Rattle.std.specs.Prelude.{◌≡◌, ◌+◌, ◌-◌, ◌<◌, ◌≤◌, ◌^◌, ℕ, IfOk, OnOk};
ghost use Rattle.al_tree.specs.Reading.{Reads};
ghost use Rattle.al_parse_stmt.specs.Ahead as spec;

use al_lex::TokenKind;
use al_parse_member::type_name;
use al_parse_type::stars_from;
use al_tree::{Cursor, ParseError, TypeNames};

/// How many brackets are open behind a token of that kind.
fn still_open(kind: TokenKind, brackets: usize) -> usize
    requires { brackets < 2 ^ 33 }
    ensures value { result ≡ spec.still_open kind brackets }
    ensures more { result ≤ brackets + 1 }
{
    match kind {
        TokenKind::LeftParen | TokenKind::LeftBracket => brackets + 1,
        TokenKind::RightParen | TokenKind::RightBracket => brackets.saturating_sub(1),
        _ => brackets,
    }
}

/// Up to where the bracket that is open is closed.
fn pass_open(turns: usize, tokens: &mut Cursor<'_>) -> Result<usize, ParseError>
    requires { turns < 2 ^ 32 }
    ensures { Reads (spec.pass_open turns 1 tokens.old) result tokens.new }
{
    let mut brackets = 1usize;
    for _turn in 0..turns {
        if brackets == 0 {
            return Ok(0);
        }
        let t = tokens.take_if(true)?;
        brackets = still_open(t.kind, brackets);
    }
    Err(tokens.refuse())
}

/// What stands in brackets that open so, or nothing.
#[tactic(auto, unfolding(crate::specs::Ahead::pass_group))]
fn pass_group(
    turns: usize,
    opening: TokenKind,
    tokens: &mut Cursor<'_>,
) -> Result<usize, ParseError>
    requires { turns < 2 ^ 32 }
    ensures { Reads (spec.pass_group turns opening tokens.old) result tokens.new }
{
    if !tokens.next_is(opening) {
        return Ok(0);
    }
    tokens.take_if(true)?;
    pass_open(turns, tokens)
}

/// A base type, by the kind of its first token.
fn pass_base_by(turns: usize, next: TokenKind, tokens: &mut Cursor<'_>) -> Result<usize, ParseError>
    requires { turns < 2 ^ 32 }
    ensures { Reads (spec.pass_base_by turns next tokens.old) result tokens.new }
{
    match next {
        TokenKind::LeftParen => pass_group(turns, TokenKind::LeftParen, tokens),
        TokenKind::Tuple => {
            tokens.take_if(true)?;
            pass_group(turns, TokenKind::LeftParen, tokens)
        }
        TokenKind::Chan => {
            tokens.take_if(true)?;
            pass_group(turns, TokenKind::LeftParen, tokens)?;
            pass_group(turns, TokenKind::LeftBracket, tokens)
        }
        TokenKind::Name => {
            tokens.take_if(true)?;
            pass_group(turns, TokenKind::LeftBracket, tokens)
        }
        _ => {
            tokens.take_if(true)?;
            Ok(0)
        }
    }
}

/// The number of the adt's name with a bracket behind it, past a base type and stars.
#[tactic(auto, unfolding(crate::specs::Ahead::owner_ahead, crate::specs::Ahead::pass_base))]
pub(crate) fn owner_ahead(
    turns: usize,
    types: &TypeNames,
    tokens: &mut Cursor<'_>,
) -> Result<u32, ParseError>
    requires { turns < 2 ^ 32 }
    ensures { Reads (spec.owner_ahead types.now turns tokens.old) result tokens.new }
{
    let next = tokens.peek();
    pass_base_by(turns, next, tokens)?;
    stars_from(turns, tokens)?;
    let a = type_name(types, tokens)?;
    if tokens.next_is(TokenKind::LeftBracket) {
        Ok(a.name)
    } else {
        Err(tokens.refuse())
    }
}
