//! The names of a text, by number.
ghost use Rattle.std.specs.Prelude.{◌≡◌, ◌≤◌, [], ◌∷◌, take, OnOk, IfOk};
ghost use Rattle.al_tree.specs.Leaves.{names_from};
ghost use Rattle.al_tree.specs.Words as words;

use al_base::NoMemory;
use al_items::Items;
use al_lex::{Token, TokenKind};
use al_parse_type::token_bytes;
use std::alloc::Global;

fn is_name(kind: TokenKind) -> bool
    ensures { result ≡ words.is_name kind }
{
    match kind {
        TokenKind::Name => true,
        _ => false,
    }
}

/// Adds the bytes of the name that the token is, if it is a new one.
fn add_name(
    alloc: Global,
    text: &[u8],
    names: &mut Items<Items<u8>>,
    t: Token,
) -> Result<(), NoMemory>
    ensures { OnOk result (names.new ≡ names_from text.now names.old (t ∷ [])) }
{
    if is_name(t.kind) && t.name as usize == names.len() {
        let name = Items::from_slice(alloc, token_bytes(text, t))?;
        names.push(name)?;
    }
    Ok(())
}

/// The bytes of the names that the tokens of this text are, by number.
pub(crate) fn names_of(
    alloc: Global,
    text: &[u8],
    tokens: &[Token],
) -> Result<Items<Items<u8>>, NoMemory>
    ensures { IfOk result (λ names. names ≡ names_from text.now [] tokens.now) }
{
    let mut names = Items::new(alloc);
    for t in tokens {
        add_name(alloc, text, &mut names, *t)?;
    }
    Ok(names)
}
