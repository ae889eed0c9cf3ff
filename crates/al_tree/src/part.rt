//! The tokens from one of a text's on.
ghost use Rattle.std.specs.Prelude.{◌≡◌, ◌+◌, ◌-◌, ◌<◌, ◌^◌, length};
ghost use Rattle.al_tree.specs.Parts.{TokensFrom, count};

use al_lex::{Token, Tokens};

/// The tokens from the one of this number on, without the End token.
pub fn tokens_from(toks: &Tokens, at: u32) -> &[Token]
    requires { at < length toks.now.list }
    ensures tokens { TokensFrom toks.now at result.now }
    ensures size { at + length result.now ≡ count toks.now }
    ensures few { length toks.now.list < 2 ^ 32 }
{
    let list = toks.as_slice();
    &list[at as usize..list.len() - 1]
}

/// The number of the token before which so many are left, the End token not counted.
pub fn token_number(toks: &Tokens, left: usize) -> u32
    ensures { result ≡ count toks.now - left }
{
    (toks.as_slice().len() - 1).saturating_sub(left) as u32
}
