//! Names that are kept for linked texts.
ghost use Rattle.std.specs.Prelude.{◌≡◌, false};
ghost use Rattle.al_tree.specs.Words as words;
ghost use Rattle.al_link_names.specs.Reserved as spec;

use al_base::Place;
use al_lex::{Token, TokenKind};
use al_link_text::{File, bytes_of};

/// Whether the bytes contain `__`.
fn is_doubled(bytes: &[u8]) -> bool
    ensures { result ≡ spec.doubled false bytes.now }
{
    let mut behind = false;
    for byte in bytes {
        let is_underline = *byte == b'_';
        if behind && is_underline {
            return true;
        }
        behind = is_underline;
    }
    false
}

fn is_name(kind: TokenKind) -> bool
    ensures { result ≡ words.is_name kind }
{
    match kind {
        TokenKind::Name => true,
        _ => false,
    }
}

fn is_reserved(file: &File, t: &Token) -> bool
    ensures { result ≡ spec.is_reserved file.now t.now }
{
    is_name(t.kind) && is_doubled(bytes_of(file.tokens.text(), t))
}

/// Where the first name stands that contains `__`.
pub fn reserved(file: &File) -> Option<Place>
    ensures { result ≡ spec.first_reserved file.now }
{
    for t in file.own_tokens() {
        if is_reserved(file, t) {
            return Some(t.place);
        }
    }
    None
}
