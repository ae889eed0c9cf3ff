ghost use Rattle.std.specs.Prelude.{◌≡◌, ◌<◌, ◌≤◌, length, IfOk, IfErr};
ghost use Rattle.al_lex.specs.Scan.{scan_word, scan_class, scan};

use crate::class::{ByteClass, class_of, name_bytes};
use crate::fault::LexReason;
use crate::kind::{PieceKind, TokenKind};
use crate::line::{scan_directive, scan_slash};
use crate::number::scan_number;
use crate::spelling::{reserved_word, scan_operator};
use crate::string::{scan_char, scan_string};

/// A piece that was found, and how many bytes it takes.
#[derive(Clone, Copy)]
pub(crate) struct Found {
    pub(crate) kind: PieceKind,
    pub(crate) len: usize,
}

/// Why there is no piece, and how many bytes further on that stands.
#[derive(Clone, Copy)]
pub(crate) struct Flaw {
    pub(crate) reason: LexReason,
    pub(crate) offset: usize,
}

/// The name or reserved word that begins the text.
fn scan_word(rest: &[u8]) -> Result<Found, Flaw>
    ensures { result ≡ scan_word rest.now }
{
    let len = name_bytes(rest);
    let kind = reserved_word(&rest[..len]).unwrap_or(TokenKind::Name);
    Ok(Found {
        kind: PieceKind::Token(kind),
        len,
    })
}

/// What stands at the front of a text that begins with a byte of this class.
fn scan_class(class: ByteClass, fresh: bool, rest: &[u8]) -> Result<Found, Flaw>
    requires { 0 < length rest.now }
    ensures { result ≡ scan_class fresh class rest.now }
{
    match class {
        ByteClass::Blank => Ok(Found {
            kind: PieceKind::Blank,
            len: 1,
        }),
        ByteClass::Letter => scan_word(rest),
        ByteClass::Digit => scan_number(rest),
        ByteClass::Quote => scan_string(rest),
        ByteClass::Apostrophe => scan_char(rest),
        ByteClass::Hash => scan_directive(fresh, rest),
        ByteClass::Slash => scan_slash(rest),
        ByteClass::Other => scan_operator(rest),
    }
}

/// What stands at the front of a text. `fresh` says that only spaces and tabs stand before it on its line.
pub(crate) fn scan(fresh: bool, rest: &[u8]) -> Result<Found, Flaw>
    requires { 0 < length rest.now }
    ensures value { result ≡ scan fresh rest.now }
    ensures some { IfOk result (λ found. 0 < found.len) }
    ensures within { IfOk result (λ found. found.len ≤ length rest.now) }
    ensures fault_within { IfErr result (λ flaw. flaw.offset ≤ length rest.now) }
{
    scan_class(class_of(rest[0]), fresh, rest)
}
