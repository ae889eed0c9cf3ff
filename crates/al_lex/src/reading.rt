ghost use Rattle.std.specs.Prelude.{◌≡◌, ◌≢◌, ◌↔◌, ◌+◌, ◌^◌, ◌<◌, ◌≤◌, [], ◌∷◌, ◌++◌, List, ℕ, length, take, drop, slice_range, if◌then◌else◌, IfOk, IfErr, OnOk, IsOk, Ok, Err};
ghost use Rattle.al_lex.specs.Cut.{Piece, Pieces, Cut, Stuck, joined};
ghost use Rattle.al_lex.specs.declared.fault.LexFault.{LexFault};
ghost use Rattle.al_lex.specs.declared.token.Token.{Token};
ghost use Rattle.al_lex.specs.Position.{IsAt, IsPieceTo, IsFaultFrom};
ghost use Rattle.al_lex.specs.Written.{IsCutInto, IsNextToken, IsNextFault, is_name, is_name_piece, noted, name_number, tokens_from, tokens_of};

use crate::fault::{LexFault, LexStop};
use crate::kind::{PieceKind, TokenKind};
use crate::names::Names;
use crate::position::{Position, beginning, behind_bytes};
use crate::scan::scan;
use crate::token::{Token, Tokens};
use std::alloc::{AllocError, Global};

/// The piece that begins here, and the position behind it.
fn piece(text: &[u8], here: Position) -> Result<(PieceKind, Position), LexFault>
    requires short { length text.now ≤ 2 ^ 20 }
    requires at { IsAt (take here.at text.now) here }
    requires more { here.at < length text.now }
    ensures next { IfOk result (λ r. IsPieceTo text.now here.at r.0 r.1.at) }
    ensures at { IfOk result (λ r. IsAt (take r.1.at text.now) r.1) }
    ensures fault { IfErr result (λ f. IsFaultFrom text.now here.at f) }
{
    let rest = &text[here.at..];
    match scan(here.fresh, rest) {
        Ok(found) => Ok((found.kind, behind_bytes(here, &rest[..found.len]))),
        Err(flaw) => Err(LexFault {
            reason: flaw.reason,
            byte: (here.at + flaw.offset) as u32,
        }),
    }
}

/// The token between two positions.
fn token_between(kind: TokenKind, name: u32, here: Position, there: Position) -> Token
    requires from { here.at ≤ 2 ^ 20 }
    requires to { there.at ≤ 2 ^ 20 }
    ensures { result ≡ record { kind = kind; name = name; from = here.at; to = there.at; place = here.place } }
{
    Token {
        kind,
        name,
        from: here.at as u32,
        to: there.at as u32,
        place: here.place,
    }
}

/// The next token from the byte `at` on, past blanks, comments and skipped lines, or the End token.
fn token_from(text: &[u8], at: u32) -> Result<Token, LexFault>
    requires short { length text.now ≤ 2 ^ 20 }
    requires within { at ≤ length text.now }
    ensures token { IfOk result (λ t. IsNextToken (take at text.now) (drop at text.now) t) }
    ensures fault { IfErr result (λ f. IsNextFault (take at text.now) (drop at text.now) f) }
{
    let mut here = behind_bytes(beginning(), &text[..at as usize]);
    while here.at < text.len() {
        let (kind, there) = match piece(text, here) {
            Ok(step) => step,
            Err(fault) => return Err(fault),
        };
        if let PieceKind::Token(kind) = kind {
            return Ok(token_between(kind, 0, here, there));
        }
        here = there;
    }
    Ok(token_between(TokenKind::End, 0, here, here))
}

/// The next token from the byte `at` on, past blanks, comments and skipped lines, or the End token. Its place is found
/// from the text before, and its name has the number 0. A piece of the text has to begin at `at`, or the text to end.
pub fn next(text: &[u8], at: u32) -> Result<Token, LexFault>
    requires short { length text.now ≤ 2 ^ 20 }
    requires within { at ≤ length text.now }

    // The token is the first of the pieces from `at` on that is one.
    ensures token { (t : Token) → (result ≡ Ok t) ↔ IsNextToken (take at text.now) (drop at text.now) t }

    // A fault comes exactly where one stands before that.
    ensures fault { (f : LexFault) → (result ≡ Err f) ↔ IsNextFault (take at text.now) (drop at text.now) f }

    // Where the text before `at` is cut, the text is stuck at this fault.
    ensures stuck { (ps : List Piece) → take at text.now ≡ joined ps → Pieces [] ps (drop at text.now) → IfErr result (λ f. Stuck text.now f.reason f.byte) }
{
    token_from(text, at)
}

/// The number of the name that these bytes are, and 0 for another token.
fn name_number<'t>(
    names: &mut Names<'t>,
    kind: TokenKind,
    bytes: &'t [u8],
) -> Result<u32, AllocError>
    requires { length names.old ≤ 2 ^ 20 }
    ensures names { OnOk result (names.new ≡ (if is_name kind then noted names.old bytes.now else names.old)) }
    ensures number { IfOk result (λ n. n ≡ name_number names.new kind bytes.now) }
{
    match kind {
        TokenKind::Name => names.number(bytes),
        _ => Ok(0),
    }
}

/// Adds the token that the piece between two positions is, if it is one.
fn note_piece<'t>(
    list: &mut Vec<Token>,
    names: &mut Names<'t>,
    text: &'t [u8],
    kind: PieceKind,
    here: Position,
    there: Position,
) -> Result<(), AllocError>
    requires few { length names.old ≤ 2 ^ 20 }
    requires at { IsAt (take here.at text.now) here }
    requires ordered { here.at ≤ there.at }
    requires within { there.at ≤ length text.now }
    requires short { length text.now ≤ 2 ^ 20 }
    ensures names { OnOk result (names.new ≡ (if is_name_piece kind then noted names.old (slice_range text.now here.at there.at) else names.old)) }
    ensures list { OnOk result (list.new.items ≡ list.old.items ++ tokens_from names.new (take here.at text.now) ((kind, slice_range text.now here.at there.at) ∷ [])) }
{
    if let PieceKind::Token(kind) = kind {
        let name = name_number(names, kind, &text[here.at..there.at])?;
        list.push(token_between(kind, name, here, there))?;
    }
    Ok(())
}

/// The tokens of a text, with the End token.
pub fn lex(alloc: Global, text: &[u8]) -> Result<Tokens, LexStop>
    requires { length text.now ≤ 2 ^ 20 }
    ensures text { IfOk result (λ tokens. tokens.text ≡ text.now) }

    // The tokens are those of the text's cutting.
    ensures tokens { IfOk result (λ tokens. IsCutInto text.now tokens.list) }
    ensures only { (pieces : List Piece) → Cut text.now pieces → IfOk result (λ tokens. tokens.list ≡ tokens_of pieces) }

    // A fault is that at which the text is stuck, and comes wherever it is.
    ensures fault { (f : LexFault) → result ≡ Err (LexStop.Fault f) → Stuck text.now f.reason f.byte }
    ensures stuck { (f : LexFault) → Stuck text.now f.reason f.byte → result ≢ Err LexStop.NoMemory → result ≡ Err (LexStop.Fault f) }
    ensures cut { (pieces : List Piece) → Cut text.now pieces → result ≢ Err LexStop.NoMemory → IsOk result }
{
    let mut names = Names::new(alloc);
    let mut list = Vec::new(alloc);
    let mut here = beginning();
    while here.at < text.len() {
        let (kind, there) = match piece(text, here) {
            Ok(step) => step,
            Err(fault) => return Err(LexStop::Fault(fault)),
        };
        note_piece(&mut list, &mut names, text, kind, here, there)?;
        here = there;
    }
    list.push(token_between(TokenKind::End, 0, here, here))?;
    Ok(Tokens::new(list, Vec::from_slice(alloc, text)?))
}
