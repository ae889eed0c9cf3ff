//! Tokens as they are written.
ghost use Rattle.std.specs.Prelude.{◌≡◌, ◌++◌, if◌then◌else◌, IfOk, OnOk};
ghost use Rattle.al_lex.specs.TokenList.{bytes_of};
ghost use Rattle.al_tree.specs.Words as words;
ghost use Rattle.al_link_text.specs.Items.{own_names};
ghost use Rattle.al_link_text.specs.Linked as spec;

use crate::file::File;
use al_base::NoMemory;
use al_lex::{Token, TokenKind};
use al_scope::Declaration;
use al_tree::TypeNames;
use itoa::Buffer;
use std::alloc::Global;

fn ends_line(kind: TokenKind) -> bool
    ensures { result ≡ spec.ends_line kind }
{
    match kind {
        TokenKind::Semicolon | TokenKind::LeftBrace | TokenKind::RightBrace => true,
        _ => false,
    }
}

/// What stands behind a token of that kind.
fn space(kind: TokenKind) -> u8
    ensures { result ≡ (if spec.ends_line kind then 10 else 32) }
{
    if ends_line(kind) { b'\n' } else { b' ' }
}

/// The bytes of a token.
#[tactic(auto, using(crate::proofs::Slices::range_past, crate::proofs::Slices::range_short))]
pub fn bytes_of<'t>(text: &'t [u8], t: &Token) -> &'t [u8]
    ensures { result.now ≡ bytes_of text.now t.now }
{
    match text.get(t.from as usize..) {
        None => &[],
        Some(rest) => {
            let count = t.to.saturating_sub(t.from) as usize;
            rest.get(..count).unwrap_or(rest)
        }
    }
}

/// Puts the tokens of an item behind the text.
pub(crate) fn push_tokens(text: &mut Vec<u8>, file: &File, own: &[Token]) -> Result<(), NoMemory>
    ensures { OnOk result (text.new.items ≡ text.old.items ++ spec.item_text file.now own.now) }
{
    for t in own {
        text.extend_from_slice(bytes_of(file.tokens.text(), t))?;
        text.push(space(t.kind))?;
    }
    Ok(())
}

/// The tokens of an item, written.
pub fn item_text(alloc: Global, file: &File, own: &[Token]) -> Result<Vec<u8>, NoMemory>
    ensures { IfOk result (λ text. text.items ≡ spec.item_text file.now own.now) }
{
    let mut text = Vec::new(alloc);
    push_tokens(&mut text, file, own)?;
    Ok(text)
}

fn is_at_file_level(found: Option<Declaration>) -> bool
    ensures { result ≡ spec.is_at_file_level found }
{
    match found {
        Some(Declaration::Global(_)) | Some(Declaration::Function(_)) => true,
        _ => false,
    }
}

fn is_name(kind: TokenKind) -> bool
    ensures { result ≡ words.is_name kind }
{
    match kind {
        TokenKind::Name => true,
        _ => false,
    }
}

/// Whether the token stands for a global or function whose name belongs to the file.
fn is_renamed(file: &File, own: &TypeNames, t: &Token) -> bool
    requires { own.now ≡ own_names file.now.tree.items }
    ensures { result ≡ spec.is_renamed file.now t.now }
{
    is_name(t.kind) && own.knows(t.name) && is_at_file_level(file.scopes.declaration(t.place))
}

/// Puts what stands behind a name of file k behind the text.
fn push_suffix(text: &mut Vec<u8>, k: u32) -> Result<(), NoMemory>
    ensures { OnOk result (text.new.items ≡ text.old.items ++ spec.suffix k) }
{
    let mut digits = Buffer::new();
    text.extend_from_slice(b"__")?;
    text.extend_from_slice(digits.format(k).as_bytes())?;
    Ok(())
}

/// Puts the tokens of an item of file k behind the text, with the names that belong to the file made apart.
pub(crate) fn push_words(
    text: &mut Vec<u8>,
    k: u32,
    file: &File,
    names: &TypeNames,
    own: &[Token],
) -> Result<(), NoMemory>
    requires { names.now ≡ own_names file.now.tree.items }
    ensures { OnOk result (text.new.items ≡ text.old.items ++ spec.words k file.now own.now) }
{
    for t in own {
        text.extend_from_slice(bytes_of(file.tokens.text(), t))?;
        if is_renamed(file, names, t) {
            push_suffix(text, k)?;
        }
        text.push(space(t.kind))?;
    }
    Ok(())
}
