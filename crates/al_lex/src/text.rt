//! The bytes that strings stand for.
ghost use Rattle.std.specs.Prelude.{◌≡◌, ℕ, List, IfOk};
ghost use Rattle.al_lex.specs.Values.{IsString, text_of};

use crate::constant::escape_byte;
use crate::string::escape_len;
use al_base::NoMemory;
use std::alloc::Global;

/// The bytes that a string as written stands for, without the final 0.
pub fn text_bytes(alloc: Global, bytes: &[u8]) -> Result<Vec<u8>, NoMemory>
    ensures value { (vs : List ℕ) → IsString bytes.now vs → IfOk result (λ v. v.items ≡ vs) }
    ensures computed { IfOk result (λ v. v.items ≡ text_of bytes.now) }
{
    let mut found = Vec::new(alloc);
    let mut at = 1;
    while at < bytes.len() {
        let b = bytes[at];
        if b == b'"' {
            return Ok(found);
        }
        at += 1;
        if b == b'\\' {
            let rest = &bytes[at..];
            let n = escape_len(rest);
            found.push(escape_byte(&rest[..n]))?;
            at += n;
        } else {
            found.push(b)?;
        }
    }
    Ok(found)
}
