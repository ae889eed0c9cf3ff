//! The blocks that stand in a text.
ghost use Rattle.std.specs.Prelude.{◌≡◌, ◌≢◌, ◌<◌, ◌≤◌, ℕ, length, IfOk, Ok, Err};
ghost use Rattle.al_tree.specs.Parts.{IsPartAt, IsPartFault};
ghost use Rattle.al_tree.specs.declared.statement.Stmt.{Stmt as SpecStmt};
ghost use Rattle.al_tree.specs.declared.fault.ParseFault.{ParseFault as SpecFault};
ghost use Rattle.al_parse_block.specs.Calls.{blocks_of};

use crate::rules::block_within;
use al_lex::Tokens;
use al_tree::{Cursor, ParseStop, Stmt, TypeNames, token_number, tokens_from};
use std::alloc::Global;

/// How many levels a tree may have.
const LIMIT: u32 = 200;

/// The block that begins at that token, with the number of the token behind it. A name is that of a type where `types`
/// has it.
pub fn block(
    alloc: Global,
    toks: &Tokens,
    at: u32,
    types: &TypeNames,
) -> Result<(Stmt, u32), ParseStop>
    requires { at < length toks.now.list }
    ensures read { IfOk result (λ part. IsPartAt (blocks_of toks.now types.now) toks.now at part.0 part.1) }
    ensures whole { (x : SpecStmt) (next : ℕ) → IsPartAt (blocks_of toks.now types.now) toks.now at x next → result ≢ Err ParseStop.NoMemory → result ≡ Ok (x, next) }
    ensures fault { (fault : SpecFault) → result ≡ Err (ParseStop.Fault fault) → IsPartFault (blocks_of toks.now types.now) toks.now at fault }
{
    let mut tokens = Cursor::new(tokens_from(toks, at));
    let turns = toks.len();
    match block_within(alloc, toks.text(), types, turns, LIMIT, &mut tokens) {
        Ok((x, _)) => Ok((x, token_number(toks, tokens.left()))),
        Err(error) => Err(ParseStop::of(toks, error)),
    }
}
