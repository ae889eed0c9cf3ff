//! The types and declarators that stand in a text.
ghost use Rattle.std.specs.Prelude.{◌≡◌, ◌≢◌, ◌<◌, ℕ, length, IfOk, Ok, Err};
ghost use Rattle.al_tree.specs.Parts.{IsPartAt, IsPartFault};
ghost use Rattle.al_tree.specs.declared.type_tree.TypeTree.{TypeTree as SpecType};
ghost use Rattle.al_tree.specs.declared.type_tree.Dcl.{Dcl as SpecDcl};
ghost use Rattle.al_tree.specs.declared.fault.ParseFault.{ParseFault as SpecFault};
ghost use Rattle.al_parse_type.specs.Calls.{types_of, dcls_of};

use crate::list::dcl_within;
use crate::within::type_within;
use al_lex::Tokens;
use al_tree::{Cursor, Dcl, ParseStop, TypeNames, TypeTree, token_number, tokens_from};
use std::alloc::Global;

/// How many levels a tree may have.
const LIMIT: u32 = 200;

/// The type that begins at that token, read as far as it goes, with the number of the token behind it.
pub fn atype(
    alloc: Global,
    toks: &Tokens,
    at: u32,
    types: &TypeNames,
) -> Result<(TypeTree, u32), ParseStop>
    requires { at < length toks.now.list }
    ensures read { IfOk result (λ part. IsPartAt (types_of toks.now types.now) toks.now at part.0 part.1) }
    ensures whole { (x : SpecType) (next : ℕ) → IsPartAt (types_of toks.now types.now) toks.now at x next → result ≢ Err ParseStop.NoMemory → result ≡ Ok (x, next) }
    ensures fault { (fault : SpecFault) → result ≡ Err (ParseStop.Fault fault) → IsPartFault (types_of toks.now types.now) toks.now at fault }
{
    let mut tokens = Cursor::new(tokens_from(toks, at));
    let turns = toks.len();
    match type_within(alloc, toks.text(), types, turns, LIMIT, &mut tokens) {
        Ok((x, _)) => Ok((x, token_number(toks, tokens.left()))),
        Err(error) => Err(ParseStop::of(toks, error)),
    }
}

/// The declarator that begins at that token, read as far as it goes, with the number of the token behind it.
pub fn dcl(
    alloc: Global,
    toks: &Tokens,
    at: u32,
    types: &TypeNames,
) -> Result<(Dcl, u32), ParseStop>
    requires { at < length toks.now.list }
    ensures read { IfOk result (λ part. IsPartAt (dcls_of toks.now types.now) toks.now at part.0 part.1) }
    ensures whole { (x : SpecDcl) (next : ℕ) → IsPartAt (dcls_of toks.now types.now) toks.now at x next → result ≢ Err ParseStop.NoMemory → result ≡ Ok (x, next) }
    ensures fault { (fault : SpecFault) → result ≡ Err (ParseStop.Fault fault) → IsPartFault (dcls_of toks.now types.now) toks.now at fault }
{
    let mut tokens = Cursor::new(tokens_from(toks, at));
    let turns = toks.len();
    match dcl_within(alloc, toks.text(), types, turns, LIMIT, &mut tokens) {
        Ok((x, _)) => Ok((x, token_number(toks, tokens.left()))),
        Err(error) => Err(ParseStop::of(toks, error)),
    }
}
