//! The shared block of the function at hand: how it is given back, and how branches of a par get its address.
ghost use Rattle.std.specs.Prelude.{◌≡◌, ◌++◌, ◌+◌, OnOk};
ghost use Rattle.al_ir.specs.declared.op.Op.TheVariants as op;
ghost use Rattle.al_lower_base.specs.Spots.{spot_of};
ghost use Rattle.al_lower_code.specs.Homes as homes;
ghost use Rattle.al_lower_code.specs.Simple as spec;
ghost use Rattle.al_lower_simple.specs.Parts as parts;
ghost use Rattle.al_meaning.specs.Places as places;
ghost use Rattle.al_typed.specs.Layout.{IsLaidOut};

use al_base::NoMemory;
use al_event::Block;
use al_ir::Op;
use al_items::Items;
use al_lower_base::{Code, Spot, block_home, copies, push, slot_behind, some};
use al_typed::Local;
use al_variables::{locals_of, round_of, word_of};

/// Whether any of these locals lies in the shared block.
pub fn any_shared(locals: &[Local]) -> bool
    ensures { result ≡ places.has_block locals.now }
{
    for local in locals {
        if local.is_shared {
            return true;
        }
    }
    false
}

/// Whether the function has a shared block.
pub fn has_block(s: Spot<'_>) -> bool
    ensures { result ≡ spec.has_block_here (spot_of s.entry) }
{
    any_shared(locals_of(s.program, s.function))
}

/// The shared block is given back, if there is one.
pub fn frees_block(code: &mut Code, s: Spot<'_>) -> Result<(), NoMemory>
    requires { IsLaidOut s.program.now.aggregates }
    ensures { OnOk result (code.new ≡ code.old ++ spec.frees_block (spot_of s.entry)) }
{
    if !has_block(s) {
        return Ok(());
    }
    let at = block_home(s)?;
    push(
        code,
        s.line,
        Op::Free {
            at,
            kind: Block::Frame,
        },
    )
}

/// The address of the shared block, or 0 where there is none.
fn block_address(code: &mut Code, s: Spot<'_>, to: u32) -> Result<(), NoMemory>
    requires { IsLaidOut s.program.now.aggregates }
    ensures { OnOk result (code.new ≡ code.old ++ homes.here (spot_of s.entry) (parts.block_address (spot_of s.entry) to)) }
{
    if !has_block(s) {
        return push(code, s.line, Op::Constant { to, word: 0 });
    }
    let from = block_home(s)?;
    push(code, s.line, Op::Copy { to, from })
}

/// Procs for branches, with so many words from `arguments` on.
fn start_branches(
    code: &mut Code,
    s: Spot<'_>,
    branches: &[u32],
    arguments: u32,
    words: u32,
    records: u32,
) -> Result<(), NoMemory>
    ensures { OnOk result (code.new ≡ code.old ++ homes.here (spot_of s.entry) (op.Par branches.now arguments words records)) }
{
    let functions = Items::from_slice(s.alloc, branches)?;
    push(
        code,
        s.line,
        Op::Par {
            functions,
            arguments,
            words,
            records,
        },
    )
}

/// A par of these functions, which get the addresses of the blocks round them.
pub fn par(code: &mut Code, s: Spot<'_>, branches: &[u32]) -> Result<(), NoMemory>
    requires { IsLaidOut s.program.now.aggregates }
    ensures { OnOk result (code.new ≡ code.old ++ spec.par_code (spot_of s.entry) branches.now) }
{
    let n = some(word_of(round_of(s.program, s.function).len() as u64))?;
    copies(code, s.line, s.turns, 0, n)?;
    let last = slot_behind(s.turns, n)?;
    block_address(code, s, last)?;
    let words = slot_behind(n, 1)?;
    let records = slot_behind(last, 1)?;
    start_branches(code, s, branches, s.turns, words, records)
}
