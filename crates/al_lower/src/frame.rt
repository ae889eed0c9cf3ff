//! The start and the end of a function.
ghost use Rattle.std.specs.Prelude.{◌≡◌, ◌+◌, ◌++◌, ◌∷◌, [], filter, length, IfOk, OnOk};
ghost use Rattle.al_typed.specs.Layout.{IsLaidOut};
ghost use Rattle.al_typed.specs.WellTyped.{shared_types};
ghost use Rattle.al_lower_code.specs.Moving as moving;
ghost use Rattle.al_lower_code.specs.Functions as spec;
ghost use Rattle.al_lower_base.specs.Spots.{spot_of};
ghost use Rattle.al_lower.specs.Stored.{layout_of, size_in_order, stores_by};

use crate::layouts::{is_wide_parameter, parameters_of};
use al_base::NoMemory;
use al_event::Block;
use al_ir::Op;
use al_items::Items;
use al_lower_base::{
    Code, Spot, block_home, layout_number, local_home, offset_in, push, slot_behind, some, stores,
    units_of, words, zeros,
};
use al_lower_simple::frees_block;
use al_typed::{Function, Local, Program, Ty, in_order};
use al_variables::word_of;
use std::alloc::Global;

// ---- the shared block

/// The types of those of these locals that lie in the shared block.
fn shared(alloc: Global, locals: &[Local]) -> Result<Items<Ty>, NoMemory>
    ensures { IfOk result (λ types. types ≡ shared_types locals.now) }
{
    let mut types = Items::new(alloc);
    for local in locals {
        if local.is_shared {
            types.push(local.ty.copy(alloc)?)?;
        }
    }
    Ok(types)
}

/// The size of the shared block of such types.
fn block_size(p: &Program, types: &[Ty]) -> Result<u32, NoMemory>
    requires { IsLaidOut p.now.aggregates }
    ensures { IfOk result (λ bytes. bytes ≡ size_in_order p.now types.now) }
{
    some(word_of(in_order(p.aggregates.as_slice(), types).size))
}

/// The shared block is taken, if there is one.
fn take_block(code: &mut Code, s: Spot<'_>, f: &Function) -> Result<(), NoMemory>
    requires { IsLaidOut s.program.now.aggregates }
    ensures { OnOk result (code.new ≡ code.old ++ spec.takes_block (spot_of s.entry) f.now) }
{
    let types = shared(s.alloc, f.locals.as_slice())?;
    if types.is_empty() {
        return Ok(());
    }
    let bytes = block_size(s.program, types.as_slice())?;
    push(
        code,
        s.line,
        Op::Alloc {
            to: block_home(s)?,
            bytes,
            kind: Block::Frame,
        },
    )
}

// ---- locals

/// Private locals that are no parameters are 0.
fn clear_locals(code: &mut Code, s: Spot<'_>, f: &Function) -> Result<(), NoMemory>
    requires { IsLaidOut s.program.now.aggregates }
    ensures { OnOk result (code.new ≡ code.old ++ spec.clears_locals (spot_of s.entry) f.now) }
{
    let first = local_home(s, f.parameters)?;
    let end = block_home(s)?;
    zeros(code, s.line, first, end.saturating_sub(first))
}

/// Slots into shared storage, by a layout if there is one.
fn store(
    code: &mut Code,
    s: Spot<'_>,
    layout: Option<u32>,
    ty: &Ty,
    at: u32,
    offset: u32,
    from: u32,
) -> Result<(), NoMemory>
    requires { IsLaidOut s.program.now.aggregates }
    ensures { OnOk result (code.new ≡ code.old ++ moving.store_by (spot_of s.entry) layout ty.now at offset from) }
{
    match layout {
        Some(layout) => push(
            code,
            s.line,
            Op::StoreUnits {
                at,
                offset,
                layout,
                from,
            },
        ),
        None => {
            let units = units_of(s, ty)?;
            stores(code, s.line, at, offset, from, &units)
        }
    }
}

/// The layout by which a parameter is stored in one operation, if it is. `next` is that of the next one with a layout of its own.
fn layout_of(s: Spot<'_>, next: u32, local: &Local) -> Option<u32>
    requires { IsLaidOut s.program.now.aggregates }
    ensures { result ≡ layout_of (spot_of s.entry) next local.now }
{
    if is_wide_parameter(s.program, local) {
        Some(next)
    } else {
        layout_number(s, &local.ty)
    }
}

/// A parameter that lies in the shared block is stored there.
fn store_parameter(
    code: &mut Code,
    s: Spot<'_>,
    number: u32,
    next: u32,
    local: &Local,
) -> Result<(), NoMemory>
    requires { IsLaidOut s.program.now.aggregates }
    ensures { OnOk result (code.new ≡ code.old ++ stores_by (spot_of s.entry) number next local.now) }
{
    if !local.is_shared {
        return Ok(());
    }
    let layout = layout_of(s, next, local);
    let at = block_home(s)?;
    let offset = offset_in(s.program, s.function, number)?;
    let from = local_home(s, number)?;
    store(code, s, layout, &local.ty, at, offset, from)
}

/// The layout behind that of a parameter.
fn behind_layout(p: &Program, next: u32, local: &Local) -> Result<u32, NoMemory>
    requires { IsLaidOut p.now.aggregates }
    ensures { IfOk result (λ n. n ≡ next + length (filter (spec.is_wide_parameter p.now) (local.now ∷ []))) }
{
    if is_wide_parameter(p, local) {
        slot_behind(next, 1)
    } else {
        Ok(next)
    }
}

/// All parameters that lie in the shared block are stored there. `first` is the layout of the first one with a layout of its own.
#[tactic(auto, using(crate::proofs::Wide::stored))]
fn store_parameters(code: &mut Code, s: Spot<'_>, f: &Function, first: u32) -> Result<(), NoMemory>
    requires laid_out { IsLaidOut s.program.now.aggregates }
    requires first { first ≡ spec.wide_number s.program.now s.function 0 f.now }
    ensures { OnOk result (code.new ≡ code.old ++ spec.stores_parameters (spot_of s.entry) f.now 0 f.now.parameters f.now.locals) }
{
    let (mut number, mut next) = (0, first);
    for local in parameters_of(f) {
        store_parameter(code, s, number, next, local)?;
        next = behind_layout(s.program, next, local)?;
        number = slot_behind(number, 1)?;
    }
    Ok(())
}

// ---- start and end

/// What a function does before its body. `first` is the layout of its first parameter with a layout of its own.
pub fn prologue(code: &mut Code, s: Spot<'_>, f: &Function, first: u32) -> Result<(), NoMemory>
    requires laid_out { IsLaidOut s.program.now.aggregates }
    requires first { first ≡ spec.wide_number s.program.now s.function 0 f.now }
    ensures { OnOk result (code.new ≡ code.old ++ spec.prologue (spot_of s.entry) f.now) }
{
    take_block(code, s, f)?;
    clear_locals(code, s, f)?;
    store_parameters(code, s, f, first)
}

/// What it does at the end of its body.
pub fn epilogue(code: &mut Code, s: Spot<'_>, f: &Function) -> Result<(), NoMemory>
    requires { IsLaidOut s.program.now.aggregates }
    ensures { OnOk result (code.new ≡ code.old ++ spec.epilogue (spot_of s.entry) f.now) }
{
    let count = words(s, &f.returns)?;
    frees_block(code, s)?;
    zeros(code, s.line, 0, count)?;
    push(code, s.line, Op::Leave { words: count })
}
