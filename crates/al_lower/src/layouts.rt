//! The layouts by which values of many units are loaded and stored in one operation.
ghost use Rattle.std.specs.Prelude.{◌≡◌, ℕ, ◌+◌, ◌++◌, ◌∷◌, ◌&&◌, ◌==◌, [], filter, length, map, reverse, take, IfOk, OnOk};
ghost use Rattle.std.specs.List.{flat_map};
ghost use Rattle.al_typed.specs.Layout.{IsLaidOut};
ghost use Rattle.al_meaning.specs.Here.{size_in, units_in};
ghost use Rattle.al_lower_code.specs.Moving as moving;
ghost use Rattle.al_lower_code.specs.Functions as spec;

use al_base::NoMemory;
use al_control_values::is_small;
use al_ir::{Run, Runs};
use al_items::Items;
use al_lower_base::slot_behind;
use al_typed::{Aggregate, Function, Local, Program, Ty, Unit, room_of, units};
use std::alloc::Global;

// ---- runs of units

/// A unit as a run.
fn single_run(unit: Unit) -> Run
    ensures { result ≡ spec.single_run unit }
{
    Run {
        at: unit.at,
        size: unit.size,
        count: 1,
    }
}

/// Whether a run has units of the same size and begins where the unit ends.
fn goes_on(unit: Unit, run: Run) -> bool
    ensures { result ≡ ((run.size == unit.size) && (run.at == unit.at + unit.size)) }
{
    run.size == unit.size && u64::from(run.at) == u64::from(unit.at) + u64::from(unit.size)
}

/// Puts a unit before runs that stand in reverse, the first one last.
#[tactic(auto, using(crate::proofs::Runs::befores))]
fn put_before(runs: &mut Runs, unit: Unit) -> Result<(), NoMemory>
    ensures { OnOk result (reverse runs.new ≡ spec.run_with unit (reverse runs.old)) }
{
    match runs.pop() {
        None => runs.push(single_run(unit)),
        Some(run) => {
            if goes_on(unit, run) {
                let count = slot_behind(run.count, 1)?;
                return runs.push(Run {
                    at: unit.at,
                    size: unit.size,
                    count,
                });
            }
            runs.push(run)?;
            runs.push(single_run(unit))
        }
    }
}

/// Units as runs.
#[tactic(auto, using(crate::proofs::Runs::unit_before))]
fn runs_of(alloc: Global, units: &[Unit]) -> Result<Runs, NoMemory>
    ensures { IfOk result (λ runs. runs ≡ spec.runs_of units.now) }
{
    let mut runs = Items::new(alloc);
    let mut left = units.len();
    while left > 0 {
        left -= 1;
        put_before(&mut runs, units[left])?;
    }
    let mut runs = runs.into_vec();
    runs.reverse();
    Ok(Items::from_vec(runs))
}

/// The runs of a value of a type.
fn runs_in(alloc: Global, p: &Program, ty: &Ty) -> Result<Runs, NoMemory>
    requires { IsLaidOut p.now.aggregates }
    ensures { IfOk result (λ runs. runs ≡ spec.runs_of (units_in p.now ty.now)) }
{
    if !is_small(p, ty) {
        return Err(NoMemory);
    }
    let units = units(alloc, p, ty)?;
    runs_of(alloc, &units)
}

// ---- aggregates

/// The layout of an aggregate, which is empty where none is needed.
fn aggregate_layout(
    alloc: Global,
    p: &Program,
    number: u32,
    aggregate: &Aggregate,
) -> Result<Runs, NoMemory>
    requires { IsLaidOut p.now.aggregates }
    ensures { IfOk result (λ runs. spec.aggregate_runs p.now number (aggregate.now ∷ []) ≡ runs ∷ []) }
{
    if aggregate.units > 16 && aggregate.size <= 1024 {
        return runs_in(alloc, p, &Ty::Aggregate(number));
    }
    Ok(Items::new(alloc))
}

/// Adds the layouts of the aggregates.
fn add_aggregates(alloc: Global, p: &Program, layouts: &mut Items<Runs>) -> Result<(), NoMemory>
    requires { IsLaidOut p.now.aggregates }
    ensures { OnOk result (layouts.new ≡ layouts.old ++ spec.aggregate_runs p.now 0 p.now.aggregates) }
{
    let mut number: u32 = 0;
    for aggregate in p.aggregates.as_slice() {
        layouts.push(aggregate_layout(alloc, p, number, aggregate)?)?;
        number = slot_behind(number, 1)?;
    }
    Ok(())
}

// ---- wide parameters

#[tactic(auto, unfolding(al_lower_code::specs::Functions::is_tuple))]
fn is_tuple(ty: &Ty) -> bool
    ensures { result ≡ spec.is_tuple ty.now }
{
    match ty {
        Ty::Tuple(_) => true,
        Ty::Void
        | Ty::Integer(_)
        | Ty::Pointer(_)
        | Ty::Array { .. }
        | Ty::Chan { .. }
        | Ty::Aggregate(_)
        | Ty::Function { .. } => false,
    }
}

/// Whether a value of a type has many units, and few enough bytes to be copied whole.
fn is_wide(p: &Program, ty: &Ty) -> bool
    requires { IsLaidOut p.now.aggregates }
    ensures { result ≡ moving.is_wide (length (units_in p.now ty.now)) (size_in p.now ty.now) }
{
    let room = room_of(p.aggregates.as_slice(), ty);
    room.units > 16 && room.size <= 1024
}

/// Whether a parameter is stored by a layout of its own.
pub fn is_wide_parameter(p: &Program, local: &Local) -> bool
    requires { IsLaidOut p.now.aggregates }
    ensures { result ≡ spec.is_wide_parameter p.now local.now }
{
    local.is_shared && is_tuple(&local.ty) && is_wide(p, &local.ty)
}

/// The parameters of a function.
pub fn parameters_of(f: &Function) -> &[Local]
    ensures { result.now ≡ take f.now.parameters f.now.locals }
{
    let locals = f.locals.as_slice();
    let count = (f.parameters as usize).min(locals.len());
    &locals[..count]
}

/// The number behind those of the wide ones of these parameters, where the first of them has this number.
fn behind_wide(p: &Program, first: u32, parameters: &[Local]) -> Result<u32, NoMemory>
    requires { IsLaidOut p.now.aggregates }
    ensures { IfOk result (λ next. next ≡ first + length (filter (spec.is_wide_parameter p.now) parameters.now)) }
{
    let mut next = first;
    for local in parameters {
        if is_wide_parameter(p, local) {
            next = slot_behind(next, 1)?;
        }
    }
    Ok(next)
}

/// The number of the layout behind those of a function's wide parameters, where the first of them has this number.
#[tactic(auto, using(crate::proofs::Wide::wide_ones))]
pub fn next_layout(p: &Program, first: u32, f: &Function) -> Result<u32, NoMemory>
    requires { IsLaidOut p.now.aggregates }
    ensures { IfOk result (λ next. next ≡ first + length (spec.wide_in p.now f.now)) }
{
    behind_wide(p, first, parameters_of(f))
}

/// Adds the layouts of the wide ones of these parameters.
fn add_wide(
    alloc: Global,
    p: &Program,
    parameters: &[Local],
    layouts: &mut Items<Runs>,
) -> Result<(), NoMemory>
    requires { IsLaidOut p.now.aggregates }
    ensures { OnOk result (layouts.new ≡ layouts.old ++ map (spec.local_runs p.now) (filter (spec.is_wide_parameter p.now) parameters.now)) }
{
    for local in parameters {
        if is_wide_parameter(p, local) {
            layouts.push(runs_in(alloc, p, &local.ty)?)?;
        }
    }
    Ok(())
}

/// Adds the layouts of the wide parameters of all functions.
#[tactic(auto, using(crate::proofs::Wide::wide_ones))]
fn add_parameters(alloc: Global, p: &Program, layouts: &mut Items<Runs>) -> Result<(), NoMemory>
    requires { IsLaidOut p.now.aggregates }
    ensures { OnOk result (layouts.new ≡ layouts.old ++ map (spec.local_runs p.now) (flat_map (spec.wide_in p.now) p.now.functions)) }
{
    for f in p.functions.as_slice() {
        add_wide(alloc, p, parameters_of(f), layouts)?;
    }
    Ok(())
}

/// The layouts of a program.
pub fn layouts(alloc: Global, p: &Program) -> Result<Items<Runs>, NoMemory>
    requires { IsLaidOut p.now.aggregates }
    ensures { IfOk result (λ layouts. layouts ≡ spec.layouts p.now) }
{
    let mut layouts = Items::new(alloc);
    add_aggregates(alloc, p, &mut layouts)?;
    add_parameters(alloc, p, &mut layouts)?;
    Ok(layouts)
}
