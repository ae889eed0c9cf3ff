//! Targets: how many slots the addresses of their places take, and the parts of a value that go into them.
ghost use Rattle.std.specs.Prelude.{◌≡◌, ◌++◌, IfOk, OnOk};
ghost use Rattle.al_typed.specs.Layout.{IsLaidOut};
ghost use Rattle.al_typed.specs.Typed.{place_type};
ghost use Rattle.al_lower_code.specs.Actions as acts;
ghost use Rattle.al_lower_code.specs.Expressions as spec;
ghost use Rattle.al_lower_operands.specs.Rows as rows;
ghost use Rattle.al_lower_base.specs.Spots.{spot_of};

use al_base::NoMemory;
use al_items::{Boxed, Items};
use al_lower_base::{Code, Spot, save, slot_behind, words};
use al_lower_operands::place_at;
use al_typed::{TPlace, TTarget};

/// How many slots the places of targets take.
#[cycle(count)]
fn count_row(s: Spot<'_>, xs: &[TTarget]) -> Result<u32, NoMemory>
    ensures { IfOk result (λ n. n ≡ (rows.aimed_of (spot_of s.entry) xs.now).count) }
{
    let mut count: u32 = 0;
    for x in xs {
        count = slot_behind(count, count_targets(s, x)?)?;
    }
    Ok(count)
}

#[cycle(count)]
fn count_parts(s: Spot<'_>, xs: &Items<TTarget>) -> Result<u32, NoMemory>
    ensures { IfOk result (λ n. n ≡ (rows.aimed_of (spot_of s.entry) xs.now).count) }
{
    count_row(s, xs.as_slice())
}

/// How many slots the places of a target take.
#[cycle(count)]
#[tactic(auto, using(al_lower_operands::proofs::Forms::targets_are))]
pub fn count_targets(s: Spot<'_>, x: &TTarget) -> Result<u32, NoMemory>
    ensures { IfOk result (λ n. n ≡ (spec.aimed (spot_of s.entry) x.now).count) }
{
    match x {
        TTarget::Into(_) => Ok(1),
        TTarget::Dropped(_) => Ok(0),
        TTarget::Parts { parts, .. } => count_parts(s, parts),
    }
}

/// A value, which stands from `from` on, into a place whose address stands in `to`.
fn save_place(code: &mut Code, s: Spot<'_>, x: &TPlace, to: u32, from: u32) -> Result<(), NoMemory>
    requires { IsLaidOut s.program.now.aggregates }
    ensures { OnOk result (code.new ≡ code.old ++ (acts.single_aimed (spot_of s.entry) (place_type x.now) (spec.placed (spot_of s.entry) x.now)).save to from) }
{
    let at = place_at(s, x, true, to)?;
    save(code, s, x.ty(), at, from)
}

fn save_boxed(
    code: &mut Code,
    s: Spot<'_>,
    x: &Boxed<TPlace>,
    to: u32,
    from: u32,
) -> Result<(), NoMemory>
    requires { IsLaidOut s.program.now.aggregates }
    ensures { OnOk result (code.new ≡ code.old ++ (acts.single_aimed (spot_of s.entry) (place_type x.now) (spec.placed (spot_of s.entry) x.now)).save to from) }
{
    save_place(code, s, x.get(), to, from)
}

/// The parts of a value, which stand from `from` on, into targets whose addresses stand from `to` on.
#[cycle(saves)]
fn save_row(
    code: &mut Code,
    s: Spot<'_>,
    xs: &[TTarget],
    to: u32,
    from: u32,
) -> Result<(), NoMemory>
    requires { IsLaidOut s.program.now.aggregates }
    ensures { OnOk result (code.new ≡ code.old ++ (rows.aimed_of (spot_of s.entry) xs.now).save to from) }
{
    let (mut at, mut part) = (to, from);
    for x in xs {
        save_target(code, s, x, at, part)?;
        at = slot_behind(at, count_targets(s, x)?)?;
        part = slot_behind(part, words(s, x.ty())?)?;
    }
    Ok(())
}

#[cycle(saves)]
fn save_parts(
    code: &mut Code,
    s: Spot<'_>,
    xs: &Items<TTarget>,
    to: u32,
    from: u32,
) -> Result<(), NoMemory>
    requires { IsLaidOut s.program.now.aggregates }
    ensures { OnOk result (code.new ≡ code.old ++ (rows.aimed_of (spot_of s.entry) xs.now).save to from) }
{
    save_row(code, s, xs.as_slice(), to, from)
}

/// A value, which stands from `from` on, into a target.
#[cycle(saves)]
#[tactic(auto, using(al_lower_operands::proofs::Forms::targets_are))]
pub fn save_target(
    code: &mut Code,
    s: Spot<'_>,
    x: &TTarget,
    to: u32,
    from: u32,
) -> Result<(), NoMemory>
    requires { IsLaidOut s.program.now.aggregates }
    ensures { OnOk result (code.new ≡ code.old ++ (spec.aimed (spot_of s.entry) x.now).save to from) }
{
    match x {
        TTarget::Into(x) => save_boxed(code, s, x, to, from),
        TTarget::Dropped(_) => Ok(()),
        TTarget::Parts { parts, .. } => save_parts(code, s, parts, to, from),
    }
}
