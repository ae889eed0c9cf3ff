//! Switches.
ghost use Rattle.std.specs.Prelude.{◌≡◌, ◌≤◌, None, Some, drop, length, option_map, IfOk, IfSome, MatchOption};
ghost use Rattle.al_meaning.specs.Execute as execute;
ghost use Rattle.al_meaning.specs.Items as item;
ghost use Rattle.al_meaning.specs.Step as step;
ghost use Rattle.al_control.specs.Models.{here_of, next_of};
ghost use Rattle.al_walk_loops.specs.BodyParts.{statements_in};
ghost use Rattle.al_walk_cases.specs.CaseLists as spec;

use al_base::NoMemory;
use al_control::{Here, Next, Taken, Work, lost, moves, value, with_work};
use al_control_values::bits;
use al_typed::TStmt;
use al_walk_loops::with_body;
use std::alloc::Global;

/// Whether a statement is the label of the case with these bits.
fn has_bits(s: &TStmt, bits: u64) -> bool
    ensures { result ≡ spec.has_bits bits s.now }
{
    match s {
        TStmt::Case { bits: label, .. } => *label == bits,
        _ => false,
    }
}

/// Whether a statement is `default`.
fn is_default(s: &TStmt) -> bool
    ensures { result ≡ spec.is_default s.now }
{
    match s {
        TStmt::Default => true,
        _ => false,
    }
}

/// Where what stands behind the label of the case with these bits begins.
fn behind_case(body: &[TStmt], bits: u64) -> Option<usize>
    ensures behind { MatchOption result (spec.behind (spec.has_bits bits) body.now ≡ None) (λ at. spec.behind (spec.has_bits bits) body.now ≡ Some (drop at body.now)) }
    ensures within { IfSome result (λ at. at ≤ length body.now) }
{
    for (k, s) in body.iter().enumerate() {
        if has_bits(s, bits) {
            return Some(k + 1);
        }
    }
    None
}

/// Where what stands behind `default` begins.
fn behind_default(body: &[TStmt]) -> Option<usize>
    ensures behind { MatchOption result (spec.behind spec.is_default body.now ≡ None) (λ at. spec.behind spec.is_default body.now ≡ Some (drop at body.now)) }
    ensures within { IfSome result (λ at. at ≤ length body.now) }
{
    for (k, s) in body.iter().enumerate() {
        if is_default(s) {
            return Some(k + 1);
        }
    }
    None
}

/// Where what is done of the body of a switch begins, for a value with these bits.
fn chosen(body: &[TStmt], bits: u64) -> Option<usize>
    ensures behind { MatchOption result (spec.chosen bits body.now ≡ None) (λ at. spec.chosen bits body.now ≡ Some (drop at body.now)) }
    ensures within { IfSome result (λ at. at ≤ length body.now) }
{
    match behind_case(body, bits) {
        Some(at) => Some(at),
        None => behind_default(body),
    }
}

/// The statements behind a label that was chosen, and then the end of the body round them.
fn begin_case<'p>(alloc: Global, rest: &'p [TStmt], h: Here<'p>) -> Result<Next<'p>, NoMemory>
    ensures { IfOk result (λ n. next_of n ≡ execute.selects (here_of h.entry) (Some (statements_in rest.now))) }
{
    let h = with_work(h, Work::CasesEnd)?;
    moves(with_body(alloc, rest, h)?)
}

/// What the body of a switch does for a value with these bits.
fn select_in<'p>(
    alloc: Global,
    body: &'p [TStmt],
    bits: u64,
    h: Here<'p>,
) -> Result<Next<'p>, NoMemory>
    ensures { IfOk result (λ n. next_of n ≡ execute.selects (here_of h.entry) (option_map statements_in (spec.chosen bits body.now))) }
{
    match chosen(body, bits) {
        None => moves(h),
        Some(at) => begin_case(alloc, &body[at..], h),
    }
}

/// What a switch does for a value with these bits.
#[tactic(auto, using(crate::proofs::CaseSteps::selected))]
fn select_for<'p>(alloc: Global, s: &'p TStmt, bits: u64, h: Here<'p>) -> Result<Next<'p>, NoMemory>
    ensures { IfOk result (λ n. next_of n ≡ execute.select s.now bits (here_of h.entry)) }
{
    match s {
        TStmt::Switch { body, .. } => select_in(alloc, body.as_slice(), bits, h),
        _ => lost(h),
    }
}

/// The value of a switch was found.
pub fn select<'p>(alloc: Global, s: &'p TStmt, h: Here<'p>) -> Result<Next<'p>, NoMemory>
    ensures { IfOk result (λ n. next_of n ≡ step.step_work (item.Select s.now) (here_of h.entry)) }
{
    match value(h)? {
        Taken::Lost(next) => Ok(next),
        Taken::Took(words, h) => select_for(alloc, s, bits(words.as_slice()), h),
    }
}
