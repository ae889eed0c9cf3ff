//! What a switch and an alt are asked as a whole.
ghost use Rattle.std.specs.Prelude.{◌≡◌, ◌++◌, map, IfOk, OnOk};
ghost use Rattle.al_rules.specs.Outcome.{Answers};
ghost use Rattle.al_statements.specs.Cases.{case_faults, no_cases};
ghost use Rattle.al_type_stmt.specs.Statements as spec;
ghost use Rattle.al_type_stmt.specs.Statements.{part, places};

use crate::part::{is_alt_case, label_of, place};
use crate::within::Within;
use al_base::{NoMemory, Place};
use al_environment::{Environment, Here};
use al_items::Items;
use al_operands::beside;
use al_rules::{TypeFault, TypeStop, judged};
use al_statements::{Cases, add_label, ask_cases, no_cases};
use al_tree::Stmt;
use al_typed::{TExpr, TStmt};
use std::alloc::Global;

/// Asks rule 52 of a statement in the body of a switch.
fn ask_label(
    cases: &mut Cases,
    faults: &mut Items<TypeFault>,
    at: Place,
    s: &TStmt,
) -> Result<(), NoMemory>
    ensures cases { OnOk result (cases.new ≡ spec.behind cases.old (spec.label_of s.now)) }
    ensures faults { OnOk result (faults.new ≡ faults.old ++ spec.fault_of cases.old at (spec.label_of s.now)) }
{
    match label_of(s) {
        None => Ok(()),
        Some(label) => add_label(cases, faults, at, label),
    }
}

/// Asks rule 52 of the body of a switch.
#[tactic(auto, unfolding(crate::specs::Statements::label_faults), using(crate::proofs::EachOf::labels))]
fn ask_labels(
    alloc: Global,
    env: &Environment,
    here: &Here,
    w: &Within,
    body: &[Stmt],
    typed: &[TStmt],
) -> Result<Items<TypeFault>, NoMemory>
    ensures { IfOk result (λ faults. faults ≡ spec.label_faults no_cases (places (map (part w.now env.now here.now) body.now)) typed.now) }
{
    let mut faults = Items::new(alloc);
    let mut cases = no_cases(alloc);
    let mut rest = body;
    for t in typed {
        let [s, others @ ..] = rest else {
            return Ok(faults);
        };
        ask_label(&mut cases, &mut faults, place(s), t)?;
        rest = others;
    }
    Ok(faults)
}

/// A switch whose value and body are typed.
#[tactic(auto, using(al_rules::proofs::Permits::permitted))]
pub(crate) fn labelled(
    alloc: Global,
    env: &Environment,
    here: &Here,
    w: &Within,
    line: u32,
    body: &[Stmt],
    value: TExpr,
    typed: Items<TStmt>,
) -> Result<TStmt, TypeStop>
    ensures { Answers result (spec.labelled line (places (map (part w.now env.now here.now) body.now)) value typed) }
{
    let faults = ask_labels(alloc, env, here, w, body, typed.as_slice());
    let (held, faults) = beside((value, typed), faults)?;
    let (value, body) = held;
    judged(faults.as_slice(), TStmt::Switch { line, value, body })
}

/// How many cases the body of an alt has.
#[tactic(auto, using(crate::proofs::EachOf::counted))]
fn count_cases(body: &[TStmt]) -> usize
    ensures { result ≡ spec.alt_cases body.now }
{
    let mut count = 0;
    for s in body {
        if is_alt_case(s) {
            count += 1;
        }
    }
    count
}

/// Asks rule 53 of an alt with so many cases.
fn alt_faults(alloc: Global, at: Place, count: usize) -> Result<Items<TypeFault>, NoMemory>
    ensures { IfOk result (λ faults. faults ≡ case_faults at count) }
{
    let mut faults = Items::new(alloc);
    ask_cases(&mut faults, at, count)?;
    Ok(faults)
}

/// An alt whose body is typed.
pub(crate) fn alt_of(alloc: Global, at: Place, body: Items<TStmt>) -> Result<TStmt, TypeStop>
    ensures { Answers result (spec.alt_of at body) }
{
    let count = count_cases(body.as_slice());
    let faults = alt_faults(alloc, at, count);
    let (body, faults) = beside(body, faults)?;
    judged(
        faults.as_slice(),
        TStmt::Alt {
            line: at.line,
            body,
        },
    )
}
