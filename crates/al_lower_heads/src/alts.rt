//! Alts: the channels and values of all cases, the talk, and a jump to the body of the case that went.
ghost use Rattle.std.specs.Prelude.{◌≡◌, ◌+◌, ◌++◌, ◌∷◌, [], IfOk, OnOk, MatchOption, sum_by};
ghost use Rattle.al_typed.specs.Layout.{IsLaidOut};
ghost use Rattle.al_lower_code.specs.Heads as spec;
ghost use Rattle.al_lower_code.specs.Homes as homes;
ghost use Rattle.al_ir.specs.declared.op.Op.TheVariants as op;
ghost use Rattle.al_lower_base.specs.Spots.{spot_of};
ghost use Rattle.al_lower_heads.specs.Cases.{communication_of, communications, referred, tested};

use crate::iterators::count_of;
use crate::received::went;
use al_base::{NoMemory, Op as Arith};
use al_ir::{Op, TalkBranch};
use al_items::Items;
use al_lower_base::{Code, Spot, push, slot_behind, some, words};
use al_lower_expr::value;
use al_typed::{TCommunication, TStmt};
use al_variables::word_of;
use std::alloc::Global;

/// The communication that a statement is the case of.
fn communication(a: &TStmt) -> Option<&TCommunication>
    ensures { MatchOption result (communication_of a.now ≡ []) (λ c. communication_of a.now ≡ c.now ∷ []) }
{
    match a {
        TStmt::AltCase { communication } => Some(communication),
        _ => None,
    }
}

/// The communication that a statement is the case of, behind others.
fn put_case<'b>(cases: &mut Items<&'b TCommunication>, a: &'b TStmt) -> Result<(), NoMemory>
    ensures { OnOk result (referred cases.new ≡ referred cases.old ++ communication_of a.now) }
{
    match communication(a) {
        Some(case) => cases.push(case),
        None => Ok(()),
    }
}

/// The communications of the cases in the body of an alt.
pub(crate) fn cases_in<'b>(
    alloc: Global,
    body: &'b [TStmt],
) -> Result<Items<&'b TCommunication>, NoMemory>
    ensures { IfOk result (λ cases. referred cases ≡ communications body.now) }
{
    let mut cases = Items::new(alloc);
    for a in body {
        put_case(&mut cases, a)?;
    }
    Ok(cases)
}

/// How many slots the channel of a case takes, and what it sends.
fn talk_size(s: Spot<'_>, case: &TCommunication) -> Result<u32, NoMemory>
    requires { IsLaidOut s.program.now.aggregates }
    ensures { IfOk result (λ n. n ≡ spec.talk_size (spot_of s.entry) case.now) }
{
    match case {
        TCommunication::Receive { .. } | TCommunication::ReceiveInto { .. } => Ok(1),
        TCommunication::Send { value, .. } => slot_behind(1, words(s, value.ty())?),
    }
}

/// The channel of a case and what it sends, one behind the other from `to` on.
fn talk(code: &mut Code, s: Spot<'_>, case: &TCommunication, to: u32) -> Result<(), NoMemory>
    requires { IsLaidOut s.program.now.aggregates }
    ensures { OnOk result (code.new ≡ code.old ++ spec.talk_code (spot_of s.entry) case.now to) }
{
    match case {
        TCommunication::Receive { chan, .. } | TCommunication::ReceiveInto { chan, .. } => {
            value(code, s, chan, to, to)
        }
        TCommunication::Send { chan, value: sent } => {
            value(code, s, chan, to, to)?;
            let behind = slot_behind(to, 1)?;
            value(code, s, sent, behind, behind)
        }
    }
}

/// The channels and values of cases, one behind the other from `to` on, and the slot behind them.
fn talks(code: &mut Code, s: Spot<'_>, cases: &[&TCommunication], to: u32) -> Result<u32, NoMemory>
    requires { IsLaidOut s.program.now.aggregates }
    ensures code { OnOk result (code.new ≡ code.old ++ spec.talks_code (spot_of s.entry) (referred cases.now) to) }
    ensures slot { IfOk result (λ slot. slot ≡ to + sum_by (spec.talk_size (spot_of s.entry)) (referred cases.now)) }
{
    let mut slot = to;
    for case in cases {
        talk(code, s, case, slot)?;
        slot = slot_behind(slot, talk_size(s, case)?)?;
    }
    Ok(slot)
}

/// The branch of a case, whose channel stands in the slot `at` and what it sends behind it.
fn talk_branch(s: Spot<'_>, case: &TCommunication, at: u32) -> Result<TalkBranch, NoMemory>
    requires { IsLaidOut s.program.now.aggregates }
    ensures { IfOk result (λ branch. branch ≡ spec.talk_branch (spot_of s.entry) case.now at) }
{
    match case {
        TCommunication::Receive { ty, .. } | TCommunication::ReceiveInto { ty, .. } => {
            Ok(TalkBranch {
                chan: at,
                words: words(s, ty)?,
                send: None,
            })
        }
        TCommunication::Send { value, .. } => Ok(TalkBranch {
            chan: at,
            words: words(s, value.ty())?,
            send: Some(slot_behind(at, 1)?),
        }),
    }
}

/// The branches of cases.
fn talk_branches(
    s: Spot<'_>,
    cases: &[&TCommunication],
    at: u32,
) -> Result<Items<TalkBranch>, NoMemory>
    requires { IsLaidOut s.program.now.aggregates }
    ensures { IfOk result (λ branches. branches ≡ spec.talk_branches (spot_of s.entry) (referred cases.now) at) }
{
    let mut branches = Items::new(s.alloc);
    let mut slot = at;
    for case in cases {
        branches.push(talk_branch(s, case, slot)?)?;
        slot = slot_behind(slot, talk_size(s, case)?)?;
    }
    Ok(branches)
}

/// How many words a case receives.
fn received_words(s: Spot<'_>, case: &TCommunication) -> Result<u32, NoMemory>
    requires { IsLaidOut s.program.now.aggregates }
    ensures { IfOk result (λ n. n ≡ spec.received_words (spot_of s.entry) case.now) }
{
    match case {
        TCommunication::Receive { ty, .. } | TCommunication::ReceiveInto { ty, .. } => words(s, ty),
        TCommunication::Send { .. } => Ok(0),
    }
}

/// How many words the case receives that receives most.
fn most_received(s: Spot<'_>, cases: &[&TCommunication]) -> Result<u32, NoMemory>
    requires { IsLaidOut s.program.now.aggregates }
    ensures { IfOk result (λ n. n ≡ spec.most_received (spot_of s.entry) (referred cases.now)) }
{
    let mut most: u32 = 0;
    for case in cases {
        most = most.max(received_words(s, case)?);
    }
    Ok(most)
}

/// What a case does with what it received, and the jump to its body, where it is the one that went.
fn tested_case(
    code: &mut Code,
    s: Spot<'_>,
    number: u32,
    case: &TCommunication,
    body: u32,
    branch: u32,
    got: u32,
    free: u32,
) -> Result<(), NoMemory>
    requires { IsLaidOut s.program.now.aggregates }
    ensures { OnOk result (code.new ≡ code.old ++ tested (spot_of s.entry) number case.now body branch got free) }
{
    let mut own = Items::new(s.alloc);
    went(&mut own, s, case, got, free)?;
    let count = slot_behind(count_of(&own)?, 1)?;
    push(
        code,
        s.line,
        Op::Constant {
            to: free,
            word: number,
        },
    )?;
    push(
        code,
        s.line,
        Op::SkipUnless {
            op: Arith::Eq,
            signed: false,
            left: branch,
            right: free,
            count,
        },
    )?;
    code.append(own)?;
    push(code, s.line, Op::GoTo { to: body })
}

/// The same of the last case, which needs no test.
fn last_case(
    code: &mut Code,
    s: Spot<'_>,
    case: &TCommunication,
    body: u32,
    got: u32,
    free: u32,
) -> Result<(), NoMemory>
    requires { IsLaidOut s.program.now.aggregates }
    ensures { OnOk result (code.new ≡ code.old ++ (spec.went_code (spot_of s.entry) case.now got free ++ homes.here (spot_of s.entry) (op.GoTo body))) }
{
    went(code, s, case, got, free)?;
    push(code, s.line, Op::GoTo { to: body })
}

/// The case that went does what it does with what it received, and then comes its body.
fn dispatch(
    code: &mut Code,
    s: Spot<'_>,
    cases: &[&TCommunication],
    bodies: &[u32],
    branch: u32,
    got: u32,
    free: u32,
) -> Result<(), NoMemory>
    requires { IsLaidOut s.program.now.aggregates }
    ensures { OnOk result (code.new ≡ code.old ++ spec.dispatch (spot_of s.entry) 0 (referred cases.now) bodies.now branch got free) }
{
    let mut number: u32 = 0;
    for (k, case) in cases.iter().enumerate() {
        if k >= bodies.len() {
            return Ok(());
        }
        if k + 1 == cases.len() {
            return last_case(code, s, case, bodies[k], got, free);
        }
        tested_case(code, s, number, case, bodies[k], branch, got, free)?;
        number = slot_behind(number, 1)?;
    }
    Ok(())
}

/// What stands before the bodies of these cases.
pub(crate) fn cases_head(
    code: &mut Code,
    s: Spot<'_>,
    cases: &[&TCommunication],
    bodies: &[u32],
) -> Result<(), NoMemory>
    requires { IsLaidOut s.program.now.aggregates }
    ensures { OnOk result (code.new ≡ code.old ++ spec.alt_head (spot_of s.entry) (referred cases.now) bodies.now) }
{
    let branch = talks(code, s, cases, s.turns)?;
    let branches = talk_branches(s, cases, s.turns)?;
    let count = some(word_of(cases.len() as u64))?;
    let records = slot_behind(branch, 1)?;
    let got = some(word_of((records as u64) + 4 * (count as u64)))?;
    push(
        code,
        s.line,
        Op::Talk {
            branches,
            records,
            to: branch,
            got,
        },
    )?;
    let free = slot_behind(got, most_received(s, cases)?)?;
    dispatch(code, s, cases, bodies, branch, got, free)
}

/// The channels and values of an alt's cases, the talk, and a jump to the body of the case that went. Each case in the body has
/// its place in `bodies`.
pub fn alt_head(
    code: &mut Code,
    s: Spot<'_>,
    body: &[TStmt],
    bodies: &[u32],
) -> Result<(), NoMemory>
    requires { IsLaidOut s.program.now.aggregates }
    ensures { OnOk result (code.new ≡ code.old ++ spec.alt_head (spot_of s.entry) (communications body.now) bodies.now) }
{
    let cases = cases_in(s.alloc, body)?;
    cases_head(code, s, cases.as_slice(), bodies)
}
