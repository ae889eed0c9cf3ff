//! Switches: the value, a test for each case, and a jump behind them.
ghost use Rattle.std.specs.Prelude.{◌≡◌, ◌+◌, ◌++◌, IfOk, OnOk, map};
ghost use Rattle.al_typed.specs.Layout.{IsLaidOut};
ghost use Rattle.al_typed.specs.Typed.{type_of};
ghost use Rattle.al_meaning.specs.Shown as shown;
ghost use Rattle.al_lower_code.specs.Heads as spec;
ghost use Rattle.al_lower_base.specs.Spots.{spot_of};
ghost use Rattle.al_lower_heads.specs.Cases.{case_of, zero_case_of, zero_cases_of};

use al_base::{NoMemory, Op as Arith};
use al_ir::Op;
use al_lower_base::{Code, Spot, is_long, push, slot_behind, words};
use al_lower_expr::operand;
use al_lower_parts::constant;
use al_typed::{TExpr, TStmt, Ty};
use al_variables::kind_of;
use std::alloc::Global;

/// Where a case of a switch begins, by the bits of its label in the kind of the switch.
#[derive(Clone, Copy)]
pub struct CasePlace {
    pub bits: u64,
    pub place: u32,
}

/// A jump to the place of a case where a value of a type, which stands from `at` on, has its bits.
fn case_test(
    code: &mut Code,
    s: Spot<'_>,
    ty: &Ty,
    at: u32,
    free: u32,
    case: CasePlace,
) -> Result<(), NoMemory>
    ensures { OnOk result (code.new ≡ code.old ++ spec.case_test (spot_of s.entry) (shown.kind_of ty.now) at free case.bits case.place) }
{
    constant(code, s, ty, case.bits, free)?;
    if is_long(kind_of(ty)) {
        push(
            code,
            s.line,
            Op::Long {
                op: Arith::Eq,
                signed: false,
                to: free,
                left: at,
                right: free,
            },
        )?;
        push(
            code,
            s.line,
            Op::SkipIfZero {
                slot: free,
                count: 1,
            },
        )?;
    } else {
        push(
            code,
            s.line,
            Op::SkipUnless {
                op: Arith::Eq,
                signed: false,
                left: at,
                right: free,
                count: 1,
            },
        )?;
    }
    push(code, s.line, Op::GoTo { to: case.place })
}

/// A test for each case.
fn case_tests(
    code: &mut Code,
    s: Spot<'_>,
    ty: &Ty,
    at: u32,
    free: u32,
    cases: &[CasePlace],
) -> Result<(), NoMemory>
    ensures { OnOk result (code.new ≡ code.old ++ spec.case_tests (spot_of s.entry) (shown.kind_of ty.now) at free (map case_of cases.now)) }
{
    for case in cases {
        case_test(code, s, ty, at, free, *case)?;
    }
    Ok(())
}

/// The value of a switch, a jump to the place of the case that has it, and one to where the others go.
pub fn switch_head(
    code: &mut Code,
    s: Spot<'_>,
    e: &TExpr,
    cases: &[CasePlace],
    otherwise: u32,
) -> Result<(), NoMemory>
    requires { IsLaidOut s.program.now.aggregates }
    ensures { OnOk result (code.new ≡ code.old ++ spec.switch_head (spot_of s.entry) e.now (map case_of cases.now) otherwise) }
{
    let at = operand(code, s, e, s.turns)?;
    let ty = e.ty();
    let free = slot_behind(s.turns, words(s, ty)?)?;
    case_tests(code, s, ty, at, free, cases)?;
    push(code, s.line, Op::GoTo { to: otherwise })
}

/// The case that a statement is the label of, with no place yet, behind others.
fn put_zero_case(cases: &mut Vec<CasePlace>, a: &TStmt) -> Result<(), NoMemory>
    ensures { OnOk result (map case_of cases.new.items ≡ map case_of cases.old.items ++ zero_case_of a.now) }
{
    match a {
        TStmt::Case { bits, .. } => Ok(cases.push(CasePlace {
            bits: *bits,
            place: 0,
        })?),
        _ => Ok(()),
    }
}

/// The cases of a switch, with no places yet.
pub(crate) fn zero_cases(alloc: Global, body: &[TStmt]) -> Result<Vec<CasePlace>, NoMemory>
    ensures { IfOk result (λ cases. map case_of cases.items ≡ zero_cases_of body.now) }
{
    let mut cases = Vec::new(alloc);
    for a in body {
        put_zero_case(&mut cases, a)?;
    }
    Ok(cases)
}
