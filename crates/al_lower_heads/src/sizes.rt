//! How many operations stand before the statements of a statement.
ghost use Rattle.std.specs.Prelude.{◌≡◌, IfOk, length};
ghost use Rattle.al_typed.specs.Layout.{IsLaidOut};
ghost use Rattle.al_lower_code.specs.Heads as spec;
ghost use Rattle.al_lower_base.specs.Spots.{spot_of};
ghost use Rattle.al_lower_heads.specs.Cases.{communications, referred, zero_cases_of};

use crate::alts::{cases_head, cases_in};
use crate::conditions::{optional_effect, optional_test, test};
use crate::iterators::{count_of, iterated};
use crate::switches::{switch_head, zero_cases};
use al_base::NoMemory;
use al_items::Items;
use al_lower_base::Spot;
use al_typed::{TBounds, TCommunication, TExpr, TStmt};
use std::alloc::Global;

/// How many operations a condition has.
pub fn test_size(s: Spot<'_>, e: &TExpr) -> Result<u32, NoMemory>
    requires { IsLaidOut s.program.now.aggregates }
    ensures { IfOk result (λ n. n ≡ spec.test_size (spot_of s.entry) e.now) }
{
    let mut code = Items::new(s.alloc);
    test(&mut code, s, e, 0)?;
    count_of(&code)
}

/// How many a condition has that may be missing.
pub fn optional_size(s: Spot<'_>, e: &Option<TExpr>) -> Result<u32, NoMemory>
    requires { IsLaidOut s.program.now.aggregates }
    ensures { IfOk result (λ n. n ≡ spec.optional_size (spot_of s.entry) e.now) }
{
    let mut code = Items::new(s.alloc);
    optional_test(&mut code, s, e, 0)?;
    count_of(&code)
}

/// How many an expression has whose value is dropped, if there is one.
pub fn optional_effect_size(s: Spot<'_>, e: &Option<TExpr>) -> Result<u32, NoMemory>
    requires { IsLaidOut s.program.now.aggregates }
    ensures { IfOk result (λ n. n ≡ length (spec.optional_code (spot_of s.entry) e.now)) }
{
    let mut code = Items::new(s.alloc);
    optional_effect(&mut code, s, e)?;
    count_of(&code)
}

/// How many a value with iterators has.
pub fn iterated_size(s: Spot<'_>, iterators: &[TBounds], e: &TExpr) -> Result<u32, NoMemory>
    requires { IsLaidOut s.program.now.aggregates }
    ensures { IfOk result (λ n. n ≡ length (spec.value_code (spot_of s.entry) iterators.now e.now 0)) }
{
    let mut code = Items::new(s.alloc);
    iterated(&mut code, s, iterators, e, 0)?;
    count_of(&code)
}

/// How many stand before the body of a switch.
pub fn switch_size(s: Spot<'_>, e: &TExpr, body: &[TStmt]) -> Result<u32, NoMemory>
    requires { IsLaidOut s.program.now.aggregates }
    ensures { IfOk result (λ n. n ≡ spec.switch_size (spot_of s.entry) e.now (zero_cases_of body.now)) }
{
    let cases = zero_cases(s.alloc, body)?;
    let mut code = Items::new(s.alloc);
    switch_head(&mut code, s, e, &cases, 0)?;
    count_of(&code)
}

/// A place for each case.
fn zero_places(alloc: Global, cases: &[&TCommunication]) -> Result<Items<u32>, NoMemory>
    ensures { IfOk result (λ places. places ≡ spec.zero_places (referred cases.now)) }
{
    let mut places = Items::new(alloc);
    for _case in cases {
        places.push(0)?;
    }
    Ok(places)
}

/// How many operations stand before the bodies of these cases.
fn cases_size(s: Spot<'_>, cases: &[&TCommunication]) -> Result<u32, NoMemory>
    requires { IsLaidOut s.program.now.aggregates }
    ensures { IfOk result (λ n. n ≡ spec.alt_size (spot_of s.entry) (referred cases.now)) }
{
    let places = zero_places(s.alloc, cases)?;
    let mut code = Items::new(s.alloc);
    cases_head(&mut code, s, cases, places.as_slice())?;
    count_of(&code)
}

/// How many stand before the body of an alt.
pub fn alt_size(s: Spot<'_>, body: &[TStmt]) -> Result<u32, NoMemory>
    requires { IsLaidOut s.program.now.aggregates }
    ensures { IfOk result (λ n. n ≡ spec.alt_size (spot_of s.entry) (communications body.now)) }
{
    let cases = cases_in(s.alloc, body)?;
    cases_size(s, cases.as_slice())
}
