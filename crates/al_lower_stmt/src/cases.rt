//! Where the cases of switches and alts begin.
ghost use Rattle.std.specs.Prelude.{◌≡◌, ◌++◌, map, IfOk, OnOk};
ghost use Rattle.al_typed.specs.Layout.{IsLaidOut};
ghost use Rattle.al_lower_base.specs.Spots.{spot_of};
ghost use Rattle.al_lower_heads.specs.Cases.{case_of};
ghost use Rattle.al_lower_stmt.specs.Bodies as spec;

use crate::sizes::stmt_size;
use al_base::NoMemory;
use al_items::Items;
use al_lower_base::{Spot, slot_behind};
use al_lower_heads::CasePlace;
use al_typed::TStmt;

/// Adds the place of a case, if a statement is one.
fn add_case(places: &mut Items<CasePlace>, a: &TStmt, pc: u32) -> Result<(), NoMemory>
    ensures { OnOk result (map case_of places.new ≡ map case_of places.old ++ spec.case_at a.now pc) }
{
    match a {
        TStmt::Case { bits, .. } => places.push(CasePlace {
            bits: *bits,
            place: pc,
        }),
        _ => Ok(()),
    }
}

/// Where the cases begin in the body of a switch.
pub fn case_places(s: Spot<'_>, body: &[TStmt], pc: u32) -> Result<Items<CasePlace>, NoMemory>
    requires { IsLaidOut s.program.now.aggregates }
    ensures { IfOk result (λ places. map case_of places ≡ spec.cases_from (spot_of s.entry) body.now pc) }
{
    let mut places = Items::new(s.alloc);
    let mut at = pc;
    for a in body {
        add_case(&mut places, a, at)?;
        at = slot_behind(at, stmt_size(s, a)?)?;
    }
    Ok(places)
}

fn is_default(a: &TStmt) -> bool
    ensures { result ≡ spec.is_default a.now }
{
    match a {
        TStmt::Default => true,
        _ => false,
    }
}

/// Where the default begins, if there is one.
pub fn default_place(s: Spot<'_>, body: &[TStmt], pc: u32) -> Result<Option<u32>, NoMemory>
    requires { IsLaidOut s.program.now.aggregates }
    ensures { IfOk result (λ place. place ≡ spec.default_from (spot_of s.entry) body.now pc) }
{
    let mut at = pc;
    for a in body {
        if is_default(a) {
            return Ok(Some(at));
        }
        at = slot_behind(at, stmt_size(s, a)?)?;
    }
    Ok(None)
}

/// Adds the place of a case of an alt, if a statement is one.
fn add_body(places: &mut Items<u32>, a: &TStmt, pc: u32) -> Result<(), NoMemory>
    ensures { OnOk result (places.new ≡ places.old ++ spec.body_at a.now pc) }
{
    match a {
        TStmt::AltCase { .. } => places.push(pc),
        _ => Ok(()),
    }
}

/// Where the cases begin in the body of an alt.
pub fn body_places(s: Spot<'_>, body: &[TStmt], pc: u32) -> Result<Items<u32>, NoMemory>
    requires { IsLaidOut s.program.now.aggregates }
    ensures { IfOk result (λ places. places ≡ spec.bodies_from (spot_of s.entry) body.now pc) }
{
    let mut places = Items::new(s.alloc);
    let mut at = pc;
    for a in body {
        add_body(&mut places, a, at)?;
        at = slot_behind(at, stmt_size(s, a)?)?;
    }
    Ok(places)
}
