//! What is done with a place that was found.
ghost use Rattle.std.specs.Prelude.{◌≡◌, ◌++◌, false, IfOk, OnOk};
ghost use Rattle.al_typed.specs.Layout.{IsLaidOut};
ghost use Rattle.al_typed.specs.Typed.{place_type};
ghost use Rattle.al_lower_code.specs.Expressions as code_of;
ghost use Rattle.al_lower_code.specs.Moving as moving;
ghost use Rattle.al_lower_forms.specs.Finds as spec;
ghost use Rattle.al_lower_base.specs.Spots.{spot_of};

use crate::objects::{free_behind_member, pass_place};
use al_base::NoMemory;
use al_lower_base::{Code, Spot, address, read, settle, settled, slot_behind, words};
use al_lower_operands::{leads, place_at};
use al_typed::{Passed, TExpr, TPlace, Ty};

/// What is done with a place.
#[derive(Clone, Copy)]
pub enum Find<'a> {
    /// Its value, which is of a type.
    Read(&'a Ty),
    /// Its address.
    Address,
    /// What of a member is passed as an object.
    Pass { path: &'a [u32], how: Passed },
}

/// The slots that are free while the place is found, which is of a type.
pub fn free_for(s: Spot<'_>, ty: &Ty, what: Find<'_>, to: u32) -> Result<u32, NoMemory>
    requires { IsLaidOut s.program.now.aggregates }
    ensures { IfOk result (λ slot. slot ≡ spec.free_for (spot_of s.entry) ty.now what.entry to) }
{
    match what {
        Find::Read(ty) => slot_behind(to, words(s, ty)?),
        Find::Address => Ok(to),
        Find::Pass { path, how } => free_behind_member(s, ty, path, how, to),
    }
}

/// The value at a place.
fn read_place(
    code: &mut Code,
    s: Spot<'_>,
    ty: &Ty,
    x: &TPlace,
    free: u32,
    dest: u32,
) -> Result<(), NoMemory>
    requires { IsLaidOut s.program.now.aggregates }
    ensures { OnOk result (code.new ≡ code.old ++ moving.read_code (spot_of s.entry) ty.now ((code_of.placed (spot_of s.entry) x.now).at false free) dest) }
{
    let at = place_at(s, x, false, free)?;
    read(code, s, ty, at, dest)
}

/// The address of a place.
fn address_place(
    code: &mut Code,
    s: Spot<'_>,
    x: &TPlace,
    free: u32,
    dest: u32,
) -> Result<(), NoMemory>
    requires { IsLaidOut s.program.now.aggregates }
    ensures { OnOk result (code.new ≡ code.old ++ moving.address_code (spot_of s.entry) ((code_of.placed (spot_of s.entry) x.now).at false free) dest) }
{
    let at = place_at(s, x, false, free)?;
    address(code, s, at, dest)
}

/// A place is used, which was found in slots from `free` on.
pub fn use_place(
    code: &mut Code,
    s: Spot<'_>,
    x: &TPlace,
    what: Find<'_>,
    free: u32,
    dest: u32,
) -> Result<(), NoMemory>
    requires { IsLaidOut s.program.now.aggregates }
    ensures { OnOk result (code.new ≡ code.old ++ spec.find_code (spot_of s.entry) (place_type x.now) what.entry ((code_of.placed (spot_of s.entry) x.now).at false free) dest) }
{
    match what {
        Find::Read(ty) => read_place(code, s, ty, x, free, dest),
        Find::Address => address_place(code, s, x, free, dest),
        Find::Pass { path, how } => pass_place(code, s, x, path, how, free, dest),
    }
}

/// The address to which an expression leads that was found from `to` on, without an offset, and the slot where it stands then.
pub fn base_slot(
    code: &mut Code,
    s: Spot<'_>,
    e: &TExpr,
    lasting: bool,
    to: u32,
) -> Result<u32, NoMemory>
    requires { IsLaidOut s.program.now.aggregates }
    ensures code { OnOk result (code.new ≡ code.old ++ moving.settles (spot_of s.entry) ((code_of.coded (spot_of s.entry) e.now).leads lasting to) to) }
    ensures slot { IfOk result (λ slot. slot ≡ moving.settled ((code_of.coded (spot_of s.entry) e.now).leads lasting to) to) }
{
    let at = leads(s, e, lasting, to)?;
    settle(code, s, at, to)?;
    Ok(settled(at, to))
}
