//! Where places are, where pointers lead, and the slots in which values stand without any operation.
ghost use Rattle.std.specs.Prelude.{◌≡◌, ◌*◌, ◌%◌, ◌^◌, if◌then◌else◌, false, IfOk};
ghost use Rattle.al_typed.specs.Layout.{IsLaidOut};
ghost use Rattle.al_typed.specs.Typed.{type_of, place_type};
ghost use Rattle.al_meaning.specs.Here as here;
ghost use Rattle.al_meaning.specs.Places as places;
ghost use Rattle.al_lower_code.specs.Coded.{operand_slot};
ghost use Rattle.al_lower_code.specs.Homes as homes;
ghost use Rattle.al_lower_code.specs.Moving as moving;
ghost use Rattle.al_lower_code.specs.Values as values;
ghost use Rattle.al_lower_code.specs.Expressions as spec;
ghost use Rattle.al_lower_base.specs.Spots.{spot_of, where_of};

use crate::constants::{folded, known};
use crate::variables::{global_at, local_at, outer_at};
use al_base::NoMemory;
use al_items::{Boxed, Items};
use al_lower_base::{Spot, Where, bytes, home_of, moved_by, slot_behind, some, stays, step_bytes};
use al_typed::{TExpr, TPlace, Ty, UnaryOp};
use al_variables::{path_offset, pointee_offset};

/// How far the member of a type to which a path leads is from the start.
fn path_bytes(s: Spot<'_>, ty: &Ty, path: &[u32]) -> Result<u32, NoMemory>
    requires { IsLaidOut s.program.now.aggregates }
    ensures { IfOk result (λ n. n ≡ places.path_offset s.entry.program.now ty.now path.now) }
{
    some(path_offset(s.program, ty, path))
}

/// The same behind a pointer of a type.
fn pointed_bytes(s: Spot<'_>, ty: &Ty, path: &[u32]) -> Result<u32, NoMemory>
    requires { IsLaidOut s.program.now.aggregates }
    ensures { IfOk result (λ n. n ≡ places.path_offset s.entry.program.now (here.pointee ty.now) path.now) }
{
    some(pointee_offset(s.program, ty, path))
}

/// How far a member of a place is from its start.
fn offset_of(s: Spot<'_>, p: &Boxed<TPlace>, path: &Items<u32>) -> Result<u32, NoMemory>
    requires { IsLaidOut s.program.now.aggregates }
    ensures { IfOk result (λ n. n ≡ places.path_offset s.entry.program.now (place_type p.now) path.now) }
{
    path_bytes(s, p.get().ty(), path.as_slice())
}

/// How far a member is from where a pointer leads.
fn offset_behind(s: Spot<'_>, e: &Boxed<TExpr>, path: &Items<u32>) -> Result<u32, NoMemory>
    requires { IsLaidOut s.program.now.aggregates }
    ensures { IfOk result (λ n. n ≡ places.path_offset s.entry.program.now (here.pointee (type_of e.now)) path.now) }
{
    pointed_bytes(s, e.get().ty(), path.as_slice())
}

/// The slots in which an operator's value stands.
#[cycle(leads)]
#[tactic(auto, using(crate::proofs::Plain::complement_rules))]
fn unary_stands(s: Spot<'_>, ty: &Ty, op: UnaryOp, of: &TExpr) -> Result<Option<u32>, NoMemory>
    requires { IsLaidOut s.program.now.aggregates }
    ensures { IfOk result (λ slot. slot ≡ (values.unary_coded (spot_of s.entry) ty.now op (spec.coded (spot_of s.entry) of.now)).stands) }
{
    match op {
        UnaryOp::Plus => stands(s, of),
        UnaryOp::Minus | UnaryOp::Complement => Ok(None),
    }
}

/// The slots in which a value of another type stands.
#[cycle(leads)]
#[tactic(auto, using(crate::proofs::Plain::conversion_rules))]
fn converted_stands(s: Spot<'_>, into: &Ty, of: &TExpr) -> Result<Option<u32>, NoMemory>
    requires { IsLaidOut s.program.now.aggregates }
    ensures { IfOk result (λ slot. slot ≡ (values.converted_coded (spot_of s.entry) (type_of of.now) into.now (spec.coded (spot_of s.entry) of.now)).stands) }
{
    if stays(of.ty(), into) {
        stands(s, of)
    } else {
        Ok(None)
    }
}

/// The first of the slots in which a value stands without any operation, if it does.
#[cycle(leads)]
#[tactic(auto, using(crate::proofs::Fields::stands_are))]
pub fn stands(s: Spot<'_>, e: &TExpr) -> Result<Option<u32>, NoMemory>
    requires { IsLaidOut s.program.now.aggregates }
    ensures { IfOk result (λ slot. slot ≡ (spec.coded (spot_of s.entry) e.now).stands) }
{
    match folded(s, e)? {
        Some(_) => Ok(None),
        None => match e {
            TExpr::Load { place, .. } => home_at(s, place),
            TExpr::Iterator { number, .. } => Ok(Some(slot_behind(s.turns, *number)?)),
            TExpr::Unary { ty, op, of } => unary_stands(s, ty, *op, of.get()),
            TExpr::Cast { ty, of } | TExpr::Convert { ty, of } => {
                converted_stands(s, ty, of.get())
            }
            _ => Ok(None),
        },
    }
}

/// Behind the address that stands in a slot, with no offset.
fn stored(to: u32) -> Where
    ensures { where_of result ≡ moving.Stored to 0 }
{
    Where::Stored {
        slot: to,
        offset: 0,
    }
}

/// Where a pointer leads that an operator gives.
#[cycle(leads)]
#[tactic(auto, using(crate::proofs::Plain::complement_rules))]
fn unary_leads(
    s: Spot<'_>,
    ty: &Ty,
    op: UnaryOp,
    of: &TExpr,
    lasting: bool,
    to: u32,
) -> Result<Where, NoMemory>
    requires { IsLaidOut s.program.now.aggregates }
    ensures { IfOk result (λ at. where_of at ≡ (values.unary_coded (spot_of s.entry) ty.now op (spec.coded (spot_of s.entry) of.now)).leads lasting to) }
{
    match op {
        UnaryOp::Plus => leads(s, of, lasting, to),
        UnaryOp::Minus | UnaryOp::Complement => Ok(stored(to)),
    }
}

/// Where a pointer leads that was of another type.
#[cycle(leads)]
#[tactic(auto, using(crate::proofs::Plain::conversion_rules))]
fn converted_leads(
    s: Spot<'_>,
    into: &Ty,
    of: &TExpr,
    lasting: bool,
    to: u32,
) -> Result<Where, NoMemory>
    requires { IsLaidOut s.program.now.aggregates }
    ensures { IfOk result (λ at. where_of at ≡ (values.converted_coded (spot_of s.entry) (type_of of.now) into.now (spec.coded (spot_of s.entry) of.now)).leads lasting to) }
{
    if stays(of.ty(), into) {
        leads(s, of, lasting, to)
    } else {
        Ok(stored(to))
    }
}

/// Where a pointer leads whose value stands in slots, or in those from `to` on.
#[cycle(leads)]
fn plain_leads(s: Spot<'_>, e: &TExpr, lasting: bool, to: u32) -> Result<Where, NoMemory>
    requires { IsLaidOut s.program.now.aggregates }
    ensures { IfOk result (λ at. where_of at ≡ moving.Stored (if lasting then to else operand_slot (spec.coded (spot_of s.entry) e.now) to) 0) }
{
    if lasting {
        return Ok(stored(to));
    }
    match stands(s, e)? {
        Some(slot) => Ok(stored(slot)),
        None => Ok(stored(to)),
    }
}

/// Where the value of an expression leads, which is used as an address at once, or later.
#[cycle(leads)]
#[tactic(auto, using(crate::proofs::Fields::leads_are))]
pub fn leads(s: Spot<'_>, e: &TExpr, lasting: bool, to: u32) -> Result<Where, NoMemory>
    requires { IsLaidOut s.program.now.aggregates }
    ensures { IfOk result (λ at. where_of at ≡ (spec.coded (spot_of s.entry) e.now).leads lasting to) }
{
    match folded(s, e)? {
        Some(_) => Ok(stored(to)),
        None => match e {
            TExpr::Load { .. } => plain_leads(s, e, lasting, to),
            TExpr::Decay { place, .. } => place_part_at(s, place, lasting, to),
            TExpr::Address { place, .. } => place_part_at(s, place, lasting, to),
            TExpr::Iterator { .. } => plain_leads(s, e, lasting, to),
            TExpr::Unary { ty, op, of } => unary_leads(s, ty, *op, of.get(), lasting, to),
            TExpr::Cast { ty, of } | TExpr::Convert { ty, of } => {
                converted_leads(s, ty, of.get(), lasting, to)
            }
            _ => Ok(stored(to)),
        },
    }
}

/// A part of an expression.
#[cycle(leads)]
fn part_leads(s: Spot<'_>, e: &Boxed<TExpr>, lasting: bool, to: u32) -> Result<Where, NoMemory>
    requires { IsLaidOut s.program.now.aggregates }
    ensures { IfOk result (λ at. where_of at ≡ (spec.coded (spot_of s.entry) e.now).leads lasting to) }
{
    leads(s, e.get(), lasting, to)
}

/// Where something is so many bytes behind what a pointer leads to.
#[cycle(leads)]
fn pointed_at(
    s: Spot<'_>,
    offset: u32,
    e: &Boxed<TExpr>,
    lasting: bool,
    to: u32,
) -> Result<Where, NoMemory>
    requires { IsLaidOut s.program.now.aggregates }
    ensures { IfOk result (λ at. where_of at ≡ (values.pointed_placed offset (spec.coded (spot_of s.entry) e.now)).at lasting to) }
{
    let at = part_leads(s, e, lasting, to)?;
    Ok(moved_by(offset, at))
}

/// Where an element is whose number is known.
#[cycle(leads)]
fn numbered_at(
    s: Spot<'_>,
    ty: &Ty,
    count: u64,
    base: &Boxed<TExpr>,
    lasting: bool,
    to: u32,
) -> Result<Where, NoMemory>
    requires { IsLaidOut s.program.now.aggregates }
    ensures { IfOk result (λ at. where_of at ≡ (values.pointed_placed (count * homes.size (spot_of s.entry) ty.now % 2 ^ 32) (spec.coded (spot_of s.entry) base.now)).at lasting to) }
{
    let size = bytes(s, ty)?;
    let offset = step_bytes(false, size, count);
    pointed_at(s, offset, base, lasting, to)
}

/// Where an element of a type is.
#[cycle(leads)]
fn element_at(
    s: Spot<'_>,
    ty: &Ty,
    base: &Boxed<TExpr>,
    index: &Boxed<TExpr>,
    lasting: bool,
    to: u32,
) -> Result<Where, NoMemory>
    requires { IsLaidOut s.program.now.aggregates }
    ensures { IfOk result (λ at. where_of at ≡ (values.element_placed (spot_of s.entry) (homes.size (spot_of s.entry) ty.now) (spec.coded (spot_of s.entry) base.now) (spec.coded (spot_of s.entry) index.now)).at lasting to) }
{
    match known(s, index.get())? {
        Some(count) => numbered_at(s, ty, count, base, lasting, to),
        None => Ok(stored(to)),
    }
}

/// A place in an expression.
#[cycle(leads)]
fn place_part_at(s: Spot<'_>, p: &Boxed<TPlace>, lasting: bool, to: u32) -> Result<Where, NoMemory>
    requires { IsLaidOut s.program.now.aggregates }
    ensures { IfOk result (λ at. where_of at ≡ (spec.placed (spot_of s.entry) p.now).at lasting to) }
{
    place_at(s, p.get(), lasting, to)
}

/// The slots in which the value of a place stands.
#[cycle(leads)]
fn home_at(s: Spot<'_>, p: &Boxed<TPlace>) -> Result<Option<u32>, NoMemory>
    requires { IsLaidOut s.program.now.aggregates }
    ensures { IfOk result (λ slot. slot ≡ moving.home_of ((spec.placed (spot_of s.entry) p.now).at false 0)) }
{
    let at = place_part_at(s, p, false, 0)?;
    Ok(home_of(at))
}

/// Where a member is.
#[cycle(leads)]
fn member_at(
    s: Spot<'_>,
    of: &Boxed<TPlace>,
    path: &Items<u32>,
    lasting: bool,
    to: u32,
) -> Result<Where, NoMemory>
    requires { IsLaidOut s.program.now.aggregates }
    ensures { IfOk result (λ at. where_of at ≡ (values.member_placed (places.path_offset s.entry.program.now (place_type of.now) path.now) (spec.placed (spot_of s.entry) of.now)).at lasting to) }
{
    let offset = offset_of(s, of, path)?;
    let at = place_part_at(s, of, lasting, to)?;
    Ok(moved_by(offset, at))
}

/// Where a member behind a pointer is.
#[cycle(leads)]
fn pointed_member_at(
    s: Spot<'_>,
    e: &Boxed<TExpr>,
    path: &Items<u32>,
    lasting: bool,
    to: u32,
) -> Result<Where, NoMemory>
    requires { IsLaidOut s.program.now.aggregates }
    ensures { IfOk result (λ at. where_of at ≡ (values.pointed_placed (places.path_offset s.entry.program.now (here.pointee (type_of e.now)) path.now) (spec.coded (spot_of s.entry) e.now)).at lasting to) }
{
    let offset = offset_behind(s, e, path)?;
    pointed_at(s, offset, e, lasting, to)
}

/// Where a place is, which is used at once, or later. Its operations have slots from `to` on.
#[cycle(leads)]
#[tactic(auto, using(crate::proofs::Forms::places_are))]
pub fn place_at(s: Spot<'_>, p: &TPlace, lasting: bool, to: u32) -> Result<Where, NoMemory>
    requires { IsLaidOut s.program.now.aggregates }
    ensures { IfOk result (λ at. where_of at ≡ (spec.placed (spot_of s.entry) p.now).at lasting to) }
{
    match p {
        TPlace::Local { number, .. } => local_at(s, *number),
        TPlace::Outer { around, number, .. } => outer_at(s, *around, *number),
        TPlace::Global { number, .. } => global_at(s, *number, to),
        TPlace::Pointed { pointer, .. } => pointed_at(s, 0, pointer, lasting, to),
        TPlace::Element { ty, base, index } => element_at(s, ty, base, index, lasting, to),
        TPlace::Member { of, path, .. } => member_at(s, of, path, lasting, to),
        TPlace::PointedMember { pointer, path, .. } => {
            pointed_member_at(s, pointer, path, lasting, to)
        }
    }
}
