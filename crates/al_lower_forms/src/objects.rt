//! Objects before the names of functions: the slots that are free behind them, and what of a place or behind a pointer is passed.
ghost use Rattle.std.specs.Prelude.{◌≡◌, ◌++◌, false, IfOk, OnOk};
ghost use Rattle.al_typed.specs.Layout.{IsLaidOut};
ghost use Rattle.al_typed.specs.Typed.{type_of, place_type};
ghost use Rattle.al_meaning.specs.Here as here;
ghost use Rattle.al_meaning.specs.Places as places;
ghost use Rattle.al_lower_code.specs.Expressions as spec;
ghost use Rattle.al_lower_code.specs.Homes as homes;
ghost use Rattle.al_lower_code.specs.Moving as moving;
ghost use Rattle.al_lower_parts.specs.Parts as parts;
ghost use Rattle.al_lower_base.specs.Spots.{spot_of};

use al_base::NoMemory;
use al_lower_base::{Code, Spot, moved_by, some};
use al_lower_operands::{leads, place_at};
use al_lower_parts::{member_words, object_free, pass_member, pass_pointed, pointed_words};
use al_typed::{Passed, TExpr, TPlace, Ty};
use al_variables::{path_offset, pointee_offset};

/// How far the member of a type to which a path leads is from the start.
fn path_bytes(s: Spot<'_>, ty: &Ty, path: &[u32]) -> Result<u32, NoMemory>
    requires { IsLaidOut s.program.now.aggregates }
    ensures { IfOk result (λ n. n ≡ places.path_offset s.entry.program.now ty.now path.now) }
{
    some(path_offset(s.program, ty, path))
}

/// The same behind a pointer of a type.
fn pointed_bytes(s: Spot<'_>, ty: &Ty, path: &[u32]) -> Result<u32, NoMemory>
    requires { IsLaidOut s.program.now.aggregates }
    ensures { IfOk result (λ n. n ≡ places.path_offset s.entry.program.now (here.pointee ty.now) path.now) }
{
    some(pointee_offset(s.program, ty, path))
}

/// The slots that are free behind what the member of a type gives.
pub fn free_behind_member(
    s: Spot<'_>,
    ty: &Ty,
    path: &[u32],
    how: Passed,
    to: u32,
) -> Result<u32, NoMemory>
    requires { IsLaidOut s.program.now.aggregates }
    ensures { IfOk result (λ slot. slot ≡ parts.object_free how (homes.words (spot_of s.entry) (here.member_type s.entry.program.now ty.now path.now)) to) }
{
    let count = member_words(s, ty, path)?;
    object_free(how, count, to)
}

/// The same behind a pointer of a type.
pub fn free_behind_pointed(
    s: Spot<'_>,
    ty: &Ty,
    path: &[u32],
    how: Passed,
    to: u32,
) -> Result<u32, NoMemory>
    requires { IsLaidOut s.program.now.aggregates }
    ensures { IfOk result (λ slot. slot ≡ parts.object_free how (homes.words (spot_of s.entry) (here.member_type s.entry.program.now (here.pointee ty.now) path.now)) to) }
{
    let count = pointed_words(s, ty, path)?;
    object_free(how, count, to)
}

/// What is passed of a member of a place, which was found in slots from `free` on.
pub fn pass_place(
    code: &mut Code,
    s: Spot<'_>,
    x: &TPlace,
    path: &[u32],
    how: Passed,
    free: u32,
    to: u32,
) -> Result<(), NoMemory>
    requires { IsLaidOut s.program.now.aggregates }
    ensures { OnOk result (code.new ≡ code.old ++ parts.passes_at (spot_of s.entry) how (here.member_type s.entry.program.now (place_type x.now) path.now) (moving.moved_by (places.path_offset s.entry.program.now (place_type x.now) path.now) ((spec.placed (spot_of s.entry) x.now).at false free)) to) }
{
    let offset = path_bytes(s, x.ty(), path)?;
    let at = place_at(s, x, false, free)?;
    pass_member(code, s, x.ty(), path, how, moved_by(offset, at), to)
}

/// What is passed of a member behind a pointer.
pub fn pass_behind(
    code: &mut Code,
    s: Spot<'_>,
    e: &TExpr,
    path: &[u32],
    how: Passed,
    free: u32,
    to: u32,
) -> Result<(), NoMemory>
    requires { IsLaidOut s.program.now.aggregates }
    ensures { OnOk result (code.new ≡ code.old ++ parts.passes_at (spot_of s.entry) how (here.member_type s.entry.program.now (here.pointee (type_of e.now)) path.now) (moving.moved_by (places.path_offset s.entry.program.now (here.pointee (type_of e.now)) path.now) ((spec.coded (spot_of s.entry) e.now).leads false free)) to) }
{
    let offset = pointed_bytes(s, e.ty(), path)?;
    let at = leads(s, e, false, free)?;
    pass_pointed(code, s, e.ty(), path, how, moved_by(offset, at), to)
}
