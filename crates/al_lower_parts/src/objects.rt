//! What the object before a function's name gives it.
ghost use Rattle.std.specs.Prelude.{◌≡◌, ◌++◌, IfOk, OnOk};
ghost use Rattle.al_typed.specs.Layout.{IsLaidOut};
ghost use Rattle.al_meaning.specs.Here as here;
ghost use Rattle.al_lower_parts.specs.Parts as parts;
ghost use Rattle.al_lower_base.specs.Spots.{spot_of, where_of};

use al_base::NoMemory;
use al_control_values::member_at;
use al_items::Boxed;
use al_lower_base::{Code, Spot, Where, address, read, slot_behind};
use al_typed::{Passed, Ty};

/// The slots that are free behind what an object of so many words gives.
pub fn object_free(how: Passed, words: u32, to: u32) -> Result<u32, NoMemory>
    ensures { IfOk result (λ slot. slot ≡ parts.object_free how words to) }
{
    match how {
        Passed::Value => slot_behind(to, words),
        Passed::Address | Passed::Nothing => Ok(to),
    }
}

/// The address of what is at a place, its value, or nothing.
fn pass(
    code: &mut Code,
    s: Spot<'_>,
    ty: &Ty,
    how: Passed,
    at: Where,
    to: u32,
) -> Result<(), NoMemory>
    requires { IsLaidOut s.program.now.aggregates }
    ensures { OnOk result (code.new ≡ code.old ++ parts.passes_at (spot_of s.entry) how ty.now (where_of at) to) }
{
    match how {
        Passed::Address => address(code, s, at, to),
        Passed::Value => read(code, s, ty, at, to),
        Passed::Nothing => Ok(()),
    }
}

/// The same for the member of a type that a path leads to.
pub fn pass_member(
    code: &mut Code,
    s: Spot<'_>,
    ty: &Ty,
    path: &[u32],
    how: Passed,
    at: Where,
    to: u32,
) -> Result<(), NoMemory>
    requires { IsLaidOut s.program.now.aggregates }
    ensures { OnOk result (code.new ≡ code.old ++ parts.passes_at (spot_of s.entry) how (here.member_type s.entry.program.now ty.now path.now) (where_of at) to) }
{
    match member_at(s.program.aggregates.as_slice(), ty, path) {
        None => pass(code, s, &Ty::Void, how, at, to),
        Some(reached) => pass(code, s, reached.ty, how, at, to),
    }
}

/// The same of a type in a box.
fn pass_boxed(
    code: &mut Code,
    s: Spot<'_>,
    ty: &Boxed<Ty>,
    path: &[u32],
    how: Passed,
    at: Where,
    to: u32,
) -> Result<(), NoMemory>
    requires { IsLaidOut s.program.now.aggregates }
    ensures { OnOk result (code.new ≡ code.old ++ parts.passes_at (spot_of s.entry) how (here.member_type s.entry.program.now ty.now path.now) (where_of at) to) }
{
    pass_member(code, s, ty.get(), path, how, at, to)
}

/// The same behind a pointer.
#[tactic(auto, unfolding(al_meaning::specs::Here::pointee))]
pub fn pass_pointed(
    code: &mut Code,
    s: Spot<'_>,
    ty: &Ty,
    path: &[u32],
    how: Passed,
    at: Where,
    to: u32,
) -> Result<(), NoMemory>
    requires { IsLaidOut s.program.now.aggregates }
    ensures { OnOk result (code.new ≡ code.old ++ parts.passes_at (spot_of s.entry) how (here.member_type s.entry.program.now (here.pointee ty.now) path.now) (where_of at) to) }
{
    match ty {
        Ty::Pointer(of) => pass_boxed(code, s, of, path, how, at, to),
        Ty::Void
        | Ty::Integer(_)
        | Ty::Array { .. }
        | Ty::Chan { .. }
        | Ty::Tuple(_)
        | Ty::Aggregate(_)
        | Ty::Function { .. } => pass_member(code, s, &Ty::Void, path, how, at, to),
    }
}
