ghost use Rattle.std.specs.Prelude.{◌≡◌, ◌≤◌, ◌^◌};
ghost use Rattle.al_typed.specs.Layout.{IsLaidOut, size_of};

use crate::layout::room_of;
use crate::program::Program;
use crate::ty::Ty;

/// The size of the values of a type, in bytes.
pub fn size(p: &Program, ty: &Ty) -> u32
    requires laid_out { IsLaidOut p.now.aggregates }
    requires small { size_of p.now.aggregates ty.now ≤ 2 ^ 28 }
    ensures { result ≡ size_of p.now.aggregates ty.now }
{
    room_of(p.aggregates.as_slice(), ty).size as u32
}
