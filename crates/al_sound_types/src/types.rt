//! Types and lists of types.
ghost use Rattle.std.specs.Prelude.{◌≡◌};
ghost use Rattle.std.specs.List.{list_all};
ghost use Rattle.al_typed.specs.Layout.{IsLaidOut};
ghost use Rattle.al_typed.specs.Types as types;
ghost use Rattle.al_typed.specs.WellTyped as well;
ghost use Rattle.al_sound_types.specs.Types as spec;

use al_convert::{is_array, is_void};
use al_typed::{Aggregate, Local, Ty, is_complete, room_of};

#[tactic(auto, using(crate::proofs::SoundIs::small_size))]
fn is_small(rows: &[Aggregate], ty: &Ty) -> bool
    requires { IsLaidOut rows.now }
    ensures { result ≡ well.is_small rows.now ty.now }
{
    room_of(rows, ty).size <= 268_435_456
}

fn is_whole(rows: &[Aggregate], ty: &Ty) -> bool
    ensures { result ≡ types.is_whole rows.now ty.now }
{
    is_complete(rows, ty) && !is_array(ty)
}

/// What a function may return.
#[tactic(auto, unfolding(crate::specs::Types::is_returned))]
fn is_returned(rows: &[Aggregate], ty: &Ty) -> bool
    ensures { result ≡ spec.is_returned rows.now ty.now }
{
    is_void(ty) || is_whole(rows, ty)
}

/// Whether a type is one that the rules leave, also behind pointers: an array has 1 to 2^28 elements of a complete type, a
/// channel has a capacity of at most 4,096, each type with members is there, and no type is larger than 2^28 bytes.
#[cycle(sound)]
#[tactic(auto, using(crate::proofs::SoundIs::is_sound_is))]
pub fn is_sound(rows: &[Aggregate], ty: &Ty) -> bool
    requires { IsLaidOut rows.now }
    ensures { result ≡ well.is_sound rows.now ty.now }
{
    match ty {
        Ty::Void | Ty::Integer(_) => true,
        Ty::Pointer(to) => is_sound(rows, to.get()),
        Ty::Array { element, count } => {
            is_sound(rows, element.get())
                && is_complete(rows, element.get())
                && 1 <= *count
                && is_small(rows, ty)
        }
        Ty::Chan { element, capacity } => {
            is_sound(rows, element.get()) && is_whole(rows, element.get()) && *capacity <= 4096
        }
        Ty::Tuple(parts) => are_parts(rows, parts.as_slice()) && is_small(rows, ty),
        Ty::Aggregate(number) => (*number as usize) < rows.len() && is_small(rows, ty),
        Ty::Function {
            returns,
            parameters,
        } => {
            if !is_sound(rows, returns.get()) {
                return false;
            }
            is_returned(rows, returns.get()) && are_parts(rows, parameters.as_slice())
        }
    }
}

/// Whether each of these may be a part of a tuple or a parameter: it is sound, complete and no array.
#[cycle(sound)]
pub(crate) fn are_parts(rows: &[Aggregate], tys: &[Ty]) -> bool
    requires { IsLaidOut rows.now }
    ensures { result ≡ list_all (spec.is_part rows.now) tys.now }
{
    for ty in tys {
        if !is_sound(rows, ty) || !is_whole(rows, ty) {
            return false;
        }
    }
    true
}

/// Whether a function may have these types.
pub(crate) fn is_signature(rows: &[Aggregate], returns: &Ty, parameters: &[Ty]) -> bool
    requires { IsLaidOut rows.now }
    ensures { result ≡ spec.is_signature rows.now returns.now parameters.now }
{
    is_sound(rows, returns) && is_returned(rows, returns) && are_parts(rows, parameters)
}

/// Whether a variable may have that type: it is sound and complete.
pub fn is_stored(rows: &[Aggregate], ty: &Ty) -> bool
    requires { IsLaidOut rows.now }
    ensures { result ≡ well.is_stored rows.now ty.now }
{
    is_sound(rows, ty) && is_complete(rows, ty)
}

/// Whether each of these is sound.
pub fn are_sound(rows: &[Aggregate], tys: &[Ty]) -> bool
    requires { IsLaidOut rows.now }
    ensures { result ≡ list_all (well.is_sound rows.now) tys.now }
{
    tys.iter().all(|ty| is_sound(rows, ty))
}

pub(crate) fn are_stored(rows: &[Aggregate], tys: &[Ty]) -> bool
    requires { IsLaidOut rows.now }
    ensures { result ≡ list_all (well.is_stored rows.now) tys.now }
{
    tys.iter().all(|ty| is_stored(rows, ty))
}

fn are_stored_locals(rows: &[Aggregate], locals: &[Local]) -> bool
    requires { IsLaidOut rows.now }
    ensures { result ≡ list_all (spec.is_local rows.now) locals.now }
{
    locals.iter().all(|local| is_stored(rows, &local.ty))
}

/// Whether a function may have these locals and write these types.
pub fn types_hold(rows: &[Aggregate], locals: &[Local], written: &[Ty]) -> bool
    requires { IsLaidOut rows.now }
    ensures { result ≡ spec.types_hold rows.now locals.now written.now }
{
    are_stored_locals(rows, locals) && are_sound(rows, written)
}
