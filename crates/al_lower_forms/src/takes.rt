//! What is taken of a value that stands apart as a whole.
ghost use Rattle.std.specs.Prelude.{◌≡◌, ◌++◌, IfOk, OnOk};
ghost use Rattle.al_typed.specs.Layout.{IsLaidOut};
ghost use Rattle.al_lower_forms.specs.Takes as spec;
ghost use Rattle.al_lower_base.specs.Spots.{spot_of};

use al_base::NoMemory;
use al_lower_base::{Code, Spot, convert, slot_behind, words};
use al_lower_parts::{member_words, take_member};
use al_typed::Ty;

/// What is taken of a value of a type.
#[derive(Clone, Copy)]
pub enum Take<'a> {
    /// A member of a type.
    Member { ty: &'a Ty, path: &'a [u32] },
    /// The member that there is.
    Object(&'a [u32]),
    /// All of it, as a value of another type.
    Converted(&'a Ty),
}

/// Where the whole value comes to stand: behind the slots of what is taken.
pub fn whole_at(s: Spot<'_>, ty: &Ty, what: Take<'_>, to: u32) -> Result<u32, NoMemory>
    requires { IsLaidOut s.program.now.aggregates }
    ensures { IfOk result (λ slot. slot ≡ spec.whole_at (spot_of s.entry) ty.now what.entry to) }
{
    match what {
        Take::Member { ty: part, .. } => slot_behind(to, words(s, part)?),
        Take::Object(path) => slot_behind(to, member_words(s, ty, path)?),
        Take::Converted(into) => slot_behind(to, words(s, into)?),
    }
}

/// What is taken of a value of a type, which stands from `from` on.
pub fn take_part(
    code: &mut Code,
    s: Spot<'_>,
    ty: &Ty,
    what: Take<'_>,
    dest: u32,
    from: u32,
) -> Result<(), NoMemory>
    requires { IsLaidOut s.program.now.aggregates }
    ensures { OnOk result (code.new ≡ code.old ++ spec.take_code (spot_of s.entry) ty.now what.entry dest from) }
{
    match what {
        Take::Member { path, .. } => take_member(code, s, ty, path, dest, from),
        Take::Object(path) => take_member(code, s, ty, path, dest, from),
        Take::Converted(into) => convert(code, s, ty, into, dest, from),
    }
}
