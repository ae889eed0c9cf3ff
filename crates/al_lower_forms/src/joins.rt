//! What is done with two values that were found.
ghost use Rattle.std.specs.Prelude.{◌≡◌, ◌++◌, IfOk, OnOk};
ghost use Rattle.al_typed.specs.Layout.{IsLaidOut};
ghost use Rattle.al_ir.specs.declared.op.Op.TheVariants as op;
ghost use Rattle.al_meaning.specs.Here as here;
ghost use Rattle.al_lower_code.specs.Homes as homes;
ghost use Rattle.al_lower_forms.specs.Joins as spec;
ghost use Rattle.al_lower_base.specs.Spots.{spot_of};

use al_base::{Kind, NoMemory};
use al_ir::Op;
use al_lower_base::{Code, Spot, operator, push, skip_unless, words};
use al_lower_parts::{pointee_bytes, send};
use al_typed::{BinaryOp, Ty};

/// What is done with two values.
#[derive(Clone, Copy)]
pub enum Join {
    /// An operator on them.
    Operator {
        op: BinaryOp,
        kind: Kind,
    },
    /// So many operations behind these are left out where a comparison of them does not hold.
    SkipUnless {
        op: BinaryOp,
        kind: Kind,
        count: u32,
    },
    /// A pointer, and by how many elements of so many bytes it moves.
    Advance {
        back: bool,
        size: u32,
    },
    /// The same forward, where the count comes first.
    AdvanceCounted {
        size: u32,
    },
    /// How many elements there are between two pointers.
    Between,
    /// A channel, and what is sent.
    Send,
}

/// How many words the first value takes, which is of a type.
pub fn first_words(s: Spot<'_>, ty: &Ty, how: Join) -> Result<u32, NoMemory>
    requires { IsLaidOut s.program.now.aggregates }
    ensures { IfOk result (λ n. n ≡ spec.first_words (spot_of s.entry) ty.now how) }
{
    match how {
        Join::Operator { .. } | Join::SkipUnless { .. } => words(s, ty),
        Join::Advance { .. } | Join::AdvanceCounted { .. } | Join::Between | Join::Send => Ok(1),
    }
}

/// How many elements there are between pointers of a type.
fn between(
    code: &mut Code,
    s: Spot<'_>,
    ty: &Ty,
    left: u32,
    right: u32,
    dest: u32,
) -> Result<(), NoMemory>
    requires { IsLaidOut s.program.now.aggregates }
    ensures { OnOk result (code.new ≡ code.old ++ homes.here (spot_of s.entry) (op.Between (homes.size (spot_of s.entry) (here.pointee ty.now)) dest left right)) }
{
    let size = pointee_bytes(s, ty)?;
    push(
        code,
        s.line,
        Op::Between {
            size,
            to: dest,
            left,
            right,
        },
    )
}

/// A pointer so many elements further on, or back.
pub fn advance(
    code: &mut Code,
    s: Spot<'_>,
    back: bool,
    size: u32,
    to: u32,
    pointer: u32,
    count: u32,
) -> Result<(), NoMemory>
    ensures { OnOk result (code.new ≡ code.old ++ homes.here (spot_of s.entry) (op.Advance back size to pointer count)) }
{
    push(
        code,
        s.line,
        Op::Advance {
            back,
            size,
            to,
            pointer,
            count,
        },
    )
}

/// Two values of types, which stand from `left` and `right` on, are joined. What comes of them stands from `dest` on; slots from
/// `to` on held what was found.
pub fn join_values(
    code: &mut Code,
    s: Spot<'_>,
    first: &Ty,
    second: &Ty,
    how: Join,
    left: u32,
    right: u32,
    dest: u32,
    to: u32,
) -> Result<(), NoMemory>
    requires { IsLaidOut s.program.now.aggregates }
    ensures { OnOk result (code.new ≡ code.old ++ spec.join_code (spot_of s.entry) first.now second.now how left right dest to) }
{
    match how {
        Join::Operator { op, kind } => { push(code, s.line, operator(op, kind, dest, left, right)) }
        Join::SkipUnless { op, kind, count } => skip_unless(code, s, op, kind, left, right, count),
        Join::Advance { back, size } => advance(code, s, back, size, dest, left, right),
        Join::AdvanceCounted { size } => advance(code, s, false, size, dest, right, left),
        Join::Between => between(code, s, first, left, right, dest),
        Join::Send => send(code, s, second, left, right, to),
    }
}
