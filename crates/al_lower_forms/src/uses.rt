//! What is done at once with a value that was found.
ghost use Rattle.std.specs.Prelude.{◌≡◌, ◌++◌, OnOk};
ghost use Rattle.al_typed.specs.Layout.{IsLaidOut};
ghost use Rattle.al_lower_forms.specs.Uses as spec;
ghost use Rattle.al_lower_base.specs.Spots.{spot_of};

use crate::pieces::offset;
use al_base::{Kind, NoMemory};
use al_ir::Op;
use al_lower_base::{
    Code, Spot, convert, negation, operator_by, push, skip_if_set, skip_if_zero, slot_behind,
    truth, words,
};
use al_lower_parts::{less, receive};
use al_typed::{BinaryOp, Ty};
use al_variables::kind_of;

/// What is done with a value of a type.
#[derive(Clone, Copy)]
pub enum Use<'a> {
    /// 1 where it is 0, else 0.
    Negate,
    /// 0 or 1 for it.
    Truth,
    /// So many operations behind these are left out where it is 0.
    SkipIfZero { count: u32 },
    /// The same where it is not.
    SkipIfSet { count: u32 },
    /// A constant of a type, less the value.
    Less { ty: &'a Ty, bits: u64 },
    /// Each bit the other way round.
    Complement,
    /// It as a value of another type, apart from its slots.
    Convert(&'a Ty),
    /// An operator whose right side is this word.
    By { op: BinaryOp, kind: Kind, word: u32 },
    /// An address so many elements of so many bytes further on, or back.
    Offset { back: bool, size: u32, count: u64 },
    /// It is the status at the end of the program.
    Terminate,
    /// A value of a type from this channel.
    Receive(&'a Ty),
    /// Whether this channel has something to receive.
    CanReceive,
    /// Whether this channel has room for what is sent.
    CanSend,
}

/// A value of a type, which stands from `slot` on, is used. What comes of it stands from `dest` on; slots from `to` on are free.
pub fn use_value(
    code: &mut Code,
    s: Spot<'_>,
    ty: &Ty,
    how: Use<'_>,
    slot: u32,
    dest: u32,
    to: u32,
) -> Result<(), NoMemory>
    requires { IsLaidOut s.program.now.aggregates }
    ensures { OnOk result (code.new ≡ code.old ++ spec.use_code (spot_of s.entry) ty.now how.entry slot dest to) }
{
    match how {
        Use::Negate => negation(code, s, words(s, ty)?, dest, slot, to),
        Use::Truth => truth(code, s, words(s, ty)?, dest, slot),
        Use::SkipIfZero { count } => skip_if_zero(code, s, words(s, ty)?, slot, to, count),
        Use::SkipIfSet { count } => skip_if_set(code, s, words(s, ty)?, slot, to, count),
        Use::Less { ty, bits } => {
            let free = slot_behind(to, words(s, ty)?)?;
            less(code, s, kind_of(ty), bits, dest, free, slot)
        }
        Use::Complement => push(
            code,
            s.line,
            Op::Complement {
                to: dest,
                from: slot,
            },
        ),
        Use::Convert(into) => convert(code, s, ty, into, dest, slot),
        Use::By { op, kind, word } => {
            push(code, s.line, operator_by(op, kind, dest, slot, word))
        }
        Use::Offset { back, size, count } => offset(code, s, back, size, count, dest, slot),
        Use::Terminate => push(code, s.line, Op::Terminate { status: slot }),
        Use::Receive(ty) => receive(code, s, ty, slot, dest, to),
        Use::CanReceive => push(
            code,
            s.line,
            Op::CanRecv {
                to: dest,
                chan: slot,
            },
        ),
        Use::CanSend => push(
            code,
            s.line,
            Op::CanSend {
                to: dest,
                chan: slot,
            },
        ),
    }
}
