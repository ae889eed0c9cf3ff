//! Values of places: so many bytes behind an address that a slot has, in slots, or in words of private globals.
ghost use Rattle.std.specs.Prelude.{◌≡◌, ◌+◌, ◌++◌, IfOk, OnOk};
ghost use Rattle.al_typed.specs.Layout.{IsLaidOut};
ghost use Rattle.al_lower_code.specs.Moving as spec;
ghost use Rattle.al_lower_base.specs.Spots.{spot_of, where_of};

use crate::code::{Code, gets, loads, moves, push, puts, puts_same, stores, stores_same, zeros};
use crate::spot::{Spot, layout_number, units_of, words};
use al_base::NoMemory;
use al_ir::Op;
use al_typed::Ty;

/// Where a place is.
#[derive(Clone, Copy)]
pub enum Where {
    /// So many bytes behind the address in a slot.
    Stored { slot: u32, offset: u32 },
    /// In slots from this one on.
    Slotted(u32),
    /// In words of private globals from this one on.
    Kept(u32),
}

/// A place so many bytes further on.
pub fn moved_by(bytes: u32, at: Where) -> Where
    ensures { where_of result ≡ spec.moved_by bytes (where_of at) }
{
    match at {
        Where::Stored { slot, offset } => Where::Stored {
            slot,
            offset: offset.wrapping_add(bytes),
        },
        Where::Slotted(home) => Where::Slotted(home),
        Where::Kept(place) => Where::Kept(place),
    }
}

/// The slots that it stands in, if it does.
pub fn home_of(at: Where) -> Option<u32>
    ensures { result ≡ spec.home_of (where_of at) }
{
    match at {
        Where::Slotted(home) => Some(home),
        Where::Stored { .. } | Where::Kept(_) => None,
    }
}

/// Its address as a word.
pub fn address(code: &mut Code, s: Spot<'_>, at: Where, to: u32) -> Result<(), NoMemory>
    ensures { OnOk result (code.new ≡ code.old ++ spec.address_code (spot_of s.entry) (where_of at) to) }
{
    match at {
        Where::Stored { slot, offset } => push(
            code,
            s.line,
            Op::Offset {
                to,
                from: slot,
                bytes: offset,
            },
        ),
        Where::Slotted(_) | Where::Kept(_) => Ok(()),
    }
}

/// Its address without an offset, in the slot that `settled` names.
pub fn settle(code: &mut Code, s: Spot<'_>, at: Where, to: u32) -> Result<(), NoMemory>
    ensures { OnOk result (code.new ≡ code.old ++ spec.settles (spot_of s.entry) (where_of at) to) }
{
    match at {
        Where::Stored { slot, offset } => {
            if offset == 0 {
                return Ok(());
            }
            push(
                code,
                s.line,
                Op::Offset {
                    to,
                    from: slot,
                    bytes: offset,
                },
            )
        }
        Where::Slotted(_) | Where::Kept(_) => Ok(()),
    }
}

/// The slot of an address that is settled.
pub fn settled(at: Where, to: u32) -> u32
    ensures { result ≡ spec.settled (where_of at) to }
{
    match at {
        Where::Stored { slot, offset } => { if offset == 0 { slot } else { to } }
        Where::Slotted(_) | Where::Kept(_) => to,
    }
}

/// The value in shared storage, into slots.
fn load(
    code: &mut Code,
    s: Spot<'_>,
    ty: &Ty,
    to: u32,
    slot: u32,
    offset: u32,
) -> Result<(), NoMemory>
    requires { IsLaidOut s.program.now.aggregates }
    ensures { OnOk result (code.new ≡ code.old ++ spec.load_by (spot_of s.entry) (spec.layout_number (spot_of s.entry) ty.now) ty.now to slot offset) }
{
    match layout_number(s, ty) {
        Some(layout) => push(
            code,
            s.line,
            Op::LoadUnits {
                to,
                at: slot,
                offset,
                layout,
            },
        ),
        None => {
            let units = units_of(s, ty)?;
            loads(code, s.line, to, slot, offset, &units)
        }
    }
}

/// Slots into shared storage.
fn store(
    code: &mut Code,
    s: Spot<'_>,
    ty: &Ty,
    slot: u32,
    offset: u32,
    from: u32,
) -> Result<(), NoMemory>
    requires { IsLaidOut s.program.now.aggregates }
    ensures { OnOk result (code.new ≡ code.old ++ spec.store_by (spot_of s.entry) (spec.layout_number (spot_of s.entry) ty.now) ty.now slot offset from) }
{
    match layout_number(s, ty) {
        Some(layout) => push(
            code,
            s.line,
            Op::StoreUnits {
                at: slot,
                offset,
                layout,
                from,
            },
        ),
        None => {
            let units = units_of(s, ty)?;
            stores(code, s.line, slot, offset, from, &units)
        }
    }
}

/// Zero into shared storage; one slot serves it.
fn clear_stored(
    code: &mut Code,
    s: Spot<'_>,
    ty: &Ty,
    slot: u32,
    offset: u32,
    free: u32,
) -> Result<(), NoMemory>
    requires { IsLaidOut s.program.now.aggregates }
    ensures { OnOk result (code.new ≡ code.old ++ spec.clear_by (spot_of s.entry) (spec.layout_number (spot_of s.entry) ty.now) ty.now slot offset free) }
{
    match layout_number(s, ty) {
        Some(layout) => push(
            code,
            s.line,
            Op::ClearUnits {
                at: slot,
                offset,
                layout,
            },
        ),
        None => {
            let units = units_of(s, ty)?;
            push(code, s.line, Op::Constant { to: free, word: 0 })?;
            stores_same(code, s.line, slot, offset, free, &units)
        }
    }
}

/// The value of a place, into slots.
pub fn read(code: &mut Code, s: Spot<'_>, ty: &Ty, at: Where, to: u32) -> Result<(), NoMemory>
    requires { IsLaidOut s.program.now.aggregates }
    ensures { OnOk result (code.new ≡ code.old ++ spec.read_code (spot_of s.entry) ty.now (where_of at) to) }
{
    match at {
        Where::Stored { slot, offset } => load(code, s, ty, to, slot, offset),
        Where::Slotted(home) => moves(code, s.line, to, home, words(s, ty)?),
        Where::Kept(place) => gets(code, s.line, to, place, words(s, ty)?),
    }
}

/// Slots into a place.
pub fn save(code: &mut Code, s: Spot<'_>, ty: &Ty, at: Where, from: u32) -> Result<(), NoMemory>
    requires { IsLaidOut s.program.now.aggregates }
    ensures { OnOk result (code.new ≡ code.old ++ spec.save_code (spot_of s.entry) ty.now (where_of at) from) }
{
    match at {
        Where::Stored { slot, offset } => store(code, s, ty, slot, offset, from),
        Where::Slotted(home) => moves(code, s.line, home, from, words(s, ty)?),
        Where::Kept(place) => puts(code, s.line, place, from, words(s, ty)?),
    }
}

/// Zero into a place; one slot from `free` on serves it.
pub fn clear(code: &mut Code, s: Spot<'_>, ty: &Ty, at: Where, free: u32) -> Result<(), NoMemory>
    requires { IsLaidOut s.program.now.aggregates }
    ensures { OnOk result (code.new ≡ code.old ++ spec.clear_code (spot_of s.entry) ty.now (where_of at) free) }
{
    match at {
        Where::Stored { slot, offset } => clear_stored(code, s, ty, slot, offset, free),
        Where::Slotted(home) => zeros(code, s.line, home, words(s, ty)?),
        Where::Kept(place) => {
            push(code, s.line, Op::Constant { to: free, word: 0 })?;
            puts_same(code, s.line, place, free, words(s, ty)?)
        }
    }
}
