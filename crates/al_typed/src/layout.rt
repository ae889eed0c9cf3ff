//! Sizes, alignments and numbers of units of types.
ghost use Rattle.std.specs.Prelude.{◌≡◌, ◌≤◌, ◌<◌, ◌+◌, ◌^◌, max, map, length, slice_get};
ghost use Rattle.std.specs.Option.{option_copied};
ghost use Rattle.al_typed.specs.Capped.{capped};
ghost use Rattle.al_typed.specs.Layout as spec;
ghost use Rattle.al_typed.specs.Layout.{Measured, RunsTo, IsLaidOut, layout, words_of};
ghost use Rattle.al_typed.specs.Types.{bytes_of};
ghost use Rattle.al_typed.specs.declared.ty.Ty.TheVariants as variant;

use crate::program::Aggregate;
use crate::ty::Ty;
use al_base::Kind;

/// A part of a value that one access moves, where it stands in the value and how many bytes it has: 1, 2 or 4.
#[derive(Clone, Copy, Debug, PartialEq, Eq)]
pub struct Unit {
    pub at: u32,
    pub size: u8,
}

/// How much room the values of a type take. A size or a number of units that is greater than 2^64 - 1 counts as that.
#[derive(Clone, Copy)]
pub struct Room {
    /// In bytes.
    pub size: u64,
    pub align: u32,
    pub units: u64,
}

/// The next multiple of an alignment.
#[tactic(auto, unfolding(crate::specs::Layout::rounded))]
pub fn rounded(at: u64, align: u32) -> u64
    requires { 1 ≤ align }
    ensures { result ≡ capped (spec.rounded at align) }
{
    at.div_ceil(align as u64).saturating_mul(align as u64)
}

/// Members of a tuple, an aggr or an adt, as far as they were placed.
#[derive(Clone, Copy)]
struct PlacedSoFar {
    at: u64,
    align: u32,
    units: u64,
}

/// One member more.
fn followed(run: PlacedSoFar, room: Room) -> PlacedSoFar
    requires { 1 ≤ room.align }
    ensures at { result.at ≡ capped (capped (spec.rounded run.at room.align) + room.size) }
    ensures align { result.align ≡ max run.align room.align }
    ensures units { result.units ≡ capped (run.units + room.units) }
{
    PlacedSoFar {
        at: rounded(run.at, room.align).saturating_add(room.size),
        align: run.align.max(room.align),
        units: run.units.saturating_add(room.units),
    }
}

/// The room of a type without values.
pub fn nothing() -> Room
    ensures { Measured result spec.nothing }
{
    Room {
        size: 0,
        align: 1,
        units: 0,
    }
}

/// The room of a pointer or a channel.
fn word() -> Room
    ensures { Measured result (spec.single 4) }
{
    Room {
        size: 4,
        align: 4,
        units: 1,
    }
}

/// The room of an integer.
fn integer(kind: Kind) -> Room
    ensures value { Measured result (spec.of_bytes (bytes_of kind)) }
    ensures align { 1 ≤ result.align }
{
    match kind {
        Kind::Byte => Room {
            size: 1,
            align: 1,
            units: 1,
        },
        Kind::Sint | Kind::Usint => Room {
            size: 2,
            align: 2,
            units: 1,
        },
        Kind::Int | Kind::Uint => word(),
        Kind::Lint | Kind::Ulint => Room {
            size: 8,
            align: 4,
            units: 2,
        },
    }
}

/// The room of so many elements.
fn repeated(count: u32, element: Room) -> Room
    ensures value { (l : spec.Layout) → Measured element l → Measured result (spec.repeated count l) }
    ensures align { result.align ≡ element.align }
{
    Room {
        size: (count as u64).saturating_mul(element.size),
        align: element.align,
        units: (count as u64).saturating_mul(element.units),
    }
}

/// The room that an aggregate keeps.
fn kept(aggregate: &Aggregate) -> Room
    ensures size { result.size ≡ aggregate.now.size }
    ensures align { result.align ≡ aggregate.now.align }
    ensures units { result.units ≡ aggregate.now.units }
    ensures bounds { (result.size < 2 ^ 32) × (result.units < 2 ^ 32) }
{
    Room {
        size: aggregate.size as u64,
        align: aggregate.align,
        units: aggregate.units as u64,
    }
}

/// The aggregate of that number.
pub fn row(aggregates: &[Aggregate], number: u32) -> Option<&Aggregate>
    ensures { option_copied result ≡ slice_get aggregates.now number }
{
    aggregates.get(number as usize)
}

/// The room of the aggregate of that number.
fn numbered(aggregates: &[Aggregate], number: u32) -> Room
    requires { IsLaidOut aggregates.now }
    ensures value { Measured result (layout aggregates.now (variant.Aggregate number)) }
    ensures align { 1 ≤ result.align }
{
    match row(aggregates, number) {
        None => nothing(),
        Some(aggregate) => kept(aggregate),
    }
}

/// The room of members that stand one after another.
#[cycle(rooms)]
pub fn in_order(aggregates: &[Aggregate], types: &[Ty]) -> Room
    requires { IsLaidOut aggregates.now }
    ensures value { Measured result (spec.in_order (map (layout aggregates.now) types.now)) }
    ensures align { 1 ≤ result.align }
{
    if types.is_empty() {
        return Room {
            size: 1,
            align: 1,
            units: 0,
        };
    }
    let mut run = PlacedSoFar {
        at: 0,
        align: 1,
        units: 0,
    };
    for ty in types {
        run = followed(run, room_of(aggregates, ty));
    }
    Room {
        size: rounded(run.at, run.align),
        align: run.align,
        units: run.units,
    }
}

/// The room that the values of a type take.
#[cycle(rooms)]
#[tactic(auto, using(crate::proofs::Layouts::layout_is))]
pub fn room_of(aggregates: &[Aggregate], ty: &Ty) -> Room
    requires { IsLaidOut aggregates.now }
    ensures value { Measured result (layout aggregates.now ty.now) }
    ensures align { 1 ≤ result.align }
{
    match ty {
        Ty::Void | Ty::Function { .. } => nothing(),
        Ty::Integer(kind) => integer(*kind),
        Ty::Pointer(_) | Ty::Chan { .. } => word(),
        Ty::Array { element, count } => repeated(*count, room_of(aggregates, element.get())),
        Ty::Tuple(parts) => in_order(aggregates, parts.as_slice()),
        Ty::Aggregate(number) => numbered(aggregates, *number),
    }
}
