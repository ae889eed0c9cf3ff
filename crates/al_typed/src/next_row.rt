//! The rows of a program's list of aggregates.
ghost use Rattle.std.specs.Prelude.{◌≡◌, ◌<◌, ◌^◌, ◌↔◌, [], map, max, length, IfSome, IsNone};
ghost use Rattle.al_typed.specs.Capped.{capped};
ghost use Rattle.al_typed.specs.Layout as spec;
ghost use Rattle.al_typed.specs.Layout.{IsLaidOut, Keeps, aggregate_layout, body_layout, layout, layouts_after, members_layout};

use crate::layout::{Room, in_order, nothing, room_of, rounded};
use crate::program::Aggregate;
use crate::ty::Ty;
use al_items::Items;

/// How far members over each other reach.
#[derive(Clone, Copy)]
struct Reach {
    size: u64,
    align: u32,
}

/// One member more.
fn widened(reach: Reach, room: Room) -> Reach
    ensures size { result.size ≡ max reach.size room.size }
    ensures align { result.align ≡ max reach.align room.align }
{
    Reach {
        size: reach.size.max(room.size),
        align: reach.align.max(room.align),
    }
}

/// The room of members that stand over each other. The number of units is right where the size is below 2^32.
fn over_each_other(aggregates: &[Aggregate], types: &[Ty]) -> Room
    requires { IsLaidOut aggregates.now }
    ensures size { result.size ≡ capped (spec.over_each_other (map (layout aggregates.now) types.now)).size }
    ensures align { result.align ≡ (spec.over_each_other (map (layout aggregates.now) types.now)).align }
    ensures units { result.size < 2 ^ 32 → result.units ≡ length (spec.over_each_other (map (layout aggregates.now) types.now)).units }
{
    let mut reach = Reach { size: 0, align: 1 };
    for ty in types {
        reach = widened(reach, room_of(aggregates, ty));
    }
    let size = rounded(reach.size, reach.align);
    Room {
        size,
        align: reach.align,
        units: size / reach.align as u64,
    }
}

/// The room of the members of an aggregate. The number of units is right where the size is below 2^32.
fn members_room(aggregates: &[Aggregate], is_union: bool, types: &[Ty]) -> Room
    requires { IsLaidOut aggregates.now }
    ensures size { result.size ≡ capped (members_layout is_union (map (layout aggregates.now) types.now)).size }
    ensures align { result.align ≡ (members_layout is_union (map (layout aggregates.now) types.now)).align }
    ensures units { result.size < 2 ^ 32 → result.units ≡ length (members_layout is_union (map (layout aggregates.now) types.now)).units }
{
    if is_union {
        over_each_other(aggregates, types)
    } else {
        in_order(aggregates, types)
    }
}

/// The room of an aggregate. The number of units is right where the size is below 2^32.
#[tactic(auto, unfolding(crate::specs::Layout::layout))]
fn body_room(aggregates: &[Aggregate], is_union: bool, members: &Option<Items<Ty>>) -> Room
    requires { IsLaidOut aggregates.now }
    ensures size { result.size ≡ capped (body_layout (layouts_after [] aggregates.now) is_union members.now).size }
    ensures align { result.align ≡ (body_layout (layouts_after [] aggregates.now) is_union members.now).align }
    ensures units { result.size < 2 ^ 32 → result.units ≡ length (body_layout (layouts_after [] aggregates.now) is_union members.now).units }
{
    match members {
        None => nothing(),
        Some(types) => members_room(aggregates, is_union, types.as_slice()),
    }
}

impl Aggregate {
    /// The row that comes behind these, with its size, its alignment and its number of units. None where it is larger than
    /// a type may be, 2^28 bytes.
    #[tactic(auto, unfolding(crate::specs::Layout::aggregate_layout))]
    pub fn laid_out(
        aggregates: &[Aggregate],
        is_union: bool,
        members: Option<Items<Ty>>,
    ) -> Option<Aggregate>
        requires { IsLaidOut aggregates.now }
        ensures is_union { IfSome result (λ a. a.is_union ≡ is_union) }
        ensures members { IfSome result (λ a. a.members ≡ members) }
        ensures keeps { IfSome result (λ a. Keeps a (aggregate_layout (layouts_after [] aggregates.now) a)) }
        ensures none { IsNone result ↔ (2 ^ 28 < (body_layout (layouts_after [] aggregates.now) is_union members).size) }
    {
        let room = body_room(aggregates, is_union, &members);
        if room.size > 1 << 28 {
            return None;
        }
        Some(Aggregate {
            is_union,
            members,
            size: room.size as u32,
            align: room.align,
            units: room.units as u32,
        })
    }
}
