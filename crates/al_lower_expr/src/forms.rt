//! Values and places that are found and used, and values that are put together of others.
ghost use Rattle.std.specs.Prelude.{◌≡◌, ◌+◌, ◌++◌, OnOk};
ghost use Rattle.al_typed.specs.Layout.{IsLaidOut};
ghost use Rattle.al_typed.specs.Typed.{type_of, place_type};
ghost use Rattle.al_lower_code.specs.Coded.{operand_code, operand_slot};
ghost use Rattle.al_lower_code.specs.Homes as homes;
ghost use Rattle.al_lower_code.specs.Expressions as spec;
ghost use Rattle.al_lower_code.specs.Values as values;
ghost use Rattle.al_lower_forms.specs.Finds as finds;
ghost use Rattle.al_lower_forms.specs.Joins as joins;
ghost use Rattle.al_lower_forms.specs.Takes as takes;
ghost use Rattle.al_lower_forms.specs.Uses as uses;
ghost use Rattle.al_lower_operands.specs.Rows as rows;
ghost use Rattle.al_lower_expr.specs.Computed as computed;
ghost use Rattle.al_lower_base.specs.Spots.{spot_of};

use crate::expr::{effect, first, operand, place, pointer, row_effects, row_values, value};
use al_base::NoMemory;
use al_lower_base::{Code, Spot, bytes, moves, slot_behind, words};
use al_lower_forms::{
    Find, Join, Take, Use, advance, base_slot, first_words, free_for, is_back, is_integer,
    join_values, take_part, use_place, use_value, whole_at,
};
use al_lower_operands::{keeps, known};
use al_lower_parts::pointee_bytes;
use al_typed::{Movement, TExpr, TPlace, Ty};

/// A value is found, and used at once.
#[cycle(expr)]
pub fn used(
    code: &mut Code,
    s: Spot<'_>,
    e: &TExpr,
    how: Use<'_>,
    dest: u32,
    to: u32,
) -> Result<(), NoMemory>
    requires { IsLaidOut s.program.now.aggregates }
    ensures { OnOk result (code.new ≡ code.old ++ (operand_code (spec.coded (spot_of s.entry) e.now) to ++ uses.use_code (spot_of s.entry) (type_of e.now) how.entry (operand_slot (spec.coded (spot_of s.entry) e.now) to) dest to)) }
{
    let slot = operand(code, s, e, to)?;
    use_value(code, s, e.ty(), how, slot, dest, to)
}

/// Two values are found, and joined.
#[cycle(expr)]
pub fn joined(
    code: &mut Code,
    s: Spot<'_>,
    left: &TExpr,
    right: &TExpr,
    how: Join,
    dest: u32,
    to: u32,
) -> Result<(), NoMemory>
    requires { IsLaidOut s.program.now.aggregates }
    ensures { OnOk result (code.new ≡ code.old ++ joins.joined_code (spot_of s.entry) (type_of left.now) (type_of right.now) how (spec.coded (spot_of s.entry) left.now) (spec.coded (spot_of s.entry) right.now) dest to) }
{
    let behind = slot_behind(to, first_words(s, left.ty(), how)?)?;
    let one = first(code, s, left, right, to)?;
    let other = operand(code, s, right, behind)?;
    join_values(code, s, left.ty(), right.ty(), how, one, other, dest, to)
}

/// A whole value is found behind what is taken of it.
#[cycle(expr)]
pub fn taken(
    code: &mut Code,
    s: Spot<'_>,
    e: &TExpr,
    what: Take<'_>,
    dest: u32,
    to: u32,
) -> Result<(), NoMemory>
    requires { IsLaidOut s.program.now.aggregates }
    ensures { OnOk result (code.new ≡ code.old ++ takes.taken_code (spot_of s.entry) (type_of e.now) what.entry (spec.coded (spot_of s.entry) e.now) dest to) }
{
    let whole = whole_at(s, e.ty(), what, to)?;
    value(code, s, e, whole, whole)?;
    take_part(code, s, e.ty(), what, dest, whole)
}

/// A place is found, and used at once.
#[cycle(expr)]
pub fn found(
    code: &mut Code,
    s: Spot<'_>,
    x: &TPlace,
    what: Find<'_>,
    dest: u32,
    to: u32,
) -> Result<(), NoMemory>
    requires { IsLaidOut s.program.now.aggregates }
    ensures { OnOk result (code.new ≡ code.old ++ finds.found_code (spot_of s.entry) (place_type x.now) what.entry (spec.placed (spot_of s.entry) x.now) dest to) }
{
    let free = free_for(s, x.ty(), what, to)?;
    place(code, s, x, false, free)?;
    use_place(code, s, x, what, free, dest)
}

/// An integer that changes its bits, or a tuple with such parts, as a value of another type.
#[cycle(expr)]
pub fn changed_value(
    code: &mut Code,
    s: Spot<'_>,
    into: &Ty,
    of: &TExpr,
    dest: u32,
    to: u32,
) -> Result<(), NoMemory>
    requires { IsLaidOut s.program.now.aggregates }
    ensures { OnOk result (code.new ≡ code.old ++ computed.changed_value (spot_of s.entry) (type_of of.now) into.now (spec.coded (spot_of s.entry) of.now) dest to) }
{
    if is_integer(into) {
        used(code, s, of, Use::Convert(into), dest, to)
    } else {
        taken(code, s, of, Take::Converted(into), dest, to)
    }
}

/// A pointer that moves by a count of elements.
#[cycle(expr)]
pub fn move_value(
    code: &mut Code,
    s: Spot<'_>,
    ty: &Ty,
    movement: Movement,
    pointer: &TExpr,
    count: &TExpr,
    dest: u32,
    to: u32,
) -> Result<(), NoMemory>
    requires { IsLaidOut s.program.now.aggregates }
    ensures { OnOk result (code.new ≡ code.old ++ (values.movement_coded (spot_of s.entry) ty.now movement (spec.coded (spot_of s.entry) pointer.now) (spec.coded (spot_of s.entry) count.now)).value dest to) }
{
    let size = pointee_bytes(s, ty)?;
    match known(s, count)? {
        Some(n) => {
            let how = Use::Offset {
                back: is_back(movement),
                size,
                count: n,
            };
            used(code, s, pointer, how, dest, to)
        }
        None => match movement {
            Movement::Forward => {
                let how = Join::Advance { back: false, size };
                joined(code, s, pointer, count, how, dest, to)
            }
            Movement::CountFirst => {
                joined(
                    code,
                    s,
                    count,
                    pointer,
                    Join::AdvanceCounted { size },
                    dest,
                    to,
                )
            }
            Movement::Back => {
                let how = Join::Advance { back: true, size };
                joined(code, s, pointer, count, how, dest, to)
            }
        },
    }
}

/// The parts of a tuple, one behind the other.
#[cycle(expr)]
pub fn tuple_value(
    code: &mut Code,
    s: Spot<'_>,
    ty: &Ty,
    parts: &[TExpr],
    dest: u32,
    to: u32,
) -> Result<(), NoMemory>
    requires { IsLaidOut s.program.now.aggregates }
    ensures { OnOk result (code.new ≡ code.old ++ (values.tuple_coded (spot_of s.entry) ty.now (rows.row_of (spot_of s.entry) parts.now)).value dest to) }
{
    row_values(code, s, parts, to)?;
    moves(code, s.line, dest, to, words(s, ty)?)
}

/// The value of the last of several expressions.
#[cycle(expr)]
pub fn sequence_value(
    code: &mut Code,
    s: Spot<'_>,
    before: &[TExpr],
    last: &TExpr,
    dest: u32,
    to: u32,
) -> Result<(), NoMemory>
    requires { IsLaidOut s.program.now.aggregates }
    ensures { OnOk result (code.new ≡ code.old ++ ((rows.row_of (spot_of s.entry) before.now).effects to ++ (spec.coded (spot_of s.entry) last.now).value dest to)) }
{
    row_effects(code, s, before, to)?;
    value(code, s, last, dest, to)
}

/// All of them, where the last one's value is dropped as well.
#[cycle(expr)]
pub fn sequence_effect(
    code: &mut Code,
    s: Spot<'_>,
    before: &[TExpr],
    last: &TExpr,
    to: u32,
) -> Result<(), NoMemory>
    requires { IsLaidOut s.program.now.aggregates }
    ensures { OnOk result (code.new ≡ code.old ++ ((rows.row_of (spot_of s.entry) before.now).effects to ++ (spec.coded (spot_of s.entry) last.now).effect to)) }
{
    row_effects(code, s, before, to)?;
    effect(code, s, last, to)
}

/// An element whose number is not known: the base stays while the index is found.
#[cycle(expr)]
fn indexed(
    code: &mut Code,
    s: Spot<'_>,
    size: u32,
    base: &TExpr,
    index: &TExpr,
    to: u32,
) -> Result<(), NoMemory>
    requires { IsLaidOut s.program.now.aggregates }
    ensures { OnOk result (code.new ≡ code.old ++ computed.indexed (spot_of s.entry) size (spec.coded (spot_of s.entry) base.now) (spec.coded (spot_of s.entry) index.now) to) }
{
    let lasting = !keeps(s, index)?;
    pointer(code, s, base, lasting, to)?;
    let slot = base_slot(code, s, base, lasting, to)?;
    let count = operand(code, s, index, slot_behind(to, 1)?)?;
    advance(code, s, false, size, to, slot, count)
}

/// An element of a type.
#[cycle(expr)]
pub fn element(
    code: &mut Code,
    s: Spot<'_>,
    ty: &Ty,
    base: &TExpr,
    index: &TExpr,
    lasting: bool,
    to: u32,
) -> Result<(), NoMemory>
    requires { IsLaidOut s.program.now.aggregates }
    ensures { OnOk result (code.new ≡ code.old ++ (values.element_placed (spot_of s.entry) (homes.size (spot_of s.entry) ty.now) (spec.coded (spot_of s.entry) base.now) (spec.coded (spot_of s.entry) index.now)).code lasting to) }
{
    match known(s, index)? {
        Some(_) => pointer(code, s, base, lasting, to),
        None => indexed(code, s, bytes(s, ty)?, base, index, to),
    }
}
