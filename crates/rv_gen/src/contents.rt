// What an image has beside its code: rows of functions, and globals with their starting values.

ghost use Rattle.std.specs.Prelude.{◌≡◌, ◌+◌, ◌≤◌, ◌++◌, IfOk, OnOk, map, length};
ghost use Rattle.rv_form.specs.Program.{too_many, sizes_of, item_of, items_from, items_of, rows_from_number};
ghost use Rattle.rv_emit_ops.specs.Plans.{layout_in, AreNear};

use al_base::NoMemory;
use al_ir::{Global, Ir, StartItem};
use al_items::Items;
use rv_emit_ops::plan::Plan;
use rv_isa::image::{Item, Row};
use std::alloc::Global as Memory;

/// An image has at most so many globals.
const MOST_GLOBALS: usize = 65_536;

/// The rows of functions.
pub fn rows_of(alloc: Memory, ir: &Ir, plan: &Plan) -> Result<Items<Row>, NoMemory>
    requires count { length ir.now.functions ≤ 65536 }
    requires near { AreNear plan.now }
    ensures { IfOk result (λ rows. rows ≡ rows_from_number (layout_in ir.now plan.now) 0 ir.now.functions) }
{
    let mut rows = Items::new(alloc);
    for (f, g) in ir.functions.as_slice().iter().enumerate() {
        rows.push(Row {
            entry: plan.entry(f as u32),
            slots: g.stack,
            words: g.arguments,
        })?;
    }
    Ok(rows)
}

/// Whether no image can have so many globals.
fn too_many(ir: &Ir) -> bool
    ensures { result ≡ too_many ir.now }
{
    ir.globals.len() > MOST_GLOBALS
}

/// The sizes of globals. Where there are too many for an image, no region has room for them either: then there are two that
/// have no room.
pub fn sizes_of(alloc: Memory, ir: &Ir) -> Result<Items<u32>, NoMemory>
    ensures { IfOk result (λ sizes. sizes ≡ sizes_of ir.now) }
{
    if too_many(ir) {
        return Items::from_slice(alloc, &[1 << 28, 1 << 28]);
    }
    let mut sizes = Items::new(alloc);
    for global in ir.globals.as_slice() {
        sizes.push(global.bytes)?;
    }
    Ok(sizes)
}

/// Adds the starting values of a global.
fn add_items(items: &mut Items<Item>, number: u32, start: &[StartItem]) -> Result<(), NoMemory>
    ensures { OnOk result (items.new ≡ items.old ++ map (item_of number) start.now) }
{
    for item in start {
        items.push(Item {
            global: number,
            offset: item.at,
            size: item.size,
            value: item.word,
        })?;
    }
    Ok(())
}

/// The starting values of globals.
fn all_items(alloc: Memory, globals: &[Global]) -> Result<Items<Item>, NoMemory>
    requires { length globals.now ≤ 65536 }
    ensures { IfOk result (λ items. items ≡ items_from 0 globals.now) }
{
    let mut items = Items::new(alloc);
    for (number, global) in globals.iter().enumerate() {
        add_items(&mut items, number as u32, global.start.as_slice())?;
    }
    Ok(items)
}

/// The starting values of globals, if an image can have these.
pub fn items_of(alloc: Memory, ir: &Ir) -> Result<Items<Item>, NoMemory>
    ensures { IfOk result (λ items. items ≡ items_of ir.now) }
{
    if too_many(ir) {
        return Ok(Items::new(alloc));
    }
    all_items(alloc, ir.globals.as_slice())
}
