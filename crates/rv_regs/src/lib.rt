//! Where the slots of functions live: each in its own word of the function's frame, or in a register.
//!
//! What code may rest on is `AreHomes` in `specs/Homes.antt`.
#![tactic(auto)]

mod marks;
mod rows;
mod uses;

ghost use Rattle.std.specs.Prelude.{◌≡◌, ◌≤◌, length, IfOk};
ghost use Rattle.rv_regs.specs.Rows.{Gets};
ghost use Rattle.rv_regs.specs.Placed.{ArePlaced};
ghost use Rattle.rv_regs.specs.Homes.{AreHomes, IsHomeOf, home_at};

use crate::marks::{all_agree, busy, live, marked};
use crate::rows::{FIRST_REGISTER, no_rows, take_row};
use al_base::NoMemory;
use al_ir::{Function, Ir};
use al_items::Items;
use rv_code::Home;
use std::alloc::Global;
use std::marker::Model;

/// The homes of a function's slots.
#[derive(Debug, Drop)]
pub struct Homes {
    homes: Items<Home>,
}

impl Model for Homes {
    ghost use Rattle.std.specs.Prelude.{List};
    ghost use Rattle.rv_code.specs.declared.home.Home.{Home};
    ghost use Rattle.rv_regs.specs.Homes.{AreOwn};

    // a slot past the end has its own word of the frame
    ghost Value = { List Home };

    ghost view = { λ it. it.homes };

    ghost invariant = { λ it. AreOwn it.homes };
}

impl Homes {
    /// The home of a slot.
    pub fn home(&self, slot: u32) -> Home
        ensures value { result ≡ home_at self.now slot }
        ensures own { IsHomeOf slot result }
    {
        match self.homes.get(slot as usize) {
            Some(home) => *home,
            None => Home::Frame(slot),
        }
    }
}

/// A function with more operations than this has no slot in a register.
const MOST_OPERATIONS: usize = 65_536;
/// Slots are looked at, from the first on, while going over all operations for each of them takes at most so many steps.
const MOST_STEPS: usize = 1 << 22;

/// The home of a slot: a register, where all operations agree with one and one is free wherever it would be busy, or else the
/// slot's own word. An argument that is not live at the start stays where it comes.
fn home_for(
    alloc: Global,
    ir: &Ir,
    f: &Function,
    slot: u32,
    taken: &mut Items<Items<bool>>,
) -> Result<Home, NoMemory>
    requires code { length f.now.code ≤ 65536 }
    requires rows { length taken.old ≡ 10 }
    ensures { IfOk result (λ home. Gets ir.now f.now slot taken.old taken.new home) }
{
    if slot as usize > MOST_STEPS / (f.code.len() + 1) {
        return Ok(Home::Frame(slot));
    }
    let live = live(alloc, ir, slot, f.code.as_slice())?;
    let marks = live.as_slice();
    if slot < f.arguments && !marked(marks, 0) {
        return Ok(Home::Frame(slot));
    }
    if !all_agree(ir, slot, marks, f.code.as_slice()) {
        return Ok(Home::Frame(slot));
    }
    let busy = busy(alloc, ir, f, slot, marks)?;
    match take_row(alloc, taken, busy.as_slice())? {
        Some(k) => Ok(Home::Saved(FIRST_REGISTER + k)),
        None => Ok(Home::Frame(slot)),
    }
}

/// The homes of the slots of a function.
fn homes_for(alloc: Global, ir: &Ir, f: &Function) -> Result<Items<Home>, NoMemory>
    requires { length f.now.code ≤ 65536 }
    ensures { IfOk result (λ homes. ArePlaced ir.now f.now homes) }
{
    let mut homes = Items::new(alloc);
    let mut taken = no_rows(alloc)?;
    for slot in 0..f.slots {
        homes.push(home_for(alloc, ir, f, slot, &mut taken)?)?;
    }
    Ok(homes)
}

/// The homes of the slots of function number `function`. Registers go to slots in their order, each to the first one that is free
/// at all operations where it would be busy.
pub fn place(alloc: Global, ir: &Ir, function: u32) -> Result<Homes, NoMemory>
    ensures { IfOk result (λ homes. AreHomes ir.now function (home_at homes)) }
{
    match ir.functions.get(function as usize) {
        Some(f) if f.code.len() <= MOST_OPERATIONS => Ok(Homes {
            homes: homes_for(alloc, ir, f)?,
        }),
        _ => Ok(Homes {
            homes: Items::new(alloc),
        }),
    }
}
