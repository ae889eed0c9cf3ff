//! What a task of a typed program asks next: its control, and what the steps have in common.
#![tactic(auto)]

mod control;
mod copied;
mod here;
mod items;
mod operators;
mod stack;
mod take;
mod unmade;
mod work;

pub use control::{Control, Entering, Frame, Here, Item, Next};
pub use copied::Copied;
pub use here::{
    asks, control_at, does, does_three, does_two, finds, gives, lost, moves, traps, turns,
    with_item, with_work,
};
pub use items::{line_of, staged, to_do};
pub use operators::{and_then, operate, or_else, part};
pub use stack::Stack;
pub use take::{Taken, address, joined, place, places, two_values, value, values, word};
pub use unmade::Unmade;
pub use work::{
    Action, Argument, Bounds, Calling, Found, Operator, Stage, Storage, TargetStage, ValueStage,
    Work,
};
