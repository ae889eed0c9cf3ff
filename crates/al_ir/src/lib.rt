//! Programs as lists of operations on slots, a list for each function: what a typed program is lowered to, and what code is
//! generated from. The operations serve the whole language.
//!
//! What tasks of operations do is a kind of control of the world: `specs/Control.antt` has the control, `specs/Step.antt` one
//! operation, `specs/Meaning.antt` what a task asks and how it goes on with the answer. `specs/Bounds.antt` has the bounds that
//! code for a program rests on.
#![tactic(auto)]

mod builder;
mod ir;
mod laws;
mod op;

pub use builder::IrBuilder;
pub use ir::{Function, Functions, Global, Ir, Operation, Run, Runs, StartItem};
pub use laws::operations_come_to_actions;
pub use op::{Op, Slots, TalkBranch};
