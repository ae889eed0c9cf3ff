//! The world of a schedule, run in the plainest way: a slow program whose contract is the world's definition.
//!
//! Tasks run scripts: lists of actions whose operands come from arguments and from earlier answers. [`run_script`] runs
//! them along a schedule, and the world that it gives is the run of that schedule.
//!
//! What does not depend on what tasks run is lent: the first world but for its task ([`opened`]), whose turn it is ([`task_of`]),
//! which picks an action has ([`picks`]), what it does ([`performs`]), how an answer is cut to it ([`fitted`]) and what stands
//! after an entry ([`ended`], [`made_after`]).
#![tactic(auto)]

mod acts;
mod asks;
mod chans;
mod counts;
mod effects;
mod fits;
mod lists;
mod permits;
mod run;
mod script;
mod starts;
mod step;
mod stores;
mod talks;
mod tells;
mod world;

pub use acts::performs;
pub use counts::{count_in, with_count};
pub use fits::fitted;
pub use permits::picks;
pub use run::{Stop, run_script};
pub use script::{Call, Choice, Control, Function, Instruction, Operand, Script, Source, Width};
pub use step::{ended, has_room, made_after, opened, task_of};
pub use tells::{Effect, Message, Told};
pub use world::{Change, Held, Made, State, World};
