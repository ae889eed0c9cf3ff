//! What is made behind the operations of an expression's parts: constants, members, objects, calls, changes of variables,
//! channels, and the parts of a value that go into targets.
#![tactic(auto)]

mod actions;
mod calls;
mod members;
mod objects;
mod targets;
mod values;

pub use actions::{
    before_change, behind_change, changed_home, clear_stored, clear_variable, gives_old, receive,
    send, step_home, step_stored, step_variable,
};
pub use calls::{call_result, global, invoke, invoke_pointer};
pub use members::{member_words, object_words, pointed_words, take_member};
pub use objects::{object_free, pass_member, pass_pointed};
pub use targets::{count_targets, save_target};
pub use values::{constant, constant_right, less, pointee_bytes, skips_known, turn};
