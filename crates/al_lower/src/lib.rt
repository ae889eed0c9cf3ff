//! Typed programs as programs of operations: the code of each function from its start to its end, the classes of functions that
//! pointers may name, the layouts of values of many units, and the globals.
#![tactic(auto)]

mod classes;
mod frame;
mod functions;
mod globals;
mod layouts;
mod program;
mod texts;

pub use program::lower;
