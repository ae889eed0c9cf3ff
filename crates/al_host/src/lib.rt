//! The world outside: a host that is read from and sinks that are written to, in memory and for real.
#![tactic(auto)]

mod edge;
mod fault_plan;
mod host;
mod memory_host;
mod memory_sink;
mod sink;

pub use edge::{FileHost, LogSink, OutSink};
pub use host::Host;
pub use memory_host::MemHost;
pub use memory_sink::MemSink;
pub use sink::Sink;
