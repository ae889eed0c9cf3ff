//! What the command `alef` reads and says: texts, images and schedules by name, how a call ends, its status and the log's line; and
//! the modes in which nothing runs.
#![tactic(auto)]

mod checking;
mod keeping;
mod line;
mod load;
mod outside;
mod refusal;
mod report;
mod schedule;
mod walk;

pub use checking::check;
pub use keeping::kept;
pub use load::{load_image, load_schedule, load_text};
pub use outside::write_all;
pub use report::{End, Report, ScheduleFault, line_of, status_of};
pub use walk::step;
