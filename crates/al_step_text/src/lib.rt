//! The world of a program after some entries of a schedule, as lines of text for a reader:
//!
//! - `entries K`, the number of entries; then `running`, or `over NAME`, where NAME is Done, Stopped, Trapped, Blocked or Spent.
//! - Each task that lives, by procs and then by numbers: `task P T STATE`. T counts the tasks of proc P from 0, in the order in which
//!   they were started. STATE is `ready` (in the ready list of its proc, also after a trap), `blocked` (in the waiting list) or
//!   `joining` (in a par).
//! - Below a task each frame, the innermost first: `frame I fN NAME line L`. I counts from 0, N is the number of the function, and NAME
//!   its name, which is the last one of its head, or `par`. L is the line of the frame's first item, else that of the function's name
//!   or of the branch.
//! - Below a frame each private parameter and local in text order: `var NAME VALUE`, with an empty name where it has none. A value is
//!   shown as al_value_text says. The addresses of blocks that a branch of a par is given are not shown.
//! - Each channel that was not given up, by numbers: `chan N capacity C held H waiting W`, where W tasks are blocked with a branch on it.
//! - Each live block, by places: `block AT SIZE KIND`. AT is shown as a pointer is, and KIND is `heap`, `frame` or `global`.
//! - `output B`, the number of bytes that were put out.
//!
//! `specs/StepText.antt` defines these lines, `specs/Frames.antt` those of frames and variables.
#![tactic(auto)]

mod block;
mod channel;
mod frame;
mod state;
mod text;

pub use state::TaskState;
pub use text::put_world;
