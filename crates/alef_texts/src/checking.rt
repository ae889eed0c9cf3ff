//! The mode `check`: a text is checked, and nothing runs.

ghost use Rattle.std.specs.Prelude.{◌≡◌, ℕ, List, Option, None};
ghost use Rattle.alef_texts.specs.Status.{status_of};
ghost use Rattle.alef_texts.specs.Call.{call_by};
ghost use Rattle.alef_texts.specs.CheckMode.{EndsCheck, EndsText, end_of};

use crate::load::load_text;
use crate::report::{End, Report};
use al_front::{FrontStop, front};
use al_host::Host;
use std::alloc::Global;

/// How a call ends where the front end found that. What was found is let go here, where its type is not looked into.
fn end_of<T: Drop>(found: Result<T, FrontStop>) -> End
    ensures { result ≡ end_of found }
{
    match found {
        Ok(_) => End::Made,
        Err(FrontStop::Refused(reason)) => End::Refused(reason),
        Err(FrontStop::NoMemory) => End::NoMemory,
    }
}

/// How the check of a text ends.
fn checked(alloc: Global, text: &[u8]) -> End
    ensures { EndsText text.now result }
{
    end_of(front(alloc, text))
}

/// Reads the text of that name and checks it.
pub fn check<H: Host>(alloc: Global, file: &str, host: &mut H) -> Report
    // It writes nothing, whatever was written before.
    ensures end { (got : Option (List ℕ)) (faults : ℕ) → EndsCheck file.now (call_by (H.content host.old) (H.content host.new) (H.faults host.old) (H.faults host.new) got got faults faults result) result.end }
    ensures image { result.image ≡ None }
    ensures status { result.status ≡ status_of result.end }
{
    let bytes = match load_text(alloc, host, file) {
        Ok(bytes) => bytes,
        Err(end) => return Report::nothing(alloc, end),
    };
    let end = checked(alloc, bytes.as_slice());
    Report::nothing(alloc, end)
}
