//! The log's lines of a schedule that is none, that has too few entries, or that has one which is not permitted.

ghost use Rattle.std.specs.Prelude.{◌≡◌, ◌≤◌, length, take};
ghost use Rattle.alef_texts.specs.ScheduleLine as spec;

use crate::line::{put, put_long};
use crate::report::ScheduleFault;

/// Writes the line that the log gets for bytes that are no schedule to the front of a buffer, and gives its length.
pub(crate) fn schedule_line(buf: &mut [u8; 80], fault: ScheduleFault) -> usize
    ensures text { take result buf.new ≡ spec.schedule_line fault }
    ensures within { result ≤ 80 }
{
    match fault {
        ScheduleFault::Line(line) => {
            let mut end = put(buf, 0, b"alef: schedule line ");
            end = put_long(buf, end, line);
            put(buf, end, b"\n")
        }
        ScheduleFault::TooLong => put(buf, 0, b"alef: schedule too long\n"),
    }
}

/// The same for an entry that is not permitted.
pub(crate) fn entry_line(buf: &mut [u8; 80], number: u64) -> usize
    ensures text { take result buf.new ≡ spec.entry_line number }
    ensures within { result ≤ 80 }
{
    let mut end = put(buf, 0, b"alef: schedule entry ");
    end = put_long(buf, end, number);
    put(buf, end, b" is not permitted\n")
}

/// The same for a schedule that has only so many entries.
pub(crate) fn number_line(buf: &mut [u8; 80], count: u64) -> usize
    ensures text { take result buf.new ≡ spec.number_line count }
    ensures within { result ≤ 80 }
{
    let mut end = put(buf, 0, b"alef: schedule has ");
    end = put_long(buf, end, count);
    put(buf, end, b" entries\n")
}
