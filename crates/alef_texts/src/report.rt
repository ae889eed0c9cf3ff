ghost use Rattle.std.specs.Prelude.{◌≡◌, ◌≤◌, [], None, take};
ghost use Rattle.alef_texts.specs.Status.{stopped, status_of, image_line, line_of_end};

use crate::line::trap_line;
use crate::refusal::text_line;
use crate::schedule::{entry_line, number_line, schedule_line};
use al_base::{Over, over_line};
use al_event::Entry;
use al_front::Refused;
use al_items::Items;
use rv_image::ImageFault;
use rv_isa::image::Image;
use std::alloc::Global;
use std::sync::Arc;

/// Why bytes are no schedule.
#[derive(Clone, Copy, Debug, PartialEq, Eq)]
pub enum ScheduleFault {
    /// The first line that is not right, counted from 1.
    Line(u64),
    /// More bytes follow after as many lines as there can be.
    TooLong,
}

/// How a call ended.
#[derive(Clone, Copy, Debug, PartialEq, Eq)]
pub enum End {
    /// The program ran, and was over like this.
    Ran(Over),
    /// What was asked for was done, and it was no run: the text is accepted, within the limits, or its image was written, or its
    /// world was shown.
    Made,
    /// The words are no job.
    Words,
    /// The host did not give the text or the image.
    ReadFault,
    /// The text is not accepted, or passes a limit.
    Refused(Refused),
    /// The bytes are no image.
    BadImage(ImageFault),
    /// The bytes are no schedule.
    BadSchedule(ScheduleFault),
    /// That entry of the schedule, counted from 0, is the first that is not permitted.
    BadEntry(u64),
    /// The schedule has so many entries, which are fewer than were asked for.
    BadNumber(u64),
    /// The output did not go out whole.
    WriteFault,
    /// There was not enough memory.
    NoMemory,
}

/// What a call did.
#[derive(Debug, Drop)]
pub struct Report {
    /// The exit status.
    pub status: u8,
    pub end: End,
    /// The entries that were made, empty where nothing ran.
    pub schedule: Items<Entry>,
    /// How many code words were fetched up to the last entry.
    pub work: u128,
    /// The image that ran, if one did.
    pub image: Option<Arc<Image>>,
}

impl Report {
    /// A call that ends before anything was made.
    pub fn nothing(alloc: Global, end: End) -> Report
        ensures end { result.end ≡ end }
        ensures schedule { result.schedule ≡ [] }
        ensures work { result.work ≡ 0 }
        ensures image { result.image ≡ None }
        ensures status { result.status ≡ status_of end }
    {
        Report {
            status: status_of(&end),
            end,
            schedule: Items::new(alloc),
            work: 0,
            image: None,
        }
    }
}

/// The exit status of a program that stopped itself.
fn stopped(status: i32) -> u8
    ensures { result ≡ stopped status }
{
    if status == 0 {
        return 0;
    }
    128 + status.rem_euclid(128) as u8
}

/// The exit status of an end.
pub fn status_of(end: &End) -> u8
    ensures { result ≡ status_of end.now }
{
    match end {
        End::Ran(Over::Done) => 0,
        End::Ran(Over::Stopped(status)) => stopped(*status),
        End::Ran(Over::Trapped { .. }) => 5,
        End::Ran(Over::Blocked) => 6,
        End::Ran(Over::Spent) => 7,
        End::Made => 0,
        End::Words => 2,
        End::ReadFault => 3,
        End::Refused(_) => 1,
        End::BadImage(_) => 9,
        End::BadSchedule(_) | End::BadEntry(_) | End::BadNumber(_) => 9,
        End::WriteFault => 4,
        End::NoMemory => 8,
    }
}

/// Writes the line that the log gets for the end of a run to the front of a buffer, and gives its length.
fn run_line(over: &Over, line: u32, buf: &mut [u8; 80]) -> usize
    ensures text { take result buf.new ≡ line_of_end line (End.Ran over.now) }
    ensures within { result ≤ 80 }
{
    match over {
        Over::Trapped { trap, proc, at } => trap_line(buf, *trap, *proc, *at, line),
        _ => over_line(over, buf) as usize,
    }
}

fn image_line(fault: ImageFault) -> &'static [u8]
    ensures { result.now ≡ image_line fault }
{
    match fault {
        ImageFault::Short => b"alef: image Short\n",
        ImageFault::Magic => b"alef: image Magic\n",
        ImageFault::Version => b"alef: image Version\n",
        ImageFault::Count => b"alef: image Count\n",
        ImageFault::Extra => b"alef: image Extra\n",
    }
}

/// The line that the log gets for an end, if it gets one; that of a trap names `line` of the text where it is not 0. A buffer
/// lends it room.
pub fn line_of<'a>(end: &End, line: u32, buf: &'a mut [u8; 80]) -> &'a [u8]
    ensures { result.now ≡ line_of_end line end.now }
{
    match end {
        End::Ran(over) => {
            let len = run_line(over, line, buf);
            &buf[..len]
        }
        End::Made => b"",
        End::Words => {
            b"alef: usage: alef MODE [FILE [SCHEDULE]] [--workers N] [--entries N] [--region N] [--number N]\n"
        }
        End::ReadFault => b"alef: cannot read\n",
        End::Refused(reason) => {
            let len = text_line(buf, *reason);
            &buf[..len]
        }
        End::BadImage(fault) => image_line(*fault),
        End::BadSchedule(fault) => {
            let len = schedule_line(buf, *fault);
            &buf[..len]
        }
        End::BadEntry(number) => {
            let len = entry_line(buf, *number);
            &buf[..len]
        }
        End::BadNumber(count) => {
            let len = number_line(buf, *count);
            &buf[..len]
        }
        End::WriteFault => b"alef: cannot write\n",
        End::NoMemory => b"alef: out of memory\n",
    }
}
