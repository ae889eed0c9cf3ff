//! From a name to the text, the image or the schedule under it.

ghost use Rattle.std.specs.Prelude.{◌≡◌, ◌≤◌, ℕ, List, Some, length, All, take, OnOk, IfOk, IfErr};
ghost use Rattle.al_host.specs.Outside.{WhereTold};
ghost use Rattle.al_counts.specs.Counts.{most_entries};
ghost use Rattle.al_trace.specs.Schedule.{IsEntry};
ghost use Rattle.rv_image.specs.Spelling.{IsImage};
ghost use Rattle.rv_image.specs.Front.{enough_of};
ghost use Rattle.alef_texts.specs.Call.{IsRead, text_in};
ghost use Rattle.alef_texts.specs.CheckMode.{most_of_text};
ghost use Rattle.alef_texts.specs.Load.{ReadsOn, StopsReading, KeepsTexts, LacksBytes, LacksImage, IsScheduleRead, LacksSchedule};

use crate::report::{End, ScheduleFault};
use al_event::Entry;
use al_host::Host;
use al_trace::TraceStop;
use rv_image::{ImageStop, enough, read};
use rv_isa::image::Image;
use std::alloc::Global;

/// So many bytes of an image say how many more there are to be.
const HEADER_BYTES: usize = 36;

/// A text is read to its end, or to one byte past the most that it may have.
const MOST_OF_TEXT: usize = (1 << 20) + 1;

/// A text or an image is read in pieces of so many bytes.
const PIECE: usize = 4096;

/// Reads on, until there are `most` bytes or nothing is left.
fn read_on<H: Host>(host: &mut H, bytes: &mut Vec<u8>, most: usize) -> Result<(), End>
    requires { length bytes.old.items ≤ most }
    ensures read { OnOk result (WhereTold (ReadsOn most bytes.old.items bytes.new.items) (H.content host.old) (H.content host.new)) }
    ensures within { OnOk result (length bytes.new.items ≤ most) }
    ensures calm { OnOk result (H.faults host.new ≡ H.faults host.old) }
    ensures stop { IfErr result (λ end. StopsReading end (H.faults host.old) (H.faults host.new)) }
{
    let mut piece = [0; PIECE];
    while bytes.len() < most {
        let room = piece.len().min(most - bytes.len());
        let len = match host.read(&mut piece[..room]) {
            Ok(len) => len,
            Err(_) => return Err(End::ReadFault),
        };
        if len == 0 {
            return Ok(());
        }
        match bytes.extend_from_slice(&piece[..len]) {
            Ok(()) => (),
            Err(_) => return Err(End::NoMemory),
        }
    }
    Ok(())
}

/// Reads the text of that name: all of it, or one byte more than it may have.
pub fn load_text<H: Host>(alloc: Global, host: &mut H, name: &str) -> Result<Vec<u8>, End>
    ensures read { OnOk result (IsRead name.now most_of_text (H.content host.old) (H.content host.new) (H.faults host.old) (H.faults host.new)) }
    ensures text { IfOk result (λ bytes. (text : List ℕ) → text_in (H.content host.old) name.now ≡ Some text → bytes.items ≡ take (most_of_text text) text) }
    ensures same { OnOk result (KeepsTexts (H.content host.old) (H.content host.new)) }
    ensures none { IfErr result (λ end. LacksBytes name.now end (H.content host.old) (H.faults host.old) (H.faults host.new)) }
{
    match host.find(name) {
        Ok(()) => (),
        Err(_) => return Err(End::ReadFault),
    }
    let mut bytes = Vec::new(alloc);
    read_on(host, &mut bytes, MOST_OF_TEXT)?;
    Ok(bytes)
}

/// Reads the image of that name: as many bytes as tell which image it is.
pub fn load_image<H: Host>(alloc: Global, host: &mut H, name: &str) -> Result<Image, End>
    ensures read { OnOk result (IsRead name.now enough_of (H.content host.old) (H.content host.new) (H.faults host.old) (H.faults host.new)) }
    ensures image { IfOk result (λ image. (text : List ℕ) → text_in (H.content host.old) name.now ≡ Some text → IsImage text image) }
    ensures none { IfErr result (λ end. LacksImage name.now end (H.content host.old) (H.content host.new) (H.faults host.old) (H.faults host.new)) }
{
    match host.find(name) {
        Ok(()) => (),
        Err(_) => return Err(End::ReadFault),
    }
    let mut bytes = Vec::new(alloc);
    read_on(host, &mut bytes, HEADER_BYTES)?;
    let most = enough(bytes.as_slice());
    read_on(host, &mut bytes, most)?;
    match read(alloc, bytes.as_slice()) {
        Ok(image) => Ok(image),
        Err(ImageStop::Fault(fault)) => Err(End::BadImage(fault)),
        Err(ImageStop::NoMemory) => Err(End::NoMemory),
    }
}

/// Reads the schedule of that name to its end.
pub fn load_schedule<H: Host>(alloc: Global, host: &mut H, name: &str) -> Result<Vec<Entry>, End>
    ensures read { IfOk result (λ entries. IsScheduleRead name.now entries.items (H.content host.old) (H.content host.new) (H.faults host.old) (H.faults host.new)) }
    ensures few { IfOk result (λ entries. length entries.items ≤ most_entries) }
    ensures entries { IfOk result (λ entries. All IsEntry entries.items) }
    ensures none { IfErr result (λ end. LacksSchedule name.now end (H.content host.old) (H.faults host.old) (H.faults host.new)) }
{
    match host.find(name) {
        Ok(()) => (),
        Err(_) => return Err(End::ReadFault),
    }
    match al_trace::read(alloc, host) {
        Ok(entries) => Ok(entries),
        Err(TraceStop::ReadFault) => Err(End::ReadFault),
        Err(TraceStop::BadLine(line)) => Err(End::BadSchedule(ScheduleFault::Line(line))),
        Err(TraceStop::TooLong) => Err(End::BadSchedule(ScheduleFault::TooLong)),
        Err(TraceStop::NoMemory) => Err(End::NoMemory),
    }
}
