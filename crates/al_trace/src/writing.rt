ghost use Rattle.std.specs.Prelude.{◌≡◌, ◌*◌, ◌≤◌, length, take, OnOk, OnErr};
ghost use Rattle.std.specs.List.{flat_map};
ghost use Rattle.al_host.specs.Outside.{Faulted, WhereTold};
ghost use Rattle.al_trace.specs.Schedule.{entry_line, schedule_text};
ghost use Rattle.al_trace.specs.Sending.{GetsAll, GetsPart};

use crate::line::put_entry;
use crate::sending::write_all;
use al_base::Failed;
use al_event::Entry;
use al_host::Sink;

pub(crate) const FIRST_LINE: &[u8] = b"alef-schedule 1\n";

/// How many entries are written at once.
const MOST_AT_ONCE: usize = 124;

/// Room for their lines.
const PIECE: usize = 4_096;

/// Writes the text of a schedule, piece by piece, without taking memory.
pub fn write<K: Sink>(entries: &[Entry], out: &mut K) -> Result<(), Failed>
    ensures all { OnOk result (WhereTold (GetsAll (schedule_text entries.now)) (K.got out.old) (K.got out.new)) }
    ensures part { OnErr result (WhereTold (GetsPart (schedule_text entries.now)) (K.got out.old) (K.got out.new)) }
    ensures cause { OnErr result (Faulted (K.faults out.old) (K.faults out.new)) }
    ensures later { K.faults out.old ≤ K.faults out.new }
    ensures ok { OnOk result (K.faults out.new ≡ K.faults out.old) }
{
    write_all(out, FIRST_LINE)?;
    let mut done = 0;
    while done < entries.len() {
        let end = done + MOST_AT_ONCE.min(entries.len() - done);
        write_entries(&entries[done..end], out)?;
        done = end;
    }
    Ok(())
}

fn write_entries<K: Sink>(entries: &[Entry], out: &mut K) -> Result<(), Failed>
    requires { length entries.now ≤ 124 }
    ensures all { OnOk result (WhereTold (GetsAll (flat_map entry_line entries.now)) (K.got out.old) (K.got out.new)) }
    ensures part { OnErr result (WhereTold (GetsPart (flat_map entry_line entries.now)) (K.got out.old) (K.got out.new)) }
    ensures cause { OnErr result (Faulted (K.faults out.old) (K.faults out.new)) }
    ensures later { K.faults out.old ≤ K.faults out.new }
    ensures ok { OnOk result (K.faults out.new ≡ K.faults out.old) }
{
    let mut piece = [0; PIECE];
    let len = put_entries(&mut piece, entries);
    write_all(out, &piece[..len])
}

/// Puts the lines of entries at the front, and says how long they are.
fn put_entries(piece: &mut [u8], entries: &[Entry]) -> usize
    requires { 33 * length entries.now ≤ length piece.old }
    ensures text { take result piece.new ≡ flat_map entry_line entries.now }
    ensures within { result ≤ length piece.new }
{
    let mut end = 0;
    for entry in entries {
        end = put_entry(piece, end, entry);
    }
    end
}
