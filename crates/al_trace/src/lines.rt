//! The lines of a schedule, taken byte by byte.

ghost use Rattle.std.specs.Prelude.{◌≡◌, ◌≤◌, ◌↔◌, ◌++◌, ◌∷◌, [], List, ℕ, length, take, true, IsTrue, IsFalse, OnOk, IfErr};
ghost use Rattle.al_event.specs.declared.entry.Entry.{Entry};
ghost use Rattle.al_trace.specs.declared.stop.TraceStop.TheVariants as stops;
ghost use Rattle.al_trace.specs.Schedule.{first_line, entry_line, IsEntry, most, Gives, Stops};

use crate::line::entry_of;
use crate::stop::TraceStop;
use crate::writing::FIRST_LINE;
use al_event::Entry;
use al_items::Items;
use std::alloc::Global;

/// How many entries a schedule has at most.
const MOST_ENTRIES: usize = 1 << 26;

/// How many bytes a line has at most, its line feed counted.
const MOST_BYTES: usize = 20;

/// The lines that were read, and the beginning of the next one.
#[derive(Drop)]
pub(crate) struct Lines {
    /// Whether the first line was read.
    started: bool,
    entries: Items<Entry>,
    line: [u8; MOST_BYTES],
    len: usize,
}

impl Lines {
    ghost use Rattle.al_trace.specs.Lines.{IsPart, IsWhole, text_of, number_of};

    pub(crate) fn new(alloc: Global) -> Lines
        ensures part { IsPart result }
        ensures text { text_of result ≡ [] }
    {
        Lines {
            started: false,
            entries: Items::new(alloc),
            line: [0; MOST_BYTES],
            len: 0,
        }
    }

    /// Takes a piece of the text. An error is said of that piece with any bytes behind it.
    pub(crate) fn push_piece(&mut self, piece: &[u8]) -> Result<(), TraceStop>
        requires { IsPart self.old }
        ensures part { OnOk result (IsPart self.new) }
        ensures text { OnOk result (text_of self.new ≡ text_of self.old ++ piece.now) }
        ensures stop { IfErr result (λ stop. (more : List ℕ) → Stops stop (text_of self.old ++ (piece.now ++ more))) }
    {
        for byte in piece {
            self.push_byte(*byte)?;
        }
        Ok(())
    }

    fn push_byte(&mut self, byte: u8) -> Result<(), TraceStop>
        requires { IsPart self.old }
        ensures part { OnOk result (IsPart self.new) }
        ensures text { OnOk result (text_of self.new ≡ text_of self.old ++ byte ∷ []) }
        ensures stop { IfErr result (λ stop. (more : List ℕ) → Stops stop (text_of self.old ++ byte ∷ more)) }
    {
        if self.entries.len() == MOST_ENTRIES {
            return Err(TraceStop::TooLong);
        }
        self.line[self.len] = byte;
        self.len += 1;
        if byte == b'\n' {
            return self.end_line();
        }
        if self.len == MOST_BYTES {
            return Err(self.bad_line());
        }
        Ok(())
    }

    /// Puts a line that is whole behind those that were read.
    fn end_line(&mut self) -> Result<(), TraceStop>
        requires { IsWhole self.old }
        ensures part { OnOk result (IsPart self.new) }
        ensures text { OnOk result (text_of self.new ≡ text_of self.old) }
        ensures stop { IfErr result (λ stop. (more : List ℕ) → Stops stop (text_of self.old ++ more)) }
    {
        if self.started {
            self.end_entry()
        } else {
            self.end_first_line()
        }
    }

    fn end_entry(&mut self) -> Result<(), TraceStop>
        requires whole { IsWhole self.old }
        requires started { IsTrue self.old.started }
        ensures part { OnOk result (IsPart self.new) }
        ensures text { OnOk result (text_of self.new ≡ text_of self.old) }
        ensures stop { IfErr result (λ stop. (more : List ℕ) → Stops stop (text_of self.old ++ more)) }
    {
        match entry_of(&self.line[..self.len]) {
            Some(entry) => {
                self.entries.push(entry)?;
                self.len = 0;
                Ok(())
            }
            None => Err(self.bad_line()),
        }
    }

    fn end_first_line(&mut self) -> Result<(), TraceStop>
        requires whole { IsWhole self.old }
        requires started { IsFalse self.old.started }
        ensures part { OnOk result (IsPart self.new) }
        ensures text { OnOk result (text_of self.new ≡ text_of self.old) }
        ensures stop { IfErr result (λ stop. (more : List ℕ) → Stops stop (text_of self.old ++ more)) }
    {
        if is_first_line(&self.line[..self.len]) {
            self.started = true;
            self.len = 0;
            Ok(())
        } else {
            Err(self.bad_line())
        }
    }

    /// The line that was begun is not right.
    fn bad_line(&self) -> TraceStop
        requires { length self.now.entries ≤ most }
        ensures { result ≡ stops.BadLine (number_of self.now) }
    {
        if self.started {
            TraceStop::BadLine(self.entries.len() as u64 + 2)
        } else {
            TraceStop::BadLine(1)
        }
    }

    /// The entries, where the text ends here.
    pub(crate) fn finish(self) -> Result<Vec<Entry>, TraceStop>
        requires { IsPart self }
        ensures text { Gives result (text_of self) }
        ensures stop { IfErr result (λ stop. stop ≡ stops.BadLine (number_of self)) }
    {
        if self.started && self.len == 0 {
            let Lines { entries, .. } = self;
            Ok(entries.into_vec())
        } else {
            Err(self.bad_line())
        }
    }
}

fn is_first_line(line: &[u8]) -> bool
    ensures { IsTrue result ↔ (line.now ≡ first_line) }
{
    line == FIRST_LINE
}
