//! The real world: a host over files, and sinks over standard output and standard error. What they read and write is
//! known to no clause; only their faults are counted.

ghost use Rattle.std.specs.Prelude.{◌≡◌, ◌<◌, ◌≤◌, ◌^◌, length, OnErr, IfOk};
ghost use Rattle.al_host.specs.Outside.{Counts, Faulted};

use crate::host::Host;
use crate::sink::Sink;
use al_base::Failed;
use std::fs::{self, Files};
use std::io::{Read, Stderr, Stdout, Write};

/// Counts a fault.
fn fault(faults: &mut u64) -> Failed
    ensures cause { Faulted faults.old faults.new }
    ensures later { faults.old ≤ faults.new }
    ensures bounded { faults.new < 2 ^ 64 }
{
    *faults = faults.saturating_add(1);
    Failed
}

/// Reads once. A read that the system refuses is a fault.
fn read_once<R: Read>(reader: &mut R, buf: &mut [u8], faults: &mut u64) -> Result<usize, Failed>
    ensures within { IfOk result (λ n. n ≤ length buf.old) }
    ensures cause { OnErr result (Faulted faults.old faults.new) }
    ensures count { Counts faults.old faults.new result }
{
    match reader.read(buf) {
        Ok(len) => Ok(len),
        Err(_) => Err(fault(faults)),
    }
}

/// Writes once. A write that the system refuses, and one that takes nothing of a piece that is not empty, is a fault.
fn write_once<W: Write>(writer: &mut W, piece: &[u8], faults: &mut u64) -> Result<usize, Failed>
    ensures within { IfOk result (λ n. n ≤ length piece.now) }
    ensures some { IfOk result (λ n. 0 < length piece.now → 0 < n) }
    ensures cause { OnErr result (Faulted faults.old faults.new) }
    ensures count { Counts faults.old faults.new result }
{
    match writer.write(piece) {
        Ok(0) if !piece.is_empty() => Err(fault(faults)),
        Ok(len) => Ok(len),
        Err(_) => Err(fault(faults)),
    }
}

/// The files of the system, by their paths.
#[derive(Drop)]
pub struct FileHost<'a, R: Files> {
    files: &'a R,
    found: Option<R::File>,
    faults: u64,
}

impl<'a, R: Files> FileHost<'a, R> {
    pub fn new(files: &'a R) -> FileHost<'a, R> {
        FileHost {
            files,
            found: None,
            faults: 0,
        }
    }
}

impl<'a, R: Files> Host for FileHost<'a, R> {
    ghost use Rattle.std.specs.Prelude.{None};

    ghost content = { λ _. None };

    ghost faults = { λ host. host.faults };

    fn find(&mut self, name: &str) -> Result<(), Failed> {
        self.found = None;
        match fs::open(self.files, name) {
            Ok(file) => {
                self.found = Some(file);
                Ok(())
            }
            Err(_) => Err(fault(&mut self.faults)),
        }
    }

    fn read(&mut self, buf: &mut [u8]) -> Result<usize, Failed> {
        match &mut self.found {
            Some(file) => read_once(file, buf, &mut self.faults),
            None => Ok(0),
        }
    }
}

/// Standard output.
#[derive(Drop)]
pub struct OutSink {
    stream: Stdout,
    faults: u64,
}

impl OutSink {
    pub fn new(stream: Stdout) -> OutSink {
        OutSink { stream, faults: 0 }
    }
}

impl Sink for OutSink {
    ghost use Rattle.std.specs.Prelude.{None};

    ghost got = { λ _. None };

    ghost faults = { λ sink. sink.faults };

    fn write(&mut self, piece: &[u8]) -> Result<usize, Failed> {
        write_once(&mut self.stream, piece, &mut self.faults)
    }
}

/// Standard error.
#[derive(Drop)]
pub struct LogSink {
    stream: Stderr,
    faults: u64,
}

impl LogSink {
    pub fn new(stream: Stderr) -> LogSink {
        LogSink { stream, faults: 0 }
    }
}

impl Sink for LogSink {
    ghost use Rattle.std.specs.Prelude.{None};

    ghost got = { λ _. None };

    ghost faults = { λ sink. sink.faults };

    fn write(&mut self, piece: &[u8]) -> Result<usize, Failed> {
        write_once(&mut self.stream, piece, &mut self.faults)
    }
}
