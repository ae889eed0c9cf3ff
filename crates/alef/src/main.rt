//! The command `alef`: the words after its name, files, standard output and standard error, handed to the top call.
#![tactic(auto)]

use al_base::NoMemory;
use al_host::{FileHost, LogSink, OutSink, Sink};
use al_rounds::OpenGate;
use alef_run::alef;
use std::alloc::Global;
use std::env;
use std::io::{self, ErrorKind};
use std::process::ExitCode;
use std::thread::{self, Builder};

/// The status of want of memory.
const NO_MEMORY: u8 = 8;

/// The stack of a job, in bytes: the tree of a text of 2^20 bytes may have a level for each byte until the limits on types refuse it, and
/// to let go of a level takes a call. What of it is not used takes no memory.
const STACK: usize = 1 << 30;

fn main(rt: HostRuntime) -> ExitCode {
    let job = || {
        let alloc = rt.alloc();
        let mut host = FileHost::new(&rt);
        let mut out = OutSink::new(rt.stdout());
        let mut log = LogSink::new(rt.stderr());
        match names(&rt, alloc) {
            Ok(names) => match words_of(alloc, &names) {
                Ok(words) => {
                    alef(&rt, alloc, &words, &mut host, &mut out, &mut log, &OpenGate).status
                }
                Err(NoMemory) => out_of_memory(&mut log),
            },
            Err(error) if error.kind() == ErrorKind::InvalidData => {
                // words that are no text are no job
                alef(&rt, alloc, &[], &mut host, &mut out, &mut log, &OpenGate).status
            }
            Err(_) => out_of_memory(&mut log),
        }
    };
    let status = thread::scope(thread::scope_env(), &rt, |scope| {
        match Builder::new()
            .stack_size(STACK)
            .spawn_scoped(scope, || job())
        {
            Ok(handle) => handle.join(&rt),
            // where there is no such thread, on the stack that there is
            Err(_) => job(),
        }
    });
    ExitCode::from(status)
}

/// The words after the program's name.
fn names(rt: &HostRuntime, alloc: Global) -> io::Result<Vec<String>> {
    let mut names = Vec::new(alloc);
    for name in env::args(rt)?.skip(1) {
        names.push(name)?;
    }
    Ok(names)
}

/// The words as text that others may look at.
fn words_of(alloc: Global, names: &[String]) -> Result<Vec<&str>, NoMemory> {
    let mut words = Vec::new(alloc);
    for name in names {
        words.push(name.as_str())?;
    }
    Ok(words)
}

/// Want of memory before the words were read: its line, as far as the log takes it, and its status.
fn out_of_memory(log: &mut impl Sink) -> u8 {
    let _ = log.write(b"alef: out of memory\n");
    NO_MEMORY
}
