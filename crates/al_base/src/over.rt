ghost use Rattle.std.specs.Prelude.{◌≡◌, ◌≤◌, ◌+◌, ◌++◌, length, take, drop, codes, decimal};
ghost use Rattle.al_base.specs.Line.{line_of, name_of};

use crate::line::{put, put_number};
use crate::trap::Trap;

/// How a run is over.
#[derive(Clone, Copy, Debug, PartialEq, Eq)]
pub enum Over {
    /// Every proc has ended.
    Done,
    /// The program ended itself, with this status.
    Stopped(i32),
    /// A task of proc `proc` trapped at entry `at`, counted from 0.
    Trapped { trap: Trap, proc: u32, at: u32 },
    /// Tasks live, and none of them can go on.
    Blocked,
    /// The schedule has as many entries as it may have.
    Spent,
}

/// Writes the line that the log gets for the end of a run, with its line feed, to the front of a buffer, and gives
/// its length. This is 0 where there is no line.
pub fn over_line(over: &Over, buf: &mut [u8; 80]) -> u32
    ensures len { result ≡ length (line_of over.now) }
    ensures text { take result buf.new ≡ line_of over.now }
    ensures rest { drop result buf.new ≡ drop result buf.old }
{
    let end = match over {
        Over::Done | Over::Stopped(_) => 0,
        Over::Trapped { trap, proc, at } => put_trap(buf, *trap, *proc, *at),
        Over::Blocked => put(buf, 0, b"alef: blocked\n"),
        Over::Spent => put(buf, 0, b"alef: entries spent\n"),
    };
    end as u32
}

/// Writes the line of a trap.
fn put_trap(buf: &mut [u8], trap: Trap, proc: u32, at: u32) -> usize
    requires { 80 ≤ length buf.old }
    ensures len { result ≡ length (line_of (Over.Trapped trap proc at)) }
    ensures short { result ≤ 80 }
    ensures text { take result buf.new ≡ line_of (Over.Trapped trap proc at) }
    ensures rest { drop result buf.new ≡ drop result buf.old }
{
    let mut end = put(buf, 0, b"alef: trap ");
    end = put(buf, end, trap.name());
    end = put(buf, end, b" in proc ");
    end = put_number(buf, end, proc);
    end = put(buf, end, b" at entry ");
    end = put_number(buf, end, at);
    put(buf, end, b"\n")
}
