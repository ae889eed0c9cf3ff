//! Scripts, each with what comes of it along schedules: how the world is over, the line of a trap, and what was put out; or the first
//! entry that is not permitted. An instruction that waits for an answer names it by its own number, `$I.W`.

pub static SCRIPTS: &str = "\
# a transfer on an unbuffered channel: the receive blocks, and the send goes; then the other way round
chan 0 1; proc 1 $0 $0; receive $0; print $2.1 / send #0 42
0x3 1x2 0x2 => Some(Done), [42]
0 0 1 0 1 0 0 => Some(Done), [42]
# an entry of a proc whose task waits, and one after the end
0x4 => NotPermitted { at: 3 }
0x3 1x2 0x3 => NotPermitted { at: 7 }

# a buffer is full
chan 2 1; send $0 1; send $0 2; send $0 3
0x4 => Some(Blocked), []

# values come in the order of their sends
chan 2 1; send $0 1; send $0 2; receive $0; receive $0; print $3.1; print $4.1; receive $0
0x7 => None, [1, 2]
0x8 => Some(Blocked), [1, 2]

# task 0 blocks on the full buffer; a receive takes the oldest value and lets its value in
chan 1 1; send $0 1; task 1 $0; send $0 2; receive $0; print $4.1 / receive #0; print $0.1; receive #0; print $2.1; send #0 3
0x13 => Some(Done), [1, 2, 3]

# one cell and a par, each branch of which adds 1; the task that waits goes on when both have ended
alloc 4; par 1 $0 1 $0; load $0; print $2 / load #0; store #0 $0+1
0x2 1x3 2x3 0x3 => Some(Done), [2]
0x2 1 2 1 2 1 2 0x3 => Some(Done), [1]
0x2 1x3 0 => NotPermitted { at: 5 }

# the branches are procs 1 and 2 in their order
par 1 4 1 5 / print #0
0 2 2 1 1 0 => Some(Done), [5, 4]

# an alt on two channels
chan 1 1; chan 1 1; send $0 1; send $1 2; receive $0 $1; print $4.1
0x6 => None, [1]
0x4 0.1 0 => None, [2]
0x4 0.2 => NotPermitted { at: 4 }

# an alt that waits goes by its second branch, and its first one is withdrawn
chan 0 1; chan 0 1; proc 1 $0 $1; receive $0 $1; print $3; print $3.1 / send #1 7; can_send #0; print $1
0x4 1 0x2 1x2 => None, [1, 7, 0]

# a woken task goes last
chan 0 1; task 1 $0; task 2 $0; send $0 0; print 3 / receive #0; print 1 / print 2
0x11 => Some(Done), [1, 2, 3]

# places of blocks
alloc 4; alloc 16; alloc 8; free $1; alloc 17; alloc 16; print $4; print $5; free 0
0x10 => Some(Done), [32, 8]

# the task that waits stands behind the one that sends
chan 0 1; task 1 $0; par 2 $0 2 $0; free_chan $0 / send #0 1
0x4 1 2 0 => Some(Trapped { trap: Busy, proc: 0, at: 6 }) in line 1, []

# nothing to do
/
0 => Some(Done), []
0x2 => NotPermitted { at: 1 }
1 => NotPermitted { at: 0 }
0.1 => NotPermitted { at: 0 }

pause; terminate 3
0x2 => Some(Stopped(3)), []
0x3 => NotPermitted { at: 2 }

# in another proc, in the line of its function
proc 1 1 0 / load #0
0 1 => Some(Trapped { trap: Align, proc: 1, at: 1 }) in line 2, []
";

/// Scripts of one function, each with the trap at its last entry.
pub static TRAPS: &str = "\
alloc 4; store $0+4 7 => Fault
alloc 4; load $0+4 => Fault
# not aligned, and in no block
load 1 => Align
alloc 1048576; alloc 1 => Memory
alloc 4; free $0; free $0 => Unalloc
free_frame 0 => Illegal
crowd 1024 => Tasks
# a channel that is nil, has other values, or was given up
send 0 1 => Chan
chan 0 2; send $0 1 => Chan
chan 1 1; free_chan $0; send $0 1 => Chan
chan 1 1; free_chan $0; free_chan $0 => Chan
chan 1 1; free_chan $0; can_recv $0 => Chan
chan 1 1; free_chan $0; can_send $0 => Chan
# each by its number
pause; trap 1 => Fault
pause; trap 2 => Align
pause; trap 3 => Divide
pause; trap 4 => Memory
pause; trap 5 => Unalloc
pause; trap 6 => Chan
pause; trap 7 => Busy
pause; trap 8 => Check
pause; trap 9 => Stack
pause; trap 10 => Tasks
pause; trap 11 => Print
pause; trap 12 => Illegal
pause; trap 13 => Call
";
