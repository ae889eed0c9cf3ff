//! Programs with tasks, procs and channels, and what comes of them.
//!
//! A program is the words of an image, in hexadecimal, each line with its meaning behind a bar. Below `then` stands what comes of it: `along`
//! entries of procs, each with pick 0 (`0x3 1` is three of proc 0 and one of proc 1); `alone`, where one worker makes so many entries; or
//! `fetches`, where its one entry fetches so many words. Behind the bar are how the world is over, the line of its trap, and its output.

/// Programs with an empty line between them.
pub static PROGRAMS: &str = "\
# A proc sends 42, and main prints what it receives.
46454c41 2 33 2 0 0 8 0 0 | 51 words of code, 2 functions
0 40 0 | function 0 begins at word 0
23 40 1 | function 1 begins at word 35
513 100593 600893 73 50913 | function 0: makes a channel of capacity 0 in x18
1212023 100513 10593 100613 b00893 73 | starts function 1 in a proc
5212023 293 4512223 10010293 4512423 100293 4512623 4010513 100593 a00893 73 10012983 | receives from x18 into x19
98513 593 100613 1100893 73 a00513 1000893 73 e00893 73 | prints the number in x19 and a line feed
100893 73 | ends
12903 | function 1: lw x18, 0(x2)
2a00313 5212023 100293 4512223 10612023 10010293 4512423 100293 4512623 4010513 100593 a00893 73 | sends 42 on x18
100893 73 | ends
then
along 0x3 1x2 0x2 | Some(Done), line 0, \"42\\n\"
along 0x2 1 0x3 1 | Some(Done), line 0, \"42\\n\"
alone 7 | Some(Done), line 0, \"42\\n\"

# Sends of 1 and 2 into a buffer of two, and then two receives that are printed.
46454c41 2 4b 1 0 0 8 0 0 | 75 words of code, 1 functions
0 40 0 | function 0 begins at word 0
200513 100593 600893 73 50913 | function 0: makes a channel of capacity 2 in x18
100313 5212023 100293 4512223 10612023 10010293 4512423 100293 4512623 4010513 100593 a00893 73 | sends 1 on x18
200313 5212023 100293 4512223 10612023 10010293 4512423 100293 4512623 4010513 100593 a00893 73 | sends 2 on x18
5212023 293 4512223 10010293 4512423 100293 4512623 4010513 100593 a00893 73 10012983 | receives from x18 into x19
5212023 293 4512223 10010293 4512423 100293 4512623 4010513 100593 a00893 73 10012a03 | receives from x18 into x20
98513 593 100613 1100893 73 | appends the number in x19
2000513 1000893 73 | appends a byte
a0513 593 100613 1100893 73 a00513 1000893 73 e00893 73 | prints the number in x20 and a line feed
100893 73 | ends
then
along 0x7 | Some(Done), line 0, \"1 2\\n\"
alone 7 | Some(Done), line 0, \"1 2\\n\"

# The same with a third send, which blocks.
46454c41 2 58 1 0 0 8 0 0 | 88 words of code, 1 functions
0 40 0 | function 0 begins at word 0
200513 100593 600893 73 50913 | function 0: makes a channel of capacity 2 in x18
100313 5212023 100293 4512223 10612023 10010293 4512423 100293 4512623 4010513 100593 a00893 73 | sends 1 on x18
200313 5212023 100293 4512223 10612023 10010293 4512423 100293 4512623 4010513 100593 a00893 73 | sends 2 on x18
300313 5212023 100293 4512223 10612023 10010293 4512423 100293 4512623 4010513 100593 a00893 73 | sends 3 on x18
5212023 293 4512223 10010293 4512423 100293 4512623 4010513 100593 a00893 73 10012983 | receives from x18 into x19
5212023 293 4512223 10010293 4512423 100293 4512623 4010513 100593 a00893 73 10012a03 | receives from x18 into x20
98513 593 100613 1100893 73 | appends the number in x19
2000513 1000893 73 | appends a byte
a0513 593 100613 1100893 73 a00513 1000893 73 e00893 73 | prints the number in x20 and a line feed
100893 73 | ends
then
along 0x4 | Some(Blocked), line 0, \"\"
alone 4 | Some(Blocked), line 0, \"\"

# A send that no one receives.
46454c41 2 14 1 0 0 8 0 0 | 20 words of code, 1 functions
0 40 0 | function 0 begins at word 0
513 100593 600893 73 50913 | function 0: makes a channel of capacity 0 in x18
100313 5212023 100293 4512223 10612023 10010293 4512423 100293 4512623 4010513 100593 a00893 73 | sends 1 on x18
100893 73 | ends
then
along 0x2 | Some(Blocked), line 0, \"\"

# A par of two branches, each of which writes a word of a frame block; main prints the sum.
46454c41 2 33 3 0 0 8 0 0 | 51 words of code, 3 functions
0 40 0 | function 0 begins at word 0
29 40 1 | function 1 begins at word 41
2e 40 1 | function 2 begins at word 46
800513 200593 400893 73 | function 0: asks a block of 8 bytes of a frame
50913 | addi x18, x10, 0
11212023 100293 4512023 10010293 4512223 100293 4512423 200293 4512623 10010293 4512823 100293 4512a23 4010513 200593 d00893 73 | par of functions 1, 2
92983 | lw x19, 0(x18)
492a03 | lw x20, 4(x18)
14989b3 | add x19, x19, x20
98513 593 100613 1100893 73 a00513 1000893 73 e00893 73 | prints the number in x19 and a line feed
90513 | addi x10, x18, 0
200593 | addi x11, x0, 2
500893 73 | gives the block back
100893 73 | ends
12903 | function 1: lw x18, 0(x2)
100993 | addi x19, x0, 1
1392023 | sw x19, 0(x18)
100893 73 | ends
12903 | function 2: lw x18, 0(x2)
200993 | addi x19, x0, 2
1392223 | sw x19, 4(x18)
100893 73 | ends
then
along 0x2 1 2x2 1 0x5 | Some(Done), line 0, \"3\\n\"
alone 11 | Some(Done), line 0, \"3\\n\"

# Two branches of a par add one to a global, and main prints it.
46454c41 2 25 2 1 1 8 0 0 | 37 words of code, 2 functions
0 40 0 | function 0 begins at word 0
1f 40 1 | function 1 begins at word 31
4 | global 0 has 4 bytes
0 0 4 0 | and begins with the word 0
10012023 100293 4512023 10010293 4512223 100293 4512423 100293 4512623 10010293 4512823 100293 4512a23 4010513 200593 d00893 73 | function 0: par of functions 1, 1
10000937 | lui x18, 0x10000
92983 | lw x19, 0(x18)
98513 593 100613 1100893 73 a00513 1000893 73 e00893 73 | prints the number in x19 and a line feed
100893 73 | ends
10000937 | function 1: lui x18, 0x10000
92983 | lw x19, 0(x18)
198993 | addi x19, x19, 1
1392023 | sw x19, 0(x18)
100893 73 | ends
then
along 0 1x3 2x3 0x3 | Some(Done), line 0, \"2\\n\"
along 0 1 2 1 2 1 2 0x3 | Some(Done), line 0, \"1\\n\"

# One branch of a par writes two words of a global, low word first, and the other prints both as one number.
46454c41 2 26 3 1 1 8 0 0 | 38 words of code, 3 functions
0 40 0 | function 0 begins at word 0
13 40 1 | function 1 begins at word 19
1a 40 1 | function 2 begins at word 26
8 | global 0 has 8 bytes
0 0 4 0 | and begins with the word 0
10012023 100293 4512023 10010293 4512223 100293 4512423 200293 4512623 10010293 4512823 100293 4512a23 4010513 200593 d00893 73 | function 0: par of functions 1, 2
100893 73 | ends
10000937 | function 1: lui x18, 0x10000
200993 | addi x19, x0, 2
1392023 | sw x19, 0(x18)
100993 | addi x19, x0, 1
1392223 | sw x19, 4(x18)
100893 73 | ends
10000937 | function 2: lui x18, 0x10000
92503 | lw x10, 0(x18)
492583 | lw x11, 4(x18)
1200893 73 | appends a hexadecimal number
a00513 1000893 73 e00893 73 | prints '\\n'
100893 73 | ends
then
along 0 1 2x2 1 2 1 2 0 | Some(Done), line 0, \"2\\n\"

# A task that sends to main and prints, in the same proc.
46454c41 2 38 2 0 0 8 0 0 | 56 words of code, 2 functions
0 40 0 | function 0 begins at word 0
23 40 1 | function 1 begins at word 35
513 100593 600893 73 50913 | function 0: makes a channel of capacity 0 in x18
1212023 100513 10593 100613 c00893 73 | starts function 1 as a task
5212023 293 4512223 10010293 4512423 100293 4512623 4010513 100593 a00893 73 10012983 | receives from x18 into x19
98513 593 100613 1100893 73 a00513 1000893 73 e00893 73 | prints the number in x19 and a line feed
100893 73 | ends
12903 | function 1: lw x18, 0(x2)
500313 5212023 100293 4512223 10612023 10010293 4512423 100293 4512623 4010513 100593 a00893 73 | sends 5 on x18
7400513 1000893 73 e00893 73 | prints 't'
100893 73 | ends
then
along 0x8 | Some(Done), line 0, \"t5\\n\"
alone 8 | Some(Done), line 0, \"t5\\n\"

# An alt of two sends, before which two bytes are printed.
46454c41 2 2c 1 0 0 8 0 0 | 44 words of code, 1 functions
0 40 0 | function 0 begins at word 0
100513 100593 600893 73 50913 | function 0: makes a channel of capacity 1 in x18
100513 100593 600893 73 50993 | makes a channel of capacity 1 in x19
6600513 1000893 73 e00893 73 | prints 'f'
6700513 1000893 73 e00893 73 | prints 'g'
100313 | addi x6, x0, 1
5212023 100293 4512223 10612023 10010293 4512423 100293 4512623 | record 0: sends on x18
200313 | addi x6, x0, 2
5312823 100293 4512a23 10612223 10410293 4512c23 100293 4512e23 | record 1: sends on x19
4010513 200593 a00893 73 | talks by 2 records
100893 73 | ends
then
along 0x6 | Some(Done), line 0, \"fg\"

# A channel is given up while a task of the same proc waits on it.
46454c41 2 2d 3 0 0 8 0 1 | 45 words of code, 3 functions
0 40 0 | function 0 begins at word 0
1b 40 1 | function 1 begins at word 27
2b 40 1 | function 2 begins at word 43
513 100593 600893 73 50913 | function 0: makes a channel of capacity 0 in x18
1212023 100513 10593 100613 c00893 73 | starts function 1 as a task
10012023 200293 4512023 10010293 4512223 100293 4512423 4010513 100593 d00893 73 | par of functions 2
90513 | addi x10, x18, 0
700893 73 | gives the channel up
100893 73 | ends
12903 | function 1: lw x18, 0(x2)
100313 5212023 100293 4512223 10612023 10010293 4512423 100293 4512623 4010513 100593 a00893 73 | sends 1 on x18
100893 73 | ends
100893 73 | function 2: ends
16 7 | from word 22 on line 7
then
along 0x4 1 0 | Some(Trapped { trap: Busy, proc: 0, at: 5 }), line 7, \"\"
alone 6 | Some(Trapped { trap: Busy, proc: 0, at: 5 }), line 7, \"\"

# A send on nil.
46454c41 2 f 1 0 0 8 0 0 | 15 words of code, 1 functions
0 40 0 | function 0 begins at word 0
100313 4012023 100293 4512223 10612023 10010293 4512423 100293 4512623 4010513 100593 a00893 73 | function 0: sends 1 on x0
100893 73 | ends
then
along 0 | Some(Trapped { trap: Chan, proc: 0, at: 0 }), line 0, \"\"

# A send on a channel that was given up.
46454c41 2 17 1 0 0 8 0 0 | 23 words of code, 1 functions
0 40 0 | function 0 begins at word 0
513 100593 600893 73 50913 | function 0: makes a channel of capacity 0 in x18
90513 | addi x10, x18, 0
700893 73 | gives the channel up
100313 5212023 100293 4512223 10612023 10010293 4512423 100293 4512623 4010513 100593 a00893 73 | sends 1 on x18
100893 73 | ends
then
along 0x3 | Some(Trapped { trap: Chan, proc: 0, at: 2 }), line 0, \"\"

# Nil is given up.
46454c41 2 5 1 0 0 8 0 0 | 5 words of code, 1 functions
0 40 0 | function 0 begins at word 0
513 | function 0: addi x10, x0, 0
700893 73 | gives the channel up
100893 73 | ends
then
along 0x2 | Some(Done), line 0, \"\"

# Starts tasks of its own proc without end.
46454c41 2 9 2 0 0 8 0 0 | 9 words of code, 2 functions
0 40 0 | function 0 begins at word 0
7 40 1 | function 1 begins at word 7
12023 100513 10593 100613 c00893 73 | function 0: starts function 1 as a task
fe9ff06f | jal x0, -24
100893 73 | function 1: ends
then
along 0x1024 | Some(Trapped { trap: Tasks, proc: 0, at: 1023 }), line 0, \"\"

# Two blocks of 1,000,000 bytes.
46454c41 2 c 1 0 0 8 0 0 | 12 words of code, 1 functions
0 40 0 | function 0 begins at word 0
f4537 | function 0: lui x10, 0xf4
24050513 | addi x10, x10, 576
100593 | addi x11, x0, 1
400893 73 | asks a block
f4537 | lui x10, 0xf4
24050513 | addi x10, x10, 576
100593 | addi x11, x0, 1
400893 73 | asks a block
100893 73 | ends
then
along 0x2 | Some(Trapped { trap: Memory, proc: 0, at: 1 }), line 0, \"\"
alone 2 | Some(Trapped { trap: Memory, proc: 0, at: 1 }), line 0, \"\"

# Traps by its own number.
46454c41 2 6 1 0 0 8 0 1 | 6 words of code, 1 functions
0 40 0 | function 0 begins at word 0
800513 593 300893 73 | function 0: traps Check
100893 73 | ends
0 3 | from word 0 on line 3
then
along 0 | Some(Trapped { trap: Check, proc: 0, at: 0 }), line 3, \"\"

# Ends at once.
46454c41 2 2 1 0 0 8 0 0 | 2 words of code, 1 functions
0 40 0 | function 0 begins at word 0
100893 | function 0: addi x17, x0, 1
73 | ecall
then
fetches 2 | Some(Done), line 0, \"\"

# Its first word is no instruction.
46454c41 2 2 1 0 0 8 0 0 | 2 words of code, 1 functions
0 40 0 | function 0 begins at word 0
ffffffff | function 0: no instruction
73 | ecall
then
fetches 1 | Some(Trapped { trap: Illegal, proc: 0, at: 0 }), line 0, \"\"

# Two globals of 600,000 bytes.
46454c41 2 2 1 2 2 8 0 0 | 2 words of code, 1 functions
0 40 0 | function 0 begins at word 0
927c0 | global 0 has 600000 bytes
927c0 | global 1 has 600000 bytes
0 0 4 1 | and begins with the word 1
1 0 4 2 | and begins with the word 2
100893 73 | function 0: ends
then
along 0x0 | Some(Trapped { trap: Memory, proc: 0, at: 0 }), line 0, \"\"

# A par of two branches, the first of which waits in a par of its own; each prints a byte before it ends, and main comes last.
46454c41 2 45 5 0 0 8 0 0 | 69 words of code, 5 functions
0 40 0 | function 0 begins at word 0
18 40 1 | function 1 begins at word 24
30 40 1 | function 2 begins at word 48
37 40 1 | function 3 begins at word 55
3e 40 1 | function 4 begins at word 62
10012023 100293 4512023 10010293 4512223 100293 4512423 200293 4512623 10010293 4512823 100293 4512a23 4010513 200593 d00893 73 | function 0: par of functions 1, 2
6400513 1000893 73 e00893 73 | prints 'd'
100893 73 | ends
10012023 300293 4512023 10010293 4512223 100293 4512423 400293 4512623 10010293 4512823 100293 4512a23 4010513 200593 d00893 73 | function 1: par of functions 3, 4
6300513 1000893 73 e00893 73 | prints 'c'
100893 73 | ends
7800513 1000893 73 e00893 73 | function 2: prints 'x'
100893 73 | ends
6100513 1000893 73 e00893 73 | function 3: prints 'a'
100893 73 | ends
6200513 1000893 73 e00893 73 | function 4: prints 'b'
100893 73 | ends
then
along 0 1 2x2 3x2 4x2 1x2 0x2 | Some(Done), line 0, \"xabcd\"
along 0 1 4x2 3x2 1 2 1 2 0x2 | Some(Done), line 0, \"bacxd\"
alone 12 | Some(Done), line 0, \"xabcd\"
";

pub static CHOICE: &str = "\
# An alt of two receives, both of which can go: it prints which one went.
46454c41 2 3d 1 0 0 8 0 0 | 61 words of code, 1 functions
0 40 0 | function 0 begins at word 0
100513 100593 600893 73 50913 | function 0: makes a channel of capacity 1 in x18
100513 100593 600893 73 50993 | makes a channel of capacity 1 in x19
100313 5212023 100293 4512223 10612023 10010293 4512423 100293 4512623 4010513 100593 a00893 73 | sends 1 on x18
200313 5312023 100293 4512223 10612023 10010293 4512423 100293 4512623 4010513 100593 a00893 73 | sends 2 on x19
5212023 293 4512223 10010293 4512423 100293 4512623 | record 0: receives from x18
5312823 293 4512a23 10410293 4512c23 100293 4512e23 | record 1: receives from x19
4010513 200593 a00893 73 | talks by 2 records
6150513 | addi x10, x10, 97
1000893 73 | appends a byte
e00893 73 | prints
100893 73 | ends
then
alone 7 | Some(Done), line 0, \"a\"
";

pub static TASKS: &str = "\
# Two tasks beside main: the first prints 1 and 2, the other 3.
46454c41 2 21 3 0 0 8 0 0 | 33 words of code, 3 functions
0 40 0 | function 0 begins at word 0
e 40 1 | function 1 begins at word 14
1a 40 1 | function 2 begins at word 26
12023 100513 10593 100613 c00893 73 | function 0: starts function 1 as a task
12023 200513 10593 100613 c00893 73 | starts function 2 as a task
100893 73 | ends
3100513 1000893 73 e00893 73 | function 1: prints '1'
3200513 1000893 73 e00893 73 | prints '2'
100893 73 | ends
3300513 1000893 73 e00893 73 | function 2: prints '3'
100893 73 | ends
then
along 0x8 | Some(Done), line 0, \"123\"
alone 8 | Some(Done), line 0, \"123\"
";

pub static BRANCH_WITH_TASK: &str = "\
# A par of two branches, the first of which starts a task that outlives its first task.
46454c41 2 33 4 0 0 8 0 0 | 51 words of code, 4 functions
0 40 0 | function 0 begins at word 0
18 40 1 | function 1 begins at word 24
25 40 1 | function 2 begins at word 37
2c 40 1 | function 3 begins at word 44
10012023 100293 4512023 10010293 4512223 100293 4512423 200293 4512623 10010293 4512823 100293 4512a23 4010513 200593 d00893 73 | function 0: par of functions 1, 2
6400513 1000893 73 e00893 73 | prints 'd'
100893 73 | ends
12023 300513 10593 100613 c00893 73 | function 1: starts function 3 as a task
6100513 1000893 73 e00893 73 | prints 'a'
100893 73 | ends
6200513 1000893 73 e00893 73 | function 2: prints 'b'
100893 73 | ends
7400513 1000893 73 e00893 73 | function 3: prints 't'
100893 73 | ends
then
alone 10 | Some(Done), line 0, \"atbd\"
";

pub static FOREVER: &str = "\
# Its first word jumps to itself.
46454c41 2 2 1 0 0 8 0 0 | 2 words of code, 1 functions
0 40 0 | function 0 begins at word 0
6f | function 0: jal x0, 0
73 | ecall
then
fetches 134217729 | Some(Trapped { trap: Illegal, proc: 0, at: 0 }), line 0, \"\"
";
