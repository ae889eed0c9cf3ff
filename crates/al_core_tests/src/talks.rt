// Talks one after another on one book, each value being one word.

use crate::texts::{halves, kept, number, numbers, parts};
use al_base::NoMemory;
use al_event::{Branch, Branches, Words};
use al_items::Items;
use alt_select::{Fired, block, fire, ready};
use chan_book::{Book, ChanFault};
use std::alloc::Global;
use std::process::Abort;

// A branch: a send of a word on a channel, or a receive.
#[derive(Clone, Copy)]
enum Side {
    Send(u32, u32),
    Receive(u32),
}

use Side::{Receive, Send};

// What a talk comes to. A talk that goes has so many pairs, goes by a branch, receives a word (0 for none), and wakes a task
// by one of its branches, which receives a word (0 for none).
#[derive(Clone, Copy)]
enum Answer {
    Traps,
    Blocks,
    Goes(u32, u32, u32),
    Wakes(u32, u32, u32, (u32, u32, u32)),
}

use Answer::{Blocks, Goes, Traps, Wakes};

fn one_word(alloc: Global, word: u32) -> Result<Words, NoMemory> {
    Items::from_slice(alloc, &[word])
}

fn branches_of(alloc: Global, sides: &[Side]) -> Result<Branches, NoMemory> {
    let mut branches = Items::new(alloc);
    for side in sides {
        branches.push(match *side {
            Send(chan, word) => Branch {
                chan,
                words: 1,
                send: Some(one_word(alloc, word)?),
            },
            Receive(chan) => Branch {
                chan,
                words: 1,
                send: None,
            },
        })?;
    }
    Ok(branches)
}

fn crosses_threads<T: std::marker::Send + Drop>(_value: T) {}

// The one word, or 0 where there is none.
fn word_of(words: &Words) -> u32 {
    words.get(0).copied().unwrap_or(0)
}

fn told(fired: &Fired) -> (u32, u32, Option<(u32, u32, u32)>) {
    let woke = match &fired.woke {
        Some(woke) => Some((woke.task, woke.branch, word_of(&woke.got))),
        None => None,
    };
    (fired.branch, word_of(&fired.got), woke)
}

fn talk(
    rt: &impl Abort,
    alloc: Global,
    book: &mut Book,
    task: u32,
    sides: &[Side],
    pick: u16,
    answer: Answer,
) -> Result<(), NoMemory> {
    let branches = branches_of(alloc, sides)?;
    let count = branches.len();
    assert!(rt; 0 < count && count <= 64);
    let pairs = match ready(book, branches.as_slice()) {
        Ok(pairs) => pairs,
        Err(fault) => {
            assert_eq!(rt; fault, ChanFault::Chan);
            assert!(rt; matches!(answer, Traps));
            return Ok(());
        }
    };
    if pairs == 0 {
        assert!(rt; matches!(answer, Blocks));
        assert!(rt; task < book.room());
        assert!(rt; !book.is_blocked(task));
        block(book, task, branches);
        return Ok(());
    }
    assert!(rt; u32::from(pick) < pairs);
    let fired = fire(book, task, branches, pick);
    match answer {
        Goes(all, branch, word) => {
            assert_eq!(rt; pairs, all);
            assert_eq!(rt; told(&fired), (branch, word, None));
        }
        Wakes(all, branch, word, woke) => {
            assert_eq!(rt; pairs, all);
            assert_eq!(rt; told(&fired), (branch, word, Some(woke)));
        }
        Traps | Blocks => panic!(rt; "task {task} was to go"),
    }
    crosses_threads(fired);
    Ok(())
}

// How many tasks wait for a channel.
fn waiting_for(book: &Book, chan: u32) -> Option<u32> {
    let shape = book.shape(chan)?;
    Some(shape.waiting)
}

fn make(rt: &impl Abort, book: &mut Book, capacities: &[u32]) -> Result<(), NoMemory> {
    for capacity in capacities {
        assert!(rt; book.made() < u32::MAX);
        let _number = book.make(*capacity, 1)?;
    }
    Ok(())
}

// A book with channels of these capacities.
fn book_of(rt: &impl Abort, alloc: Global, capacities: &[u32]) -> Result<Book, NoMemory> {
    let mut book = Book::new(alloc, 1_024)?;
    match make(rt, &mut book, capacities) {
        Ok(()) => Ok(book),
        Err(no_memory) => Err(kept(no_memory, book)),
    }
}

/// The sides of a talk: `2` receives from channel 2, and `2=7` sends 7 on it.
fn sides_of(rt: &impl Abort, alloc: Global, text: &str) -> Result<Vec<Side>, NoMemory> {
    let mut sides = Vec::new(alloc);
    for part in text.split(' ') {
        sides.push(match part.split_once('=') {
            Some((chan, word)) => Send(number(rt, chan), number(rt, word)),
            None => Receive(number(rt, part)),
        })?;
    }
    Ok(sides)
}

fn answer_of(rt: &impl Abort, alloc: Global, text: &str) -> Result<Answer, NoMemory> {
    if text == "blocks" {
        return Ok(Blocks);
    }
    if text == "traps" {
        return Ok(Traps);
    }
    let (kind, rest) = parts(rt, text);
    let numbers = numbers(rt, alloc, rest)?;
    match numbers.as_slice() {
        [pairs, branch, word] => {
            assert_eq!(rt; kind, "goes");
            Ok(Goes(*pairs, *branch, *word))
        }
        [pairs, branch, word, task, by, got] => {
            assert_eq!(rt; kind, "wakes");
            Ok(Wakes(*pairs, *branch, *word, (*task, *by, *got)))
        }
        _ => panic!(rt; "no answer: {text}"),
    }
}

/// A talk: its task, its sides, the number of the pair that it takes, and what it comes to.
fn talk_by(rt: &impl Abort, alloc: Global, book: &mut Book, line: &str) -> Result<(), NoMemory> {
    let (task, rest) = halves(rt, line);
    let (sides, rest) = halves(rt, rest);
    let (pick, answer) = halves(rt, rest);
    let sides = sides_of(rt, alloc, sides)?;
    let answer = answer_of(rt, alloc, answer)?;
    let pick = (number(rt, pick) % 65_536) as u16;
    talk(
        rt,
        alloc,
        book,
        number(rt, task),
        sides.as_slice(),
        pick,
        answer,
    )
}

fn run(rt: &impl Abort, alloc: Global, book: &mut Book, talks: &str) -> Result<(), NoMemory> {
    for line in talks.lines() {
        talk_by(rt, alloc, book, line)?;
    }
    Ok(())
}

/// Values come in the order of their sends, into a buffer of two.
static BUFFERED: &str = "\
0 | 1=1 | 0 | goes 1 0 0
0 | 1=2 | 0 | goes 1 0 0
0 | 1=3 | 0 | blocks
1 | 1 | 0 | wakes 1 0 1 0 0 0
1 | 1 | 0 | goes 1 0 2
1 | 1 | 0 | goes 1 0 3
1 | 1 | 0 | blocks
0 | 1=4 | 0 | wakes 1 0 0 1 0 4
";

/// Three sends wait for a full buffer.
static FULL: &str = "\
0 | 1=10 | 0 | goes 1 0 0
1 | 1=11 | 0 | blocks
2 | 1=12 | 0 | blocks
3 | 1=13 | 0 | blocks
0 | 1 | 0 | wakes 1 0 10 1 0 0
0 | 1 | 0 | wakes 1 0 11 2 0 0
0 | 1 | 0 | wakes 1 0 12 3 0 0
0 | 1 | 0 | goes 1 0 13
";

/// One channel stands twice in an alt, and then in both directions.
static TWICE: &str = "\
0 | 1 1 | 0 | blocks
1 | 1=5 | 1 | wakes 2 0 0 0 1 5
0 | 1 1 | 0 | blocks
1 | 1=6 1=7 | 2 | wakes 4 1 0 0 0 7
0 | 1=7 1 | 0 | blocks
1 | 1 1=8 | 1 | wakes 2 1 0 0 1 8
0 | 1=7 1 | 0 | blocks
1 | 1 1=8 | 0 | wakes 2 0 7 0 0 0
";

/// Several channels, the third with a buffer.
static SEVERAL: &str = "\
0 | 1 2 3 | 0 | blocks
1 | 2 2 | 0 | blocks
";

/// The branches that did not go wait no more.
static GOES_BY_SECOND: &str = "\
2 | 2=20 | 0 | wakes 3 0 0 0 1 20
";

static AND_THEN: &str = "\
2 | 1=21 | 0 | blocks
0 | 3=22 | 0 | goes 1 0 0
0 | 3 1 | 1 | wakes 2 1 21 2 0 0
0 | 2=23 | 1 | wakes 2 0 0 1 1 23
";

/// Channels that can not be used: nil, none of the book, and one of two words. Then a task waits on two channels.
static WRONG: &str = "\
0 | 0 | 0 | traps
0 | 4=1 | 0 | traps
0 | 3=1 | 0 | traps
0 | 2 0 | 0 | traps
0 | 1=9 | 0 | goes 1 0 0
1 | 1=8 2 | 0 | blocks
";

static WAKES_IT: &str = "\
0 | 2=7 | 0 | wakes 1 0 0 1 1 7
";

static GIVEN_UP: &str = "\
0 | 1 | 0 | traps
";

/// Runs talks on a book with channels of these capacities.
fn run_anew(
    rt: &impl Abort,
    alloc: Global,
    capacities: &[u32],
    talks: &str,
) -> Result<(), NoMemory> {
    let mut book = book_of(rt, alloc, capacities)?;
    let done = run(rt, alloc, &mut book, talks);
    kept(done, book)
}

#[test]
fn values_come_in_the_order_of_their_sends(rt: HostRuntime) -> Result<(), NoMemory> {
    run_anew(&rt, rt.alloc(), &[2], BUFFERED)?;
    run_anew(&rt, rt.alloc(), &[1], FULL)
}

/// Compares how many tasks wait for the first channels.
fn waiting(rt: &impl Abort, book: &Book, tasks: &[u32]) {
    let mut chan = 1u32;
    for count in tasks {
        assert_eq!(rt; waiting_for(book, chan), Some(*count), "channel {chan}");
        chan = chan.wrapping_add(1);
    }
}

fn talk_on_several(rt: &impl Abort, alloc: Global, book: &mut Book) -> Result<(), NoMemory> {
    run(rt, alloc, book, SEVERAL)?;
    waiting(rt, book, &[1, 2, 1]);
    run(rt, alloc, book, GOES_BY_SECOND)?;
    waiting(rt, book, &[0, 1, 0]);
    run(rt, alloc, book, AND_THEN)?;
    assert_eq!(rt; book.give_up(1), Ok(()));
    assert_eq!(rt; book.give_up(3), Ok(()));
    Ok(())
}

#[test]
fn alts_go_once_by_the_pair_that_was_picked(rt: HostRuntime) -> Result<(), NoMemory> {
    run_anew(&rt, rt.alloc(), &[0], TWICE)?;
    let mut book = book_of(&rt, rt.alloc(), &[0, 0, 1])?;
    let done = talk_on_several(&rt, rt.alloc(), &mut book);
    kept(done, book)
}

fn talk_on_wrong(rt: &impl Abort, alloc: Global, book: &mut Book) -> Result<(), NoMemory> {
    assert!(rt; book.made() < u32::MAX);
    assert_eq!(rt; book.make(1, 2)?, 3);
    run(rt, alloc, book, WRONG)?;
    assert_eq!(rt; book.give_up(1), Err(ChanFault::Busy));
    assert_eq!(rt; book.give_up(2), Err(ChanFault::Busy));
    run(rt, alloc, book, WAKES_IT)?;
    // with a value in it
    assert_eq!(rt; book.give_up(1), Ok(()));
    run(rt, alloc, book, GIVEN_UP)
}

#[test]
fn talks_trap_where_a_channel_can_not_be_used(rt: HostRuntime) -> Result<(), NoMemory> {
    let mut book = book_of(&rt, rt.alloc(), &[1, 0])?;
    let done = talk_on_wrong(&rt, rt.alloc(), &mut book);
    kept(done, book)
}

// Tasks from one number up to another wait with 64 branches each on a channel.
fn crowd(
    rt: &impl Abort,
    alloc: Global,
    book: &mut Book,
    tasks: (u32, u32),
    chan: u32,
) -> Result<(), NoMemory> {
    for task in tasks.0..tasks.1 {
        talk(rt, alloc, book, task, &[Receive(chan); 64], 0, Blocks)?;
    }
    Ok(())
}

fn talk_by_many_pairs(rt: &impl Abort, alloc: Global, book: &mut Book) -> Result<(), NoMemory> {
    crowd(rt, alloc, book, (0, 1_023), 1)?;
    let sends = [Send(1, 1), Send(1, 2)];
    let last = Wakes(65_536, 1, 0, (0, 63, 2));
    talk(rt, alloc, book, 1_023, &sends, 65_535, last)?;
    let next = Wakes(65_536, 0, 0, (1, 0, 1));
    talk(rt, alloc, book, 1_023, &sends, 0, next)
}

#[test]
fn alts_may_have_64_branches_and_65536_pairs(rt: HostRuntime) -> Result<(), NoMemory> {
    let mut book = book_of(&rt, rt.alloc(), &[0, 0])?;
    let done = talk_by_many_pairs(&rt, rt.alloc(), &mut book);
    kept(done, book)
}

fn one_round(rt: &impl Abort, alloc: Global, book: &mut Book, round: u32) -> Result<(), NoMemory> {
    let both = [Receive(1), Receive(2)];
    talk(rt, alloc, book, 0, &both, 0, Blocks)?;
    let wakes = Wakes(1, 0, 0, (0, 0, round));
    talk(rt, alloc, book, 1, &[Send(1, round)], 0, wakes)?;
    talk(rt, alloc, book, 0, &[Send(2, round)], 0, Goes(1, 0, 0))?;
    talk(rt, alloc, book, 1, &[Receive(2)], 0, Goes(1, 0, round))
}

// Talks on one channel, with and without a buffer, while tasks from 2 up to an end wait with 64 branches each on
// another.
fn rounds(rt: &impl Abort, alloc: Global, book: &mut Book, end: u32) -> Result<(), NoMemory> {
    crowd(rt, alloc, book, (2, end), 3)?;
    for round in 0..50_000u32 {
        one_round(rt, alloc, book, round)?;
    }
    Ok(())
}

fn talk_beside(rt: &impl Abort, alloc: Global, end: u32) -> Result<(), NoMemory> {
    let mut book = book_of(rt, alloc, &[0, 4, 0])?;
    let done = rounds(rt, alloc, &mut book, end);
    kept(done, book)
}

#[test]
fn talks_go_beside_2_blocked_tasks(rt: HostRuntime) -> Result<(), NoMemory> {
    talk_beside(&rt, rt.alloc(), 4)
}

#[test]
fn talks_go_beside_1000_blocked_tasks(rt: HostRuntime) -> Result<(), NoMemory> {
    talk_beside(&rt, rt.alloc(), 1_002)
}

// Of 1,024 tasks all but the last block with 64 branches each on one channel; the last then talks to each of them, by the
// last of all pairs.
fn wake_all(rt: &impl Abort, alloc: Global, book: &mut Book) -> Result<(), NoMemory> {
    crowd(rt, alloc, book, (0, 1_023), 1)?;
    for left in (1..1_024u16).rev() {
        let pairs = 64 * left;
        let task = u32::from(left - 1);
        let last = Wakes(u32::from(pairs), 0, 0, (task, 63, task));
        talk(rt, alloc, book, 1_023, &[Send(1, task)], pairs - 1, last)?;
    }
    assert_eq!(rt; waiting_for(book, 1), Some(0));
    Ok(())
}

#[test]
fn tasks_with_64_branches_each_are_woken(rt: HostRuntime) -> Result<(), NoMemory> {
    let mut book = book_of(&rt, rt.alloc(), &[0])?;
    let done = wake_all(&rt, rt.alloc(), &mut book);
    kept(done, book)
}
