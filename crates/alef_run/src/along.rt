//! A world goes along a schedule, entry by entry, and what it puts out is written now and then.

ghost use Rattle.std.specs.Prelude.{◌≡◌, ◌+◌, ◌≤◌, ◌^◌, true, false, IfOk, All, length, min};
ghost use Rattle.al_core.specs.History.{opening, over_of, away};
ghost use Rattle.al_rounds.specs.Later.{followed_by};
ghost use Rattle.al_trace.specs.Schedule.{IsEntry};
ghost use Rattle.alef_run.specs.Rounds.{history_along, IsLegal, round_length};
ghost use Rattle.alef_run.specs.Along.{MakesFirst, StopsAlong, WentTo, end_by};

use al_base::{NoMemory, Over};
use al_core::{StepFault, World};
use al_event::Entry;
use al_host::Sink;
use alef_texts::{End, write_all};

/// After at most so many entries what was put out is written.
const ROUND_LENGTH: usize = 65536;

/// How many entries there are after the next round.
fn next_count(made: usize, limit: usize) -> usize
    requires made { made ≤ limit }
    requires few { limit ≤ 2 ^ 26 }
    ensures { result ≡ min limit (made + round_length) }
{
    limit.min(made + ROUND_LENGTH)
}

/// Makes these entries one after the other, and says whether all of them are permitted. The first one that is not stops it.
fn make_entries(world: &mut World, entries: &[Entry]) -> Result<bool, NoMemory>
    requires here { away world.old ≡ 0 }
    requires room { length world.old.entries + length entries.now ≤ world.old.quota }
    ensures first { MakesFirst entries.now world.old world.new }
    ensures all { IfOk result (λ all. all ≡ true → world.new ≡ followed_by entries.now world.old) }
    ensures stop { IfOk result (λ all. all ≡ false → StopsAlong entries.now world.old world.new) }
{
    for entry in entries {
        match world.step(*entry) {
            Ok(()) => (),
            Err(StepFault::NotPermitted) => return Ok(false),
            Err(StepFault::Over) => return Ok(false),
            Err(StepFault::NoMemory) => return Err(NoMemory),
        }
    }
    Ok(true)
}

/// How a world ended that has all entries of its schedule.
fn end_of(world: &World) -> End
    ensures { result ≡ end_by (over_of world.now) }
{
    match world.over() {
        Some(over) => End::Ran(over),
        None => End::Ran(Over::Spent),
    }
}

/// Runs the first world of an image along a schedule, up to the first entry that is not permitted. What is put out is written and
/// dropped now and then.
pub(crate) fn go_along<K: Sink>(world: World, entries: &[Entry], out: &mut K) -> (World, End)
    requires first { world ≡ opening world.image world.region (length entries.now) }
    requires few { length entries.now ≤ 2 ^ 26 }
    requires entries { All IsEntry entries.now }
    ensures image { result.0.image ≡ world.image }
    ensures region { result.0.region ≡ world.region }
    ensures legal { IsLegal 64 (history_along world.image world.region (length entries.now) result.0.entries) }
    ensures went { WentTo (history_along world.image world.region (length entries.now) result.0.entries) entries.now result.1 (K.got out.old) (K.got out.new) (K.faults out.old) (K.faults out.new) }
{
    let mut world = world;
    let mut made = world.entries().len();
    if made == entries.len() {
        let end = end_of(&world);
        return (world, end);
    }
    loop {
        let count = next_count(made, entries.len());
        world.allow(count as u64);
        let answer = make_entries(&mut world, &entries[made..count]);
        made = world.entries().len();
        let all = match answer {
            Ok(all) => all,
            Err(NoMemory) => return (world, End::NoMemory),
        };
        match write_all(out, world.output()) {
            Ok(()) => (),
            Err(_) => return (world, End::WriteFault),
        }
        world.clear_output();
        if !all {
            return (world, End::BadEntry(made as u64));
        }
        if made == entries.len() {
            let end = end_of(&world);
            return (world, end);
        }
    }
}
