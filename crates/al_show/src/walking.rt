//! A program that is walked along the entries of a schedule.
ghost use Rattle.std.specs.Prelude.{◌≡◌, ◌≤◌, [], length, IfOk, IfErr};
ghost use Rattle.al_region.specs.Region.{IsRegionSize};
ghost use Rattle.al_typed.specs.Layout.{IsLaidOut};
ghost use Rattle.al_counts.specs.Counts.{most_entries};
ghost use Rattle.al_step.specs.Sources.{Stands, IsSound};
ghost use Rattle.al_show.specs.Room.{HasRoom};
ghost use Rattle.al_show.specs.Walks.{GoesOn, StopsHere, GoesAlong, StopsAlong, Stops, StopsShow, IsShown};

use al_base::NoMemory;
use al_control::Unmade;
use al_event::{Bytes, Entry};
use al_step::{Source, Stepped, start, step, text};
use al_typed::Program;
use std::alloc::Global;

/// Why a program was not walked along all entries.
#[derive(Clone, Copy, Debug, PartialEq, Eq)]
pub enum WalkStop {
    /// The first entry that is not permitted, counted from 0.
    NotPermitted(u64),
    /// A number on the way has no room in a word.
    TooLarge,
    NoMemory,
}

impl From<Unmade> for WalkStop {
    ghost use Rattle.std.specs.Prelude.{◌≡◌};
    ghost use Rattle.al_show.specs.Stops.{of_unmade};

    ghost from_gives = { λ unmade stop. stop ≡ of_unmade unmade };

    fn from(unmade: Unmade) -> WalkStop {
        match unmade {
            Unmade::NoMemory => WalkStop::NoMemory,
            Unmade::TooLarge => WalkStop::TooLarge,
        }
    }
}

impl From<NoMemory> for WalkStop {
    ghost use Rattle.std.specs.Prelude.{◌≡◌};
    ghost use Rattle.al_show.specs.declared.walking.WalkStop.TheVariants as stops;

    ghost from_gives = { λ _ stop. stop ≡ stops.NoMemory };

    fn from(_: NoMemory) -> WalkStop {
        WalkStop::NoMemory
    }
}

/// A source after one entry more, which is that of number `at`.
fn walk_one<'p>(
    alloc: Global,
    source: Source<'p>,
    entry: Entry,
    at: u64,
) -> Result<Source<'p>, WalkStop>
    requires { IsSound source }
    ensures goes { IfOk result (GoesOn source.entry entry) }
    ensures stop { IfErr result (StopsHere source.entry entry at) }
{
    let stepped = step(alloc, source, entry)?;
    match stepped {
        Stepped::Made(source) => Ok(source),
        Stepped::NotPermitted(_) => Err(WalkStop::NotPermitted(at)),
        Stepped::Over(_) => Err(WalkStop::NotPermitted(at)),
    }
}

/// A first source after these entries.
fn walk_on<'p>(alloc: Global, source: Source<'p>, entries: &[Entry]) -> Result<Source<'p>, WalkStop>
    requires sound { IsSound source }
    requires first { source.entries ≡ [] }
    ensures goes { IfOk result (GoesAlong source.entry entries.now) }
    ensures stop { IfErr result (StopsAlong source.entry entries.now) }
{
    let mut source = source;
    for (at, entry) in entries.iter().enumerate() {
        source = walk_one(alloc, source, *entry, at as u64)?;
    }
    Ok(source)
}

/// The source world of a program after these entries, in a region of so many bytes.
pub fn walk<'p>(
    alloc: Global,
    p: &'p Program,
    region: u32,
    entries: &[Entry],
) -> Result<Source<'p>, WalkStop>
    requires laid_out { IsLaidOut p.now.aggregates }
    requires region { IsRegionSize region }
    ensures sound { IfOk result IsSound }
    ensures stands { IfOk result (Stands p.now region) }
    ensures entries { IfOk result (λ source. source.entries ≡ entries.now) }
    ensures stop { IfErr result (Stops p.now region entries.now) }
{
    let source = start(alloc, p, region)?;
    walk_on(alloc, source, entries)
}

/// Why the world of a program after all entries is not shown.
#[derive(Clone, Copy, Debug, PartialEq, Eq)]
pub enum ShowStop {
    /// The first entry that is not permitted, counted from 0.
    NotPermitted(u64),
    NoMemory,
}

impl From<NoMemory> for ShowStop {
    ghost use Rattle.std.specs.Prelude.{◌≡◌};
    ghost use Rattle.al_show.specs.declared.walking.ShowStop.TheVariants as stops;

    ghost from_gives = { λ _ stop. stop ≡ stops.NoMemory };

    fn from(_: NoMemory) -> ShowStop {
        ShowStop::NoMemory
    }
}

/// The text of the source world of a program after these entries, where no number on the way lacks room.
#[tactic(auto, using(crate::proofs::Room::never_stops))]
pub fn shown(alloc: Global, p: &Program, region: u32, entries: &[Entry]) -> Result<Bytes, ShowStop>
    requires laid_out { IsLaidOut p.now.aggregates }
    requires room { HasRoom p.now }
    requires region { IsRegionSize region }
    requires few { length entries.now ≤ most_entries }
    ensures shown { IfOk result (IsShown p.now region entries.now) }
    ensures stop { IfErr result (StopsShow p.now region entries.now) }
{
    let source = match walk(alloc, p, region, entries) {
        Ok(source) => source,
        Err(WalkStop::NotPermitted(number)) => return Err(ShowStop::NotPermitted(number)),
        Err(WalkStop::TooLarge) => unreachable!(),
        Err(WalkStop::NoMemory) => return Err(ShowStop::NoMemory),
    };
    let text = text(alloc, &source)?;
    Ok(text)
}
