// A run along a schedule.

ghost use Rattle.std.specs.Prelude.{◌≡◌, [], Some, IfOk, IfErr};
ghost use Rattle.al_region.specs.Region.{IsRegionSize};
ghost use Rattle.al_world.specs.Step.{opening, run_from};
ghost use Rattle.al_script.specs.Scripts.{scripts};
ghost use Rattle.al_script.specs.Worlds.{world_of};
ghost use Rattle.al_script.specs.Stops.{IsStopped};

use crate::script::Function;
use crate::step::{Next, opening, step};
use crate::world::World;
use al_base::NoMemory;
use al_event::{Entry, Start};
use std::alloc::Global;

/// Why there is no world after a schedule.
#[derive(Debug, Clone, Copy, PartialEq, Eq)]
pub enum Stop {
    /// There was no memory.
    NoMemory,
    /// Entry number `at`, from 0, is the first that is not permitted.
    NotPermitted { at: usize },
    /// At entry number `at`, from 0, a number of the world might go past 32 bits.
    TooLarge { at: usize },
}

/// The world after a schedule, from the first world of a program that begins with a function, in a region of so many bytes.
///
/// The region is a whole number of MiB from 1 to 256, and no globals lie in it.
pub fn run_script(
    alloc: Global,
    script: &[Function],
    region: u32,
    start: &Start,
    schedule: &[Entry],
) -> Result<World, Stop>
    requires { IsRegionSize region }
    ensures ran { IfOk result (λ w. run_from (scripts script.now) region [] start.now schedule.now ≡ Some (world_of script.now w)) }
    ensures stopped { IfErr result (IsStopped script.now (opening (scripts script.now) region [] start.now) schedule.now) }
{
    let mut world = match opening(alloc, region, start) {
        Ok(world) => world,
        Err(NoMemory) => return Err(Stop::NoMemory),
    };
    for (at, entry) in schedule.iter().enumerate() {
        match step(alloc, script, world, *entry) {
            Ok(Next::To(next)) => world = next,
            Ok(Next::Refused) => return Err(Stop::NotPermitted { at }),
            Ok(Next::TooLarge) => return Err(Stop::TooLarge { at }),
            Err(NoMemory) => return Err(Stop::NoMemory),
        }
    }
    Ok(world)
}
