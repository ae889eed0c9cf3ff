// The law on harts that follow operations.

ghost use Rattle.al_event.specs.declared.act.Start.{Start};
ghost use Rattle.al_ir.specs.Meaning.{tasks};
ghost use Rattle.al_world.specs.Alike.{SimulatesFrom};
ghost use Rattle.rv_exec.specs.Machine.{machine};

use crate::followed::FollowsOperations;

/// Where an image's harts follow the operations of a program step by step, its runs are the program's: from each start, for
/// every region, all globals and every schedule.
pub fn harts_that_follow_are_alike<F: FollowsOperations>()
    ensures { (s : Start) → F.is_start s → SimulatesFrom (tasks F.ir) (machine F.image) s }
{}
