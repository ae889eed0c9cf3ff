// Laws over every schedule, for any kind of control.

ghost use Rattle.al_event.specs.declared.act.Start.{Start};
ghost use Rattle.al_world.specs.Control.{kind_of};
ghost use Rattle.al_world.specs.Alike.{SimulatesFrom};
ghost use Rattle.al_until_last.specs.UntilLast.{HaveNoAnswer};

use crate::matches::MatchesUntilLast;
use al_world::Tasks;

/// Tasks that correspond one by one up to actions without an answer have the same runs, under every schedule.
pub fn runs_are_alike_until_last<K: MatchesUntilLast<L>, L: Tasks>()
    ensures { (start : Start) → K.relation.IsStart start → SimulatesFrom (kind_of K.ask K.resume K.start K.fresh) (kind_of L.ask L.resume L.start L.fresh) start }
{}

/// In each world that a run comes to, an entry tells an answer only to tasks that wait for an action which has one: no task
/// goes on behind a trap, its end or the end of the program.
pub fn last_actions_have_no_answer<K: Tasks>()
    ensures { HaveNoAnswer (kind_of K.ask K.resume K.start K.fresh) }
{}
