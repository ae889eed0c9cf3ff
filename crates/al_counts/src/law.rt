// The law on counts, for any kind of control.

ghost use Rattle.al_world.specs.Control.{kind_of};
ghost use Rattle.al_counts.specs.Counts.{AreCounted, HaveRoom};

use al_world::Tasks;

/// In each world that a run comes to, the entries bound how many procs, tasks and channels there are. So in a run of at most
/// 2^26 entries no action brings one of these numbers past 32 bits.
pub fn counts_have_room<K: Tasks>()
    ensures counted { AreCounted (kind_of K.ask K.resume K.start K.fresh) }
    ensures room { HaveRoom (kind_of K.ask K.resume K.start K.fresh) }
{}
