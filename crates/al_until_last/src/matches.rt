// Kinds that correspond, as types.

ghost use Rattle.al_world.specs.Control.{kind_of};
ghost use Rattle.al_world.specs.Alike.{Relation};
ghost use Rattle.al_until_last.specs.UntilLast.{AlikeUntilLast};

use al_world::Tasks;

/// A kind whose tasks correspond one by one with those of another, up to their last action: behind a trap, say, the one may
/// have a register and the other a slot that nothing was written to.
pub trait MatchesUntilLast<L: Tasks>: Tasks {
    ghost relation: { Relation Self.Control L.Control Self.Privates L.Privates };

    ghost alike: { AlikeUntilLast (kind_of Self.ask Self.resume Self.start Self.fresh) (kind_of L.ask L.resume L.start L.fresh) relation };
}
