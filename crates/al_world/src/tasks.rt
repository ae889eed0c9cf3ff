// Kinds of control as types, for laws over any kind.

ghost use Rattle.std.specs.Prelude.{ℕ, List};
ghost use Rattle.al_event.specs.declared.act.Start.{Start};
ghost use Rattle.al_world.specs.Control.{Asked, kind_of};
ghost use Rattle.al_world.specs.Alike.{Relation, Alike};
ghost use Rattle.al_world.specs.Answers.{Propriety, StaysProper};

/// A kind of control: what its tasks ask next, and how they go on with an answer. Its types are those of controls and of
/// a proc's private globals.
pub trait Tasks {
    type Control;

    type Privates;

    ghost ask: { Self.Control → Self.Privates → Asked Self.Control Self.Privates };

    ghost resume: { Self.Control → List ℕ → Self.Control };

    ghost start: { Start → Self.Control };

    ghost fresh: { Self.Privates };
}

/// A kind whose tasks correspond one by one with those of another.
pub trait Matches<L: Tasks>: Tasks {
    ghost relation: { Relation Self.Control L.Control Self.Privates L.Privates };

    ghost alike: { Alike (kind_of Self.ask Self.resume Self.start Self.fresh) (kind_of L.ask L.resume L.start L.fresh) relation };
}

/// A kind whose tasks ask properly: each send has as many words as its branch says, of 32 bits each.
pub trait Proper: Tasks {
    ghost propriety: { Propriety Self.Control Self.Privates };

    ghost stays: { StaysProper (kind_of Self.ask Self.resume Self.start Self.fresh) propriety };
}
