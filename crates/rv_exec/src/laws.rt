//! Harts in a world.

ghost use Rattle.std.specs.Prelude.{◌≡◌, ◌≤◌, ◌^◌, ℕ, List, length};
ghost use Rattle.al_event.specs.declared.act.Act.{Act};
ghost use Rattle.al_world.specs.Control.{fitted};
ghost use Rattle.rv_isa.specs.declared.image.Contents.{Contents};
ghost use Rattle.rv_exec.specs.Answers.{CanAnswer, HasAnswer};
ghost use Rattle.rv_exec.specs.Laws.{NeverComesToBound};
ghost use Rattle.rv_exec.specs.Machine.{machine};
ghost use Rattle.rv_exec.specs.Proper.{propriety};
ghost use Rattle.al_world.specs.Answers.{StaysProper};

/// An answer that fits its action, as each answer of a world does, is one that the task which asked can go on with.
pub fn fitting_answers_can_be_taken()
    ensures { (act : Act) (words : List ℕ) → HasAnswer act → fitted act words ≡ words → CanAnswer act words }
{}

/// The bound on the words of a stretch, which the definition of what a hart asks has, is never come to: between two counted
/// jumps the pc only grows, and the counted jumps are bounded.
pub fn stretches_end()
    ensures { (image : Contents) → length image.code ≤ 2 ^ 23 → NeverComesToBound image }
{}

/// Harts whose registers and stack words have 32 bits stay so and ask properly: a send has as many words as its branch says,
/// of 32 bits each. So the laws on what a world answers hold of worlds of harts.
pub fn harts_stay_proper()
    ensures { (image : Contents) → length image.code ≤ 2 ^ 23 → StaysProper (machine image) propriety }
{}
