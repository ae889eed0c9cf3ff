//! A task ends.

ghost use Rattle.std.specs.Prelude.{◌≡◌, ℕ, None};
ghost use Rattle.al_event.specs.declared.act.Act.TheVariants as acts;
ghost use Rattle.rv_isa.specs.declared.image.Contents.{Contents};
ghost use Rattle.al_core.specs.Acting.{Posed, IsDone};
ghost use Rattle.al_core.specs.Preparing.{IsPosed};

use crate::machinery::Machinery;

impl Machinery {
    /// The task ends, and with it its proc where it was the last one. A task that waited for that proc alone goes on.
    pub fn finish_task(&mut self, slot: u32)
        requires { IsPosed acts.End slot self.old }
        ensures { (image : Contents) (P : Posed image slot acts.End self.old) → IsDone image slot acts.End self.old P 0 None self.new }
    {
        let ended = self.tasks.end(slot);
        if let Some(parent) = ended.woke {
            self.tasks.answer(parent, &[]);
        }
    }
}
