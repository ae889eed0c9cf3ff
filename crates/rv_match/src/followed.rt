// Images whose harts follow operations, as types.

ghost use Rattle.al_event.specs.declared.act.Start.{Start};
ghost use Rattle.al_ir.specs.declared.ir.Ir.{Ir};
ghost use Rattle.rv_isa.specs.declared.image.Contents.{Contents};
ghost use Rattle.rv_match.specs.Laws.{Followed};

/// A program of operations and an image whose harts follow it step by step, from each start that there is.
pub trait FollowsOperations {
    ghost ir: { Ir };

    ghost image: { Contents };

    ghost is_start: { Start → Type 0 };

    ghost followed: { Followed ir image is_start };
}
