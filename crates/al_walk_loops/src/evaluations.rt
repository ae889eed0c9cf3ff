//! Expressions that are to be evaluated.
ghost use Rattle.std.specs.Prelude.{◌≡◌, IfOk};
ghost use Rattle.al_meaning.specs.Evaluate as spec;
ghost use Rattle.al_meaning.specs.Here as here;
ghost use Rattle.al_meaning.specs.Items as item;
ghost use Rattle.al_control.specs.Models.{here_of, work_of};

use al_base::NoMemory;
use al_control::{Here, ValueStage, Work, with_work};
use al_convert::is_void;
use al_typed::TExpr;

/// An expression that is to be evaluated.
pub fn evaluation<'p>(e: &'p TExpr) -> Work<'p>
    ensures { work_of result ≡ item.Eval e.now }
{
    Work::Value(ValueStage::Eval, e)
}

/// An expression whose value is dropped, where it has one, before the rest.
pub fn with_dropped<'p>(e: &'p TExpr, h: Here<'p>) -> Result<Here<'p>, NoMemory>
    ensures { IfOk result (λ r. here_of r ≡ here.with_work (spec.and_dropped e.now) (here_of h.entry)) }
{
    if is_void(e.ty()) {
        with_work(h, evaluation(e))
    } else {
        let h = with_work(h, Work::Forget)?;
        with_work(h, evaluation(e))
    }
}
