//! Returns from the function at hand.
ghost use Rattle.std.specs.Prelude.{◌≡◌, ◌++◌, OnOk};
ghost use Rattle.al_lower_base.specs.Spots.{spot_of};
ghost use Rattle.al_lower_code.specs.Expressions.{coded};
ghost use Rattle.al_lower_code.specs.Homes as homes;
ghost use Rattle.al_lower_code.specs.Simple as spec;
ghost use Rattle.al_typed.specs.Layout.{IsLaidOut};
ghost use Rattle.al_typed.specs.Typed.{type_of};

use crate::block::{frees_block, has_block};
use al_base::NoMemory;
use al_ir::Op;
use al_lower_base::{Code, Spot, copies, push, words};
use al_lower_expr::value;
use al_typed::TExpr;

/// With a value of so many words: one word goes to its place at once where no block is to be given back first.
fn return_words(code: &mut Code, s: Spot<'_>, e: &TExpr, n: u32) -> Result<(), NoMemory>
    requires { IsLaidOut s.program.now.aggregates }
    ensures { OnOk result (code.new ≡ code.old ++ spec.returns_value (spot_of s.entry) n (coded (spot_of s.entry) e.now)) }
{
    if n == 1 && !has_block(s) {
        value(code, s, e, 0, s.turns)?;
        return push(code, s.line, Op::Leave { words: 1 });
    }
    value(code, s, e, s.turns, s.turns)?;
    frees_block(code, s)?;
    copies(code, s.line, 0, s.turns, n)?;
    push(code, s.line, Op::Leave { words: n })
}

/// With the value of an expression.
fn return_value(code: &mut Code, s: Spot<'_>, e: &TExpr) -> Result<(), NoMemory>
    requires { IsLaidOut s.program.now.aggregates }
    ensures { OnOk result (code.new ≡ code.old ++ spec.returns_value (spot_of s.entry) (homes.words (spot_of s.entry) (type_of e.now)) (coded (spot_of s.entry) e.now)) }
{
    let n = words(s, e.ty())?;
    return_words(code, s, e, n)
}

/// With a value or without one.
pub fn return_code(code: &mut Code, s: Spot<'_>, e: &Option<TExpr>) -> Result<(), NoMemory>
    requires { IsLaidOut s.program.now.aggregates }
    ensures { OnOk result (code.new ≡ code.old ++ spec.return_code (spot_of s.entry) e.now) }
{
    match e {
        None => {
            frees_block(code, s)?;
            push(code, s.line, Op::Leave { words: 0 })
        }
        Some(e) => return_value(code, s, e),
    }
}
