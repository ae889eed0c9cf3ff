//! Prints whose arguments were found.
ghost use Rattle.std.specs.Prelude.{◌≡◌, map, IfOk, IfErr};
ghost use Rattle.al_typed.specs.Layout.{IsLaidOut};
ghost use Rattle.al_typed.specs.Typed.{type_of};
ghost use Rattle.al_meaning.specs.Evaluate as spec;
ghost use Rattle.al_meaning.specs.Items as item;
ghost use Rattle.al_meaning.specs.Step as step;
ghost use Rattle.al_control.specs.Fits.{Explains};
ghost use Rattle.al_control.specs.Models.{argument_of, gather_of, here_of, next_of};
ghost use Rattle.al_walk.specs.Works.{WorkFits};

use al_base::NoMemory;
use al_control::{Action, Argument, Here, Next, Stack, Taken, Unmade, Work, does, values};
use al_event::Words;
use al_items::Items;
use al_typed::{PrintPiece, TExpr};
use al_walk_values::eval;
use std::alloc::Global;

/// The arguments of a print, each with the type of its expression.
fn arguments_from<'p>(
    alloc: Global,
    es: &'p [TExpr],
    values: Stack<Words>,
) -> Result<Stack<Argument<'p>>, NoMemory>
    ensures { IfOk result (λ r. map argument_of r ≡ spec.arguments_of (map type_of es.now) values) }
{
    let mut values = values;
    let mut rest = es;
    let mut all = Items::new(alloc);
    while let Some((e, more)) = rest.split_first() {
        match values.pop() {
            None => return Ok(Stack::from_vec(all.into_vec())),
            Some(words) => all.push(Argument { ty: e.ty(), words })?,
        }
        rest = more;
    }
    Ok(Stack::from_vec(all.into_vec()))
}

/// A print of these pieces, whose arguments were found.
fn gather_print<'p>(
    alloc: Global,
    pieces: &'p [PrintPiece],
    es: &'p [TExpr],
    h: Here<'p>,
) -> Result<Next<'p>, NoMemory>
    ensures { IfOk result (λ n. next_of n ≡ step.step_work (item.Gather pieces.now (map type_of es.now)) (here_of h.entry)) }
{
    match values(alloc, es.len(), h)? {
        Taken::Lost(next) => Ok(next),
        Taken::Took(values, h) => {
            let arguments = arguments_from(alloc, es, values)?;
            let compose = Action::Compose {
                pieces,
                arguments,
                text: Items::new(alloc),
            };
            does(h, Work::Action(compose))
        }
    }
}

/// What is done with a print whose arguments were found.
#[tactic(auto, using(crate::proofs::Prints::gathers))]
pub fn gather<'p>(alloc: Global, e: &'p TExpr, h: Here<'p>) -> Result<Next<'p>, Unmade>
    requires { IsLaidOut h.program.now.aggregates }
    ensures next { IfOk result (λ n. next_of n ≡ step.step_work (gather_of e.now) (here_of h.entry)) }
    ensures why { IfErr result (λ x. Explains x (WorkFits (here_of h.entry) (gather_of e.now))) }
{
    match e {
        TExpr::Print {
            format,
            arguments,
            ..
        } => Ok(gather_print(alloc, format.as_slice(), arguments.as_slice(), h)?),
        _ => eval(alloc, e, h),
    }
}
