//! Where branches of pars stand.
ghost use Rattle.std.specs.Prelude.{◌≡◌, ◌++◌, ◌∷◌, [], List, ℕ, OnOk, Some};
ghost use Rattle.al_environment.specs.declared.environment.Variable.{Variable as Known};
ghost use Rattle.al_environment.specs.declared.environment.Here.{Here as AtHand};
ghost use Rattle.al_type_function.specs.declared.site.Site.{Site as Standing};
ghost use Rattle.al_type_function.specs.Branches as spec;

use crate::numbers::capped;
use al_base::NoMemory;
use al_environment::{Here, Round, Variable};
use al_items::Items;
use std::mem;

/// Where a branch of a par stands.
#[derive(Drop)]
pub(crate) struct Site {
    /// What is at hand in the function or branch that has the par.
    pub(crate) here: Here,
    /// The numbers of the functions round the branch, the outermost first.
    pub(crate) around: Items<u32>,
}

/// Goes into a branch that stands there and has these locals.
fn go_inside(here: &mut Here, variables: Items<Variable>) -> Result<(), NoMemory>
    ensures { OnOk result (here.new ≡ spec.inside here.old variables) }
{
    let number = capped(here.around.len());
    let locals = mem::replace(&mut here.locals, variables);
    here.around.push(Round { number, locals })
}

/// Goes into the branch of that number, which has these locals.
pub(crate) fn enter(
    site: &mut Site,
    variables: Items<Variable>,
    number: u32,
) -> Result<(), NoMemory>
    ensures { OnOk result (site.new ≡ spec.entered site.old variables number) }
{
    go_inside(&mut site.here, variables)?;
    site.around.push(number)
}

/// Takes the last one off.
#[tactic(auto, using(crate::proofs::SitesAre::last_of))]
fn take_last<T: Drop>(list: &mut Items<T>) -> Option<T>
    ensures rest { (xs : List T) (x : T) → list.old ≡ xs ++ x ∷ [] → list.new ≡ xs }
    ensures last { (xs : List T) (x : T) → list.old ≡ xs ++ x ∷ [] → result ≡ Some x }
{
    list.pop()
}

/// Goes out of a branch.
fn go_out(here: &mut Here)
    ensures { (outer : AtHand) (vs : List Known) → here.old ≡ spec.inside outer vs → here.new ≡ outer }
{
    if let Some(round) = take_last(&mut here.around) {
        let Round { number: _, locals } = round;
        here.locals = locals;
    }
}

/// Goes out of a branch.
pub(crate) fn leave(site: &mut Site)
    ensures { (outer : Standing) (vs : List Known) (n : ℕ) → site.old ≡ spec.entered outer vs n → site.new ≡ outer }
{
    go_out(&mut site.here);
    let _number = take_last(&mut site.around);
}
