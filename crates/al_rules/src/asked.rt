ghost use Rattle.std.specs.Prelude.{◌≡◌, ◌++◌, OnErr, OnOk};
ghost use Rattle.al_rules.specs.Outcome as spec;
ghost use Rattle.al_rules.specs.Outcome.{Answers};

use crate::fault::{TypeFault, TypeStop};
use al_base::{NoMemory, Place};
use al_items::Items;

/// Asks a rule of the node at a place: it breaks the rule unless the rule holds there.
pub fn ask(
    faults: &mut Items<TypeFault>,
    rule: u16,
    place: Place,
    holds: bool,
) -> Result<(), NoMemory>
    ensures ok { OnOk result (faults.new ≡ faults.old ++ spec.ask rule place holds) }
    ensures err { OnErr result (faults.new ≡ faults.old) }
{
    if holds {
        return Ok(());
    }
    faults.push(TypeFault { rule, place })
}

/// What was found, where there is no fault, or else the first fault. It takes no memory.
pub fn judged<T: Drop>(faults: &[TypeFault], found: T) -> Result<T, TypeStop>
    ensures answer { Answers result (spec.judge faults.now found) }
    ensures first { result ≡ spec.first_fault faults.now found }
{
    match faults.split_first() {
        None => Ok(found),
        Some((fault, _)) => Err(TypeStop::Fault(*fault)),
    }
}
