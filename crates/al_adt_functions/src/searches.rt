//! Adts and their functions by their names.
ghost use Rattle.std.specs.Prelude.{◌≡◌};
ghost use Rattle.std.specs.Option.{option_copied};
ghost use Rattle.al_adt_functions.specs.Searches as spec;

use crate::body::same_number;
use crate::owned::AdtFunctions;
use al_member_names::OwnFunction;

/// The adt or instance with its functions.
#[tactic(auto, unfolding(crate::specs::Searches::adt_of))]
pub(crate) fn adt_of(
    list: &[AdtFunctions],
    adt: u32,
    instance: Option<usize>,
) -> Option<&AdtFunctions>
    ensures { option_copied result ≡ spec.adt_of list.now adt instance }
{
    list.iter().find(|a| a.owned.name == adt && same_number(a.owned.instance, instance))
}

/// The function of that name that the adt declares.
#[tactic(auto, unfolding(crate::specs::Searches::function_of))]
pub(crate) fn function_of(a: &AdtFunctions, name: u32) -> Option<&OwnFunction>
    ensures { option_copied result ≡ spec.function_of a.now name }
{
    a.functions
        .as_slice()
        .iter()
        .find(|f| f.function.name == name)
}
