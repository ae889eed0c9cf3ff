//! What names stand for in a text.
ghost use Rattle.std.specs.Prelude.{◌≡◌};
ghost use Rattle.std.specs.Option.{option_copied};
ghost use Rattle.al_poly.specs.Types as spec;

use crate::by_name::ByName;
use crate::concrete_type::ConcreteType;
use al_items::Items;
use al_tree::Constants;

/// What names stand for. Of several items that declare a name the latest counts.
#[derive(Drop)]
pub struct Names {
    pub(crate) constants: Constants,
    /// The adts with parameters, with these.
    pub(crate) adts: ByName<Items<u32>>,
    /// The types. One has nothing where what it stands for has no meaning.
    pub(crate) known: ByName<Option<ConcreteType>>,
}

/// The parameters of the adt with parameters of that name.
#[tactic(auto, unfolding(crate::specs::Types::adt_named))]
pub(crate) fn adt_named(names: &Names, name: u32) -> Option<&Items<u32>>
    ensures { option_copied result ≡ spec.adt_named names.now.adts name }
{
    names.adts.get(name)
}

/// Which parameter of an adt has that name.
#[tactic(auto, unfolding(crate::specs::Types::parameter_named))]
pub(crate) fn parameter_named(names: &Names, adt: u32, name: u32) -> Option<usize>
    ensures { result ≡ spec.parameter_named names.now adt name }
{
    match adt_named(names, adt) {
        None => None,
        Some(parameters) => parameters.as_slice().iter().position(|p| *p == name),
    }
}
