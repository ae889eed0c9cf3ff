use crate::concrete_type::ConcreteType;
use crate::equality::same_list;
use crate::instance::Instance;
use al_items::Items;

/// The instances of adts with parameters that a text needs: those that the text names, in text order, then, instance by
/// instance, those that its body and its functions name.
#[derive(Drop)]
pub struct Instances {
    pub list: Items<Instance>,
}

impl Instances {
    ghost use Rattle.std.specs.Prelude.{◌≡◌, position};
    ghost use Rattle.al_poly.specs.Concrete.{same_instance as is_same};

    /// The number in the list of the instance of that adt with these arguments.
    pub fn number(&self, adt: u32, arguments: &[ConcreteType]) -> Option<usize>
        ensures { result ≡ position (λ i. is_same i (record { adt = adt; arguments = arguments.now })) self.now.list }
    {
        self.list.as_slice().iter().position(|i| i.adt == adt
            && same_list(i.arguments.as_slice(), arguments))
    }
}
