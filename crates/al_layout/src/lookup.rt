//! The forms that names and instances have.
ghost use Rattle.std.specs.Prelude.{◌≡◌, find, option_and_then};
ghost use Rattle.std.specs.Option.{option_copied};
ghost use Rattle.al_form.specs.Forms.{form_named as named_form};
ghost use Rattle.al_poly.specs.Concrete as concrete;
ghost use Rattle.al_layout.specs.Types as spec;

use al_form::{Forms, InstanceForm};
use al_poly::{ConcreteType, same};

/// Whether the types of two lists are the same, one by one.
#[tactic(auto, using(crate::proofs::SameAre::lists))]
fn same_types(xs: &[ConcreteType], ys: &[ConcreteType]) -> bool
    ensures { result ≡ concrete.same_list xs.now ys.now }
{
    if xs.len() != ys.len() {
        return false;
    }
    for (i, x) in xs.iter().enumerate() {
        if !same(x, &ys[i]) {
            return false;
        }
    }
    true
}

#[tactic(auto, unfolding(crate::specs::Types::is_instance))]
fn is_instance(adt: u32, arguments: &[ConcreteType], i: &InstanceForm) -> bool
    ensures { result ≡ spec.is_instance adt arguments.now i.now }
{
    i.instance.adt == adt && same_types(i.instance.arguments.as_slice(), arguments)
}

fn instance<'f>(forms: &'f Forms, adt: u32, arguments: &[ConcreteType]) -> Option<&'f InstanceForm>
    ensures { option_copied result ≡ find (spec.is_instance adt arguments.now) forms.now.instances }
{
    forms
        .instances
        .as_slice()
        .iter()
        .find(|i| is_instance(adt, arguments, i))
}

fn form_in(i: Option<&InstanceForm>) -> Option<usize>
    ensures { result ≡ option_and_then spec.form_in (option_copied i.entry) }
{
    match i {
        None => None,
        Some(i) => i.form,
    }
}

/// The number of the form of the instance of that adt with these arguments.
#[tactic(auto, unfolding(crate::specs::Types::form_of_instance))]
pub fn form_of_instance(forms: &Forms, adt: u32, arguments: &[ConcreteType]) -> Option<usize>
    ensures { result ≡ spec.form_of_instance forms.now adt arguments.now }
{
    form_in(instance(forms, adt, arguments))
}

/// The number of the form of that name.
pub(crate) fn form_named(forms: &Forms, name: u32) -> Option<usize>
    ensures { result ≡ named_form forms.now.named name }
{
    match forms.named.get(name as usize) {
        None => None,
        Some(form) => *form,
    }
}
