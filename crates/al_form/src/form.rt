use al_base::Place;
use al_items::Items;
use al_poly::{ConcreteType, Instance};

/// The type of a member.
#[derive(Drop)]
pub enum MemberType {
    /// As it is written. It is missing where what is written has no meaning.
    Written(Option<ConcreteType>),
    /// A type without a name whose members stand in the member, by the number of its form.
    Inner(usize),
}

/// A data member.
#[derive(Drop)]
pub struct FormMember {
    pub at: Place,
    /// One without a name lends the names of its own members.
    pub name: Option<u32>,
    pub ty: MemberType,
    /// Whether it is named inside the functions of its adt alone.
    pub is_intern: bool,
}

/// An aggr, a union, an adt without parameters, or an instance of an adt, with its data members in text order.
#[derive(Drop)]
pub struct Form {
    pub at: Place,
    pub is_union: bool,
    /// None where the text has no body of it.
    pub members: Option<Items<FormMember>>,
}

/// An instance of an adt with parameters.
#[derive(Drop)]
pub struct InstanceForm {
    pub instance: Instance,
    /// The number of its form. None where the text has no body of the adt.
    pub form: Option<usize>,
}

/// The types with members that a text and its instances have.
#[derive(Drop)]
pub struct Forms {
    pub list: Items<Form>,
    /// The number of the form of an aggr, a union or an adt without parameters, by the number of its name. For the name of
    /// an adt with parameters it is that of the last instance.
    pub named: Items<Option<usize>>,
    /// The instances in their order.
    pub instances: Items<InstanceForm>,
}
