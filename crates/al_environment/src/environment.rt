use crate::numbered::Numbers;
use al_items::Items;
use al_scope::Scopes;
use al_typed::{Aggregate, Passed, Ty};

/// A data member that a type has, its own or one that an unnamed member lends.
#[derive(Drop)]
pub struct NamedMember {
    pub name: u32,
    /// The numbers of the members that lead to it, through unnamed ones.
    pub path: Items<u32>,
    pub ty: Ty,
    /// The adts, by their numbers, in whose functions alone it is named.
    pub interns: Items<u32>,
}

/// The types of a function.
#[derive(Drop)]
pub struct Signature {
    /// Its number in the program, where the text has a body of it.
    pub number: Option<u32>,
    pub returns: Ty,
    /// Those of its parameters that a call names, without the object before the function's name.
    pub parameters: Items<Ty>,
}

/// A function that an adt has, its own or one that an unnamed member lends.
#[derive(Drop)]
pub struct NamedFunction {
    pub name: u32,
    /// The numbers of the members that lead from the object to the one whose function it is. For a function of its own it
    /// is empty.
    pub path: Items<u32>,
    /// The adts, by their numbers, in whose functions alone it is named.
    pub interns: Items<u32>,
    /// What it gets of its object.
    pub passed: Passed,
    pub signature: Signature,
}

/// The names that may stand behind `.` and `->` of an aggregate.
#[derive(Drop)]
pub struct MemberNames {
    pub members: Items<NamedMember>,
    pub functions: Items<NamedFunction>,
}

/// A global, a parameter or a local.
#[derive(Drop)]
pub struct Variable {
    /// Its number in the program or in the function.
    pub number: u32,
    pub ty: Ty,
    /// Whether it is a private global.
    pub is_private: bool,
}

/// An instance of an adt with parameters.
#[derive(Drop)]
pub struct InstanceType {
    /// The adt's name by its number.
    pub adt: u32,
    pub arguments: Items<Ty>,
    pub aggregate: u32,
}

/// What the items of a text declare, where no declaration breaks a rule.
#[derive(Drop)]
pub struct Environment {
    /// The aggrs, unions, adts and instances, those that stand in others by value earlier.
    pub aggregates: Items<Aggregate>,
    /// The names of their members and functions, by the same numbers.
    pub names: Items<MemberNames>,
    /// The globals by the numbers of `Declaration::Global`.
    pub globals: Items<Variable>,
    /// The functions outside of adts by the numbers of `Declaration::Function`.
    pub functions: Items<Signature>,
    /// What each name stands for as a type outside of adts with parameters, by the name's number. There is none where it is
    /// no type's name, or names an adt with parameters.
    pub types: Items<Option<Ty>>,
    /// The instances that the text needs.
    pub instances: Items<InstanceType>,
    /// What the names of the text stand for, with the values of enum constants and bounds.
    pub scopes: Scopes,
}

/// The adt whose function is at hand.
#[derive(Drop)]
pub struct OwnAdt {
    /// Its name by its number.
    pub name: u32,
    /// The adt, or the instance at hand.
    pub aggregate: u32,
    /// The names of its parameters.
    pub parameters: Items<u32>,
    /// Their types in the instance at hand, by the same numbers.
    pub arguments: Items<Ty>,
}

/// A function round the par branch at hand.
#[derive(Drop)]
pub struct Round {
    /// How many functions are round it.
    pub number: u32,
    /// Its parameters and locals by the numbers that `Declaration::Outer` has for them.
    pub locals: Items<Variable>,
}

/// What is at hand where an expression stands.
#[derive(Drop)]
pub struct Here {
    pub own: Option<OwnAdt>,
    /// The parameters and locals of the function or par branch at hand by the numbers of `Declaration::Local`.
    pub locals: Items<Variable>,
    /// The functions round the par branch at hand, the outermost first. Outside of par branches there are none.
    pub around: Items<Round>,
    /// The string constants that have blocks, by the numbers of these.
    pub texts: Numbers,
    /// The iterators of the statement at hand, from left to right. Where no iterator may stand it is empty.
    pub iterators: Numbers,
}
