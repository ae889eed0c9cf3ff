//! What the typing rules of expressions stand on: what the items of a text declare, and what is at hand where an
//! expression stands.
#![tactic(auto)]

mod environment;
mod lookup;
mod numbered;
mod written;

pub use environment::{
    Environment, Here, InstanceType, MemberNames, NamedFunction, NamedMember, OwnAdt, Round,
    Signature, Variable,
};
pub use lookup::{
    function, function_named, global, instance_type, is_inside, local, member_named, plain_type,
    round,
};
pub use numbered::{Numbered, Numbers};
pub use written::written_type;
