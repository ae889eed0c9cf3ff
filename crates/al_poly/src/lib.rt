//! The instances of adts with parameters that a text needs, by typing rules 13 and 14.
#![tactic(auto)]

mod answer;
mod by_name;
mod closure;
mod concrete_type;
mod declare;
mod equality;
mod fault;
mod instance;
mod instances;
mod law;
mod names;
mod piece;
mod resolve;
mod rules;
mod types;
mod written;

pub use answer::concrete;
pub use concrete_type::ConcreteType;
pub use declare::{declared, function_type, names_of};
pub use equality::same;
pub use fault::{PolyFault, PolyStop};
pub use instance::{Instance, same_instance};
pub use instances::Instances;
pub use law::instances_law;
pub use names::Names;
pub use piece::owner_of;
pub use resolve::type_of;
