//! The types with members that a text has: its aggrs, unions and adts, and the instances of adts with parameters, each with
//! its data members, before it has a number in a program.
#![tactic(auto)]

mod copy;
mod form;
mod found;
mod member;
mod text;

pub use form::{Form, FormMember, Forms, InstanceForm, MemberType};
pub use text::forms;
