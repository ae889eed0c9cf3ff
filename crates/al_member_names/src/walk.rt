//! The members and functions that were found so far.
ghost use Rattle.std.specs.Prelude.{◌≡◌};
ghost use Rattle.al_member_names.specs.Rules as rule;

use al_base::{NoMemory, Place};
use al_environment::{NamedFunction, NamedMember};
use al_items::Items;
use al_rules::{TypeFault, ask};
use std::alloc::Global;

/// The members and functions of a type as far as they were found, and the faults in them.
#[derive(Drop)]
pub(crate) struct Walk {
    pub(crate) members: Items<NamedMember>,
    pub(crate) functions: Items<NamedFunction>,
    /// The names of both.
    pub(crate) names: Items<u32>,
    pub(crate) faults: Items<TypeFault>,
}

fn is_among(names: &[u32], name: u32) -> bool
    ensures { result ≡ rule.is_among names.now name }
{
    names.iter().any(|n| *n == name)
}

/// Rule 8 of a name, where these stand before it.
fn rule_8_once(before: &[u32], name: u32) -> bool
    ensures { result ≡ rule.rule_8_once before.now name }
{
    !is_among(before, name)
}

/// Rule 8 of a member without a name.
fn rule_8_unnamed(number: Option<u32>) -> bool
    ensures { result ≡ rule.rule_8_unnamed number }
{
    number.is_some()
}

impl Walk {
    ghost use Rattle.std.specs.Prelude.{◌≡◌, ◌++◌, OnOk};
    ghost use Rattle.al_rules.specs.Outcome.{ask as asking};
    ghost use Rattle.al_member_names.specs.Rules as rule;
    ghost use Rattle.al_member_names.specs.Members as spec;

    /// Nothing is found yet.
    pub(crate) fn begun(alloc: Global) -> Walk
        ensures { result ≡ spec.begun }
    {
        Walk {
            members: Items::new(alloc),
            functions: Items::new(alloc),
            names: Items::new(alloc),
            faults: Items::new(alloc),
        }
    }

    /// Adds a member at a place, and asks rule 8 of its name.
    #[tactic(auto, unfolding(crate::specs::Members::with_name))]
    pub(crate) fn push(&mut self, at: Place, member: NamedMember) -> Result<(), NoMemory>
        ensures { OnOk result (self.new ≡ spec.with_name at self.old member) }
    {
        let is_once = rule_8_once(self.names.as_slice(), member.name);
        ask(&mut self.faults, 8, at, is_once)?;
        self.names.push(member.name)?;
        self.members.push(member)
    }

    /// Adds a function at a place, and asks rule 8 of its name.
    #[tactic(auto, unfolding(crate::specs::Members::with_function))]
    pub(crate) fn push_function(
        &mut self,
        at: Place,
        function: NamedFunction,
    ) -> Result<(), NoMemory>
        ensures { OnOk result (self.new ≡ spec.with_function at self.old function) }
    {
        let is_once = rule_8_once(self.names.as_slice(), function.name);
        ask(&mut self.faults, 8, at, is_once)?;
        self.names.push(function.name)?;
        self.functions.push(function)
    }

    /// Asks rule 8 of a member without a name.
    pub(crate) fn ask_unnamed(&mut self, at: Place, number: Option<u32>) -> Result<(), NoMemory>
        ensures { OnOk result (self.new ≡ record self.old { faults = self.old.faults ++ asking 8 at (rule.rule_8_unnamed number) }) }
    {
        ask(&mut self.faults, 8, at, rule_8_unnamed(number))
    }
}
