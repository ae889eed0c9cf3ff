//! Rules that are asked, and names that are declared.
ghost use Rattle.std.specs.Prelude.{◌≡◌};
ghost use Rattle.al_declare.specs.Asking as spec;

use crate::by_name::ByName;
use crate::rules::{may_be_declared_again, rule_2_new, rule_3_free};
use crate::text::Text;
use al_base::{NoMemory, Place};
use al_items::Items;
use al_rules::{TypeFault, ask};
use al_tree::{AggregateKind, Name};
use std::alloc::Global;

/// What a name at file level stands for, where it may be declared again.
#[derive(Clone, Copy)]
pub(crate) enum What {
    Aggr,
    Union,
    Adt,
    Global,
    Function,
    /// A typedef, the name of an enum, or an enum constant.
    Other,
}

/// What is known of a name at file level.
#[derive(Clone, Copy)]
pub(crate) struct Declared {
    pub(crate) what: What,
    /// Whether its members, its initialiser or its body stood there.
    pub(crate) is_whole: bool,
}

/// What was declared and asked so far.
#[derive(Drop)]
pub(crate) struct Asked {
    /// The names at file level.
    pub(crate) names: ByName<Declared>,
    /// The names of the innermost scope.
    pub(crate) scope: Items<u32>,
    pub(crate) faults: Items<TypeFault>,
}

/// What a type with members is, by the word before its name.
pub(crate) fn what_of(kind: AggregateKind) -> What
    ensures { result ≡ spec.what_of kind }
{
    match kind {
        AggregateKind::Aggr => What::Aggr,
        AggregateKind::Union => What::Union,
        AggregateKind::Adt => What::Adt,
    }
}

fn together(old: Option<Declared>, new: Declared) -> Declared
    ensures { result ≡ spec.together old new }
{
    match old {
        None => new,
        Some(old) => Declared {
            what: old.what,
            is_whole: old.is_whole || new.is_whole,
        },
    }
}

impl Asked {
    ghost use Rattle.std.specs.Prelude.{◌≡◌, [], OnOk};
    ghost use Rattle.al_rules.specs.Outcome.{ask as asking};

    /// Nothing is declared yet.
    pub(crate) fn begun(alloc: Global) -> Asked
        ensures { result ≡ spec.begun }
    {
        Asked {
            names: ByName::new(alloc),
            scope: Items::new(alloc),
            faults: Items::new(alloc),
        }
    }

    /// Asks a rule of the node at a place.
    pub(crate) fn ask(&mut self, rule: u16, at: Place, holds: bool) -> Result<(), NoMemory>
        ensures { OnOk result (self.new ≡ spec.asked (asking rule at holds) self.old) }
    {
        ask(&mut self.faults, rule, at, holds)
    }

    /// Asks rule 3 of a name that is declared.
    #[tactic(auto, unfolding(crate::specs::Asking::free_name))]
    fn free_name(&mut self, n: Name, text: &Text) -> Result<(), NoMemory>
        ensures { OnOk result (self.new ≡ spec.free_name n text.now self.old) }
    {
        self.ask(3, n.at, rule_3_free(text, n.name))
    }

    /// Declares a parameter, a local, or a parameter of an adt.
    #[tactic(auto, unfolding(crate::specs::Asking::local))]
    pub(crate) fn local(&mut self, n: Name, text: &Text) -> Result<(), NoMemory>
        ensures { OnOk result (self.new ≡ spec.local n text.now self.old) }
    {
        let is_new = rule_2_new(self.scope.as_slice(), n.name);
        self.free_name(n, text)?;
        self.ask(2, n.at, is_new)?;
        self.scope.push(n.name)
    }

    /// Declares a name at file level.
    #[tactic(auto, unfolding(crate::specs::Asking::file_name))]
    pub(crate) fn file_name(&mut self, n: Name, d: Declared, text: &Text) -> Result<(), NoMemory>
        ensures { OnOk result (self.new ≡ spec.file_name n d text.now self.old) }
    {
        let old = self.names.get(n.name).copied();
        self.free_name(n, text)?;
        self.ask(2, n.at, may_be_declared_again(old, d))?;
        self.names.insert(n.name, together(old, d))
    }

    /// Begins a scope of its own, and gives the names of the one round it.
    pub(crate) fn begin_scope(&mut self, alloc: Global) -> Items<u32>
        ensures outer { result ≡ self.old.scope }
        ensures begun { self.new ≡ record self.old { scope = [] } }
    {
        std::mem::replace(&mut self.scope, Items::new(alloc))
    }

    /// Ends a scope: the one with these names goes on.
    pub(crate) fn end_scope(&mut self, outer: Items<u32>)
        ensures { self.new ≡ record self.old { scope = outer } }
    {
        self.scope = outer;
    }
}
