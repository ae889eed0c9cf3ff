//! What is found on the way through a text.
ghost use Rattle.std.specs.Prelude.{◌≡◌, [], map, None, Some, slice_set, IfOk, OnOk};
ghost use Rattle.al_form.specs.Forms as spec;

use crate::form::{Form, FormMember, MemberType};
use al_base::{NoMemory, Place};
use al_items::Items;
use al_tree::AggregateKind;
use std::alloc::Global;

/// The forms found so far, and the members of the one at hand.
#[derive(Drop)]
pub(crate) struct Found {
    pub(crate) forms: Items<Form>,
    pub(crate) members: Items<FormMember>,
    /// The number of the form of each name, by the number of the name.
    pub(crate) named: Items<Option<usize>>,
}

fn is_union(kind: AggregateKind) -> bool
    ensures { result ≡ spec.is_union kind }
{
    match kind {
        AggregateKind::Union => true,
        AggregateKind::Aggr | AggregateKind::Adt => false,
    }
}

/// A name has that form.
fn note(named: &mut Items<Option<usize>>, name: u32, form: usize)
    ensures { named.new ≡ slice_set named.old name (Some form) }
{
    if (name as usize) < named.len() {
        named.set(name as usize, Some(form));
    }
}

/// No name has a form yet.
fn unnamed(alloc: Global, names: &[Items<u8>]) -> Result<Items<Option<usize>>, NoMemory>
    ensures { IfOk result (λ n. n ≡ map (λ _. None) names.now) }
{
    let mut named = Items::with_capacity(alloc, names.len())?;
    for _name in names {
        named.push(None)?;
    }
    Ok(named)
}

impl Found {
    ghost use Rattle.std.specs.Prelude.{◌≡◌, [], OnOk, IfOk};
    ghost use Rattle.al_form.specs.Forms as spec;

    /// Nothing, in a text of these names.
    pub(crate) fn begun(alloc: Global, names: &[Items<u8>]) -> Result<Found, NoMemory>
        ensures { IfOk result (λ w. w ≡ spec.begun names.now) }
    {
        Ok(Found {
            forms: Items::new(alloc),
            members: Items::new(alloc),
            named: unnamed(alloc, names)?,
        })
    }

    /// The number of the form of that name.
    pub(crate) fn form_named(&self, name: u32) -> Option<usize>
        ensures { result ≡ spec.form_named self.now.named name }
    {
        match self.named.get(name as usize) {
            None => None,
            Some(form) => *form,
        }
    }

    /// One member more of the type at hand.
    pub(crate) fn push(&mut self, member: FormMember) -> Result<(), NoMemory>
        ensures { OnOk result (self.new ≡ spec.with_member member self.old) }
    {
        self.members.push(member)
    }

    /// Begins a type, and gives the members of the one round it.
    pub(crate) fn open(&mut self, alloc: Global) -> Items<FormMember>
        ensures before { result ≡ self.old.members }
        ensures opened { self.new ≡ spec.opened self.old }
    {
        std::mem::replace(&mut self.members, Items::new(alloc))
    }

    /// Ends a type without a name, which is a member of the one round it.
    #[tactic(auto, unfolding(crate::specs::Forms::closed_inner))]
    pub(crate) fn close_inner(
        &mut self,
        before: Items<FormMember>,
        at: Place,
        kind: AggregateKind,
        is_intern: bool,
    ) -> Result<(), NoMemory>
        ensures { OnOk result (self.new ≡ spec.closed_inner before at kind is_intern self.old) }
    {
        let members = std::mem::replace(&mut self.members, before);
        let number = self.forms.len();
        self.forms.push(Form {
            at,
            is_union: is_union(kind),
            members: Some(members),
        })?;
        self.members.push(FormMember {
            at,
            name: None,
            ty: MemberType::Inner(number),
            is_intern,
        })
    }

    /// Puts a form at the end, which that name has.
    #[tactic(auto, unfolding(crate::specs::Forms::closed_named))]
    fn push_named(
        &mut self,
        alloc: Global,
        at: Place,
        kind: AggregateKind,
        name: u32,
        members: Option<Items<FormMember>>,
    ) -> Result<(), NoMemory>
        ensures { OnOk result (self.new ≡ spec.closed_named at kind name members self.old) }
    {
        let number = self.forms.len();
        self.members = Items::new(alloc);
        self.forms.push(Form {
            at,
            is_union: is_union(kind),
            members,
        })?;
        note(&mut self.named, name, number);
        Ok(())
    }

    /// Ends a type of that name.
    #[tactic(auto, unfolding(crate::specs::Forms::closed_named))]
    pub(crate) fn close_named(
        &mut self,
        alloc: Global,
        at: Place,
        kind: AggregateKind,
        name: u32,
    ) -> Result<(), NoMemory>
        ensures { OnOk result (self.new ≡ spec.closed_named at kind name (Some self.old.members) self.old) }
    {
        let members = self.open(alloc);
        self.push_named(alloc, at, kind, name, Some(members))
    }

    /// A type of which the text has the name alone.
    pub(crate) fn add_name(
        &mut self,
        alloc: Global,
        at: Place,
        kind: AggregateKind,
        name: u32,
    ) -> Result<(), NoMemory>
        ensures { OnOk result (self.new ≡ spec.closed_named at kind name None self.old) }
    {
        self.push_named(alloc, at, kind, name, None)
    }
}
