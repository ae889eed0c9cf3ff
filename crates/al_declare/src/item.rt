//! What items declare.
ghost use Rattle.std.specs.Prelude.{◌≡◌, None, Some, OnOk};
ghost use Rattle.al_rules.specs.Outcome.{Answers};
ghost use Rattle.al_declare.specs.Types as types;
ghost use Rattle.al_declare.specs.Asking as asking;
ghost use Rattle.al_declare.specs.Items as spec;

use crate::asked::{Asked, Declared, What, what_of};
use crate::expression;
use crate::expression::expr;
use crate::rules::{rule_12_own, rule_15_list};
use crate::statement::body;
use crate::text::{Text, text_of};
use crate::type_tree::{bound, dcl_bounds, type_tree};
use al_base::{NoMemory, Place};
use al_rules::{TypeStop, judged};
use al_tree::{
    AdtMember, AdtPart, Bound, Constant, Dcl, Declarator, Head, Initializer, Item, Member, Name,
    Owner, Parameter, Stmt, Tree,
};
use std::alloc::Global;

/// The first bound of an array parameter, which may be missing.
fn first_bound(c: &Text, w: &mut Asked, at: Place, b: &Option<Bound>) -> Result<(), NoMemory>
    ensures { OnOk result (w.new ≡ spec.first_bound at b.now c.now w.old) }
{
    match b {
        None => Ok(()),
        Some(b) => bound(c, w, at, b),
    }
}

/// Another bound of an array parameter.
fn later_bound(c: &Text, w: &mut Asked, at: Place, b: &Option<Bound>) -> Result<(), NoMemory>
    ensures { OnOk result (w.new ≡ spec.later_bound at b.now c.now w.old) }
{
    match b {
        None => w.ask(17, at, false),
        Some(b) => bound(c, w, at, b),
    }
}

fn later_bounds(c: &Text, w: &mut Asked, at: Place, list: &[Option<Bound>]) -> Result<(), NoMemory>
    ensures { OnOk result (w.new ≡ types.each (spec.later_bound at) list.now c.now w.old) }
{
    for b in list {
        later_bound(c, w, at, b)?;
    }
    Ok(())
}

/// The bounds of an array parameter.
#[tactic(auto, unfolding(crate::specs::Items::parameter_bounds))]
fn parameter_bounds(
    c: &Text,
    w: &mut Asked,
    at: Place,
    list: &[Option<Bound>],
) -> Result<(), NoMemory>
    ensures { OnOk result (w.new ≡ spec.parameter_bounds at list.now c.now w.old) }
{
    match list.split_first() {
        None => Ok(()),
        Some((first, rest)) => {
            first_bound(c, w, at, first)?;
            later_bounds(c, w, at, rest)
        }
    }
}

fn local_if(c: &Text, w: &mut Asked, name: Option<Name>) -> Result<(), NoMemory>
    ensures { OnOk result (w.new ≡ spec.local_if name c.now w.old) }
{
    match name {
        None => Ok(()),
        Some(name) => w.local(name, c),
    }
}

/// A parameter, where one of its own may stand in a function of the adt `own`.
#[tactic(auto, unfolding(crate::specs::Items::parameter_way))]
fn parameter(c: &Text, w: &mut Asked, own: Option<u32>, p: &Parameter) -> Result<(), NoMemory>
    ensures { OnOk result (w.new ≡ spec.parameter_way own p.now c.now w.old) }
{
    match p {
        Parameter::Plain {
            at,
            base,
            stars: _,
            name,
            bounds,
        } => {
            type_tree(c, w, base)?;
            parameter_bounds(c, w, *at, bounds.as_slice())?;
            local_if(c, w, *name)
        }
        Parameter::OwnPointer { at, name } => w.ask(12, *at, rule_12_own(own, *name)),
        Parameter::OwnValue { at, name } => w.ask(12, *at, rule_12_own(own, *name)),
    }
}

/// Parameters behind the first.
fn later_parameters(c: &Text, w: &mut Asked, list: &[Parameter]) -> Result<(), NoMemory>
    ensures { OnOk result (w.new ≡ types.each (spec.parameter_way None) list.now c.now w.old) }
{
    for p in list {
        parameter(c, w, None, p)?;
    }
    Ok(())
}

/// Parameters, where one of its own may stand first in a function of the adt `own`.
#[tactic(auto, unfolding(crate::specs::Items::parameters))]
fn parameters(c: &Text, w: &mut Asked, own: Option<u32>, list: &[Parameter]) -> Result<(), NoMemory>
    ensures { OnOk result (w.new ≡ spec.parameters own list.now c.now w.old) }
{
    match list.split_first() {
        None => Ok(()),
        Some((first, rest)) => {
            parameter(c, w, own, first)?;
            later_parameters(c, w, rest)
        }
    }
}

/// A list of parameters that is a scope of its own.
#[tactic(auto, unfolding(crate::specs::Asking::inner))]
fn scope_of_parameters(
    alloc: Global,
    c: &Text,
    w: &mut Asked,
    own: Option<u32>,
    list: &[Parameter],
) -> Result<(), NoMemory>
    ensures { OnOk result (w.new ≡ spec.scope_of_parameters own list.now c.now w.old) }
{
    let outer = w.begin_scope(alloc);
    parameters(c, w, own, list)?;
    w.end_scope(outer);
    Ok(())
}

/// The name of a function.
#[tactic(auto, unfolding(crate::specs::Items::function_if))]
fn function_if(
    c: &Text,
    w: &mut Asked,
    has_body: bool,
    owner: &Option<Owner>,
    name: Name,
) -> Result<(), NoMemory>
    ensures { OnOk result (w.new ≡ spec.function_if has_body owner.now name c.now w.old) }
{
    match owner {
        None => {
            let declared = Declared {
                what: What::Function,
                is_whole: has_body,
            };
            w.file_name(name, declared, c)
        }
        Some(_) => Ok(()),
    }
}

/// A function without a body.
#[tactic(auto, unfolding(crate::specs::Items::prototype))]
fn prototype(alloc: Global, c: &Text, w: &mut Asked, h: &Head) -> Result<(), NoMemory>
    ensures { OnOk result (w.new ≡ spec.prototype h.now c.now w.old) }
{
    function_if(c, w, false, &h.owner, h.name)?;
    scope_of_parameters(alloc, c, w, None, h.parameters.as_slice())
}

/// Asks rule 15 of a definition at a place.
#[tactic(auto, unfolding(crate::specs::Items::owner_of_definition))]
fn owner_of_definition(
    c: &Text,
    w: &mut Asked,
    at: Place,
    owner: &Option<Owner>,
) -> Result<(), NoMemory>
    ensures { OnOk result (w.new ≡ spec.owner_of_definition at owner.now c.now w.old) }
{
    match owner {
        None => Ok(()),
        Some(owner) => {
            let adt = c.adts.get(owner.adt.name);
            w.ask(15, at, rule_15_list(adt, owner.parameters.as_slice()))
        }
    }
}

/// The parameters and the body of a function, which are one scope.
#[tactic(auto, unfolding(crate::specs::Asking::inner))]
fn scope_of_definition(
    alloc: Global,
    c: &Text,
    w: &mut Asked,
    list: &[Parameter],
    s: &Stmt,
) -> Result<(), NoMemory>
    ensures { OnOk result (w.new ≡ spec.scope_of_definition list.now s.now c.now w.old) }
{
    let outer = w.begin_scope(alloc);
    parameters(c, w, None, list)?;
    body(alloc, c, w, s)?;
    w.end_scope(outer);
    Ok(())
}

/// A function with its body.
#[tactic(auto, unfolding(crate::specs::Items::definition))]
fn definition(alloc: Global, c: &Text, w: &mut Asked, h: &Head, s: &Stmt) -> Result<(), NoMemory>
    ensures { OnOk result (w.new ≡ spec.definition h.now s.now c.now w.old) }
{
    function_if(c, w, true, &h.owner, h.name)?;
    owner_of_definition(c, w, h.at, &h.owner)?;
    scope_of_definition(alloc, c, w, h.parameters.as_slice(), s)
}

/// Initializers.
#[cycle(initializer)]
fn initializers(c: &Text, w: &mut Asked, list: &[Initializer]) -> Result<(), NoMemory>
    ensures { OnOk result (w.new ≡ types.each spec.initializer list.now c.now w.old) }
{
    for i in list {
        initializer(c, w, i)?;
    }
    Ok(())
}

/// The value that a global starts with.
#[cycle(initializer)]
#[tactic(auto, using(crate::proofs::ItemsAre::initializer_is))]
fn initializer(c: &Text, w: &mut Asked, i: &Initializer) -> Result<(), NoMemory>
    ensures { OnOk result (w.new ≡ spec.initializer i.now c.now w.old) }
{
    match i {
        Initializer::Value(e) => expr(c, w, e),
        Initializer::Braces { parts, .. } => initializers(c, w, parts.as_slice()),
    }
}

fn optional(c: &Text, w: &mut Asked, i: &Option<Initializer>) -> Result<(), NoMemory>
    ensures { OnOk result (w.new ≡ types.optional spec.initializer i.now c.now w.old) }
{
    match i {
        None => Ok(()),
        Some(i) => initializer(c, w, i),
    }
}

/// A global.
fn global(c: &Text, w: &mut Asked, dcl: &Dcl, value: &Option<Initializer>) -> Result<(), NoMemory>
    ensures { OnOk result (w.new ≡ spec.global dcl.now value.now c.now w.old) }
{
    dcl_bounds(c, w, dcl)?;
    let declared = Declared {
        what: What::Global,
        is_whole: value.is_some(),
    };
    w.file_name(dcl.name, declared, c)?;
    optional(c, w, value)
}

/// What one declarator at file level declares.
#[tactic(auto, unfolding(crate::specs::Items::declarator_way))]
fn declarator(alloc: Global, c: &Text, w: &mut Asked, d: &Declarator) -> Result<(), NoMemory>
    ensures { OnOk result (w.new ≡ spec.declarator_way d.now c.now w.old) }
{
    match d {
        Declarator::Global { dcl, value } => global(c, w, dcl, value),
        Declarator::Function(h) => prototype(alloc, c, w, h),
    }
}

fn declarators(alloc: Global, c: &Text, w: &mut Asked, list: &[Declarator]) -> Result<(), NoMemory>
    ensures { OnOk result (w.new ≡ types.each spec.declarator_way list.now c.now w.old) }
{
    for d in list {
        declarator(alloc, c, w, d)?;
    }
    Ok(())
}

fn fields(c: &Text, w: &mut Asked, list: &[Dcl]) -> Result<(), NoMemory>
    ensures { OnOk result (w.new ≡ types.each types.dcl_bounds list.now c.now w.old) }
{
    for d in list {
        dcl_bounds(c, w, d)?;
    }
    Ok(())
}

/// Members.
#[cycle(member)]
fn members(c: &Text, w: &mut Asked, list: &[Member]) -> Result<(), NoMemory>
    ensures { OnOk result (w.new ≡ types.each spec.member list.now c.now w.old) }
{
    for m in list {
        member(c, w, m)?;
    }
    Ok(())
}

/// A member of an aggr, union or adt.
#[cycle(member)]
#[tactic(auto, using(crate::proofs::ItemsAre::member_is))]
fn member(c: &Text, w: &mut Asked, m: &Member) -> Result<(), NoMemory>
    ensures { OnOk result (w.new ≡ spec.member m.now c.now w.old) }
{
    match m {
        Member::Fields {
            base,
            fields: list,
            ..
        } => {
            type_tree(c, w, base)?;
            fields(c, w, list.as_slice())
        }
        Member::Unnamed { of, .. } => type_tree(c, w, of),
        Member::Inner { members: list, .. } => members(c, w, list.as_slice()),
    }
}

/// A member of the adt of that name.
#[tactic(auto, unfolding(crate::specs::Items::adt_part))]
fn adt_member(
    alloc: Global,
    c: &Text,
    w: &mut Asked,
    own: u32,
    m: &AdtMember,
) -> Result<(), NoMemory>
    ensures { OnOk result (w.new ≡ spec.adt_member own m.now c.now w.old) }
{
    match &m.part {
        AdtPart::Data(m) => member(c, w, m),
        AdtPart::Function {
            base,
            parameters: list,
            ..
        } => {
            type_tree(c, w, base)?;
            scope_of_parameters(alloc, c, w, Some(own), list.as_slice())
        }
    }
}

fn adt_members(
    alloc: Global,
    c: &Text,
    w: &mut Asked,
    own: u32,
    list: &[AdtMember],
) -> Result<(), NoMemory>
    ensures { OnOk result (w.new ≡ types.each (spec.adt_member own) list.now c.now w.old) }
{
    for m in list {
        adt_member(alloc, c, w, own, m)?;
    }
    Ok(())
}

fn locals(c: &Text, w: &mut Asked, list: &[Name]) -> Result<(), NoMemory>
    ensures { OnOk result (w.new ≡ types.each asking.local list.now c.now w.old) }
{
    for n in list {
        w.local(*n, c)?;
    }
    Ok(())
}

/// The parameters of an adt.
#[tactic(auto, unfolding(crate::specs::Asking::inner))]
fn adt_parameters(alloc: Global, c: &Text, w: &mut Asked, list: &[Name]) -> Result<(), NoMemory>
    ensures { OnOk result (w.new ≡ spec.adt_parameters list.now c.now w.old) }
{
    let outer = w.begin_scope(alloc);
    locals(c, w, list)?;
    w.end_scope(outer);
    Ok(())
}

/// The name of what is declared once.
fn other(c: &Text, w: &mut Asked, name: Name) -> Result<(), NoMemory>
    ensures { OnOk result (w.new ≡ spec.other name c.now w.old) }
{
    let declared = Declared {
        what: What::Other,
        is_whole: false,
    };
    w.file_name(name, declared, c)
}

/// An enum constant.
#[tactic(auto, unfolding(crate::specs::Items::enum_constant))]
fn enum_constant(c: &Text, w: &mut Asked, constant: &Constant) -> Result<(), NoMemory>
    ensures { OnOk result (w.new ≡ spec.enum_constant constant.now c.now w.old) }
{
    expression::optional(c, w, &constant.value)?;
    other(c, w, constant.name)
}

fn enum_constants(c: &Text, w: &mut Asked, list: &[Constant]) -> Result<(), NoMemory>
    ensures { OnOk result (w.new ≡ types.each spec.enum_constant list.now c.now w.old) }
{
    for constant in list {
        enum_constant(c, w, constant)?;
    }
    Ok(())
}

fn enum_name(c: &Text, w: &mut Asked, name: Option<Name>) -> Result<(), NoMemory>
    ensures { OnOk result (w.new ≡ spec.enum_name name c.now w.old) }
{
    match name {
        None => Ok(()),
        Some(name) => other(c, w, name),
    }
}

/// The name of a type with members.
fn aggregate_name(
    c: &Text,
    w: &mut Asked,
    what: What,
    is_whole: bool,
    name: Name,
) -> Result<(), NoMemory>
    ensures { OnOk result (w.new ≡ asking.file_name name (asking.declared what is_whole) c.now w.old) }
{
    w.file_name(name, Declared { what, is_whole }, c)
}

/// An item.
#[tactic(auto, unfolding(crate::specs::Items::item_way))]
fn item(alloc: Global, c: &Text, w: &mut Asked, i: &Item) -> Result<(), NoMemory>
    ensures { OnOk result (w.new ≡ spec.item_way i.now c.now w.old) }
{
    match i {
        Item::Typedef { base, dcl, .. } => {
            type_tree(c, w, base)?;
            dcl_bounds(c, w, dcl)?;
            other(c, w, dcl.name)
        }
        Item::FunctionType {
            base,
            name,
            parameters: list,
            ..
        } => {
            type_tree(c, w, base)?;
            scope_of_parameters(alloc, c, w, None, list.as_slice())?;
            other(c, w, *name)
        }
        Item::Forward { kind, name, .. } => aggregate_name(c, w, what_of(*kind), false, *name),
        Item::Aggregate {
            kind,
            name,
            members: list,
            ..
        } => {
            aggregate_name(c, w, what_of(*kind), true, *name)?;
            members(c, w, list.as_slice())
        }
        Item::Adt {
            name,
            parameters: list,
            members,
            ..
        } => {
            aggregate_name(c, w, What::Adt, true, *name)?;
            adt_parameters(alloc, c, w, list.as_slice())?;
            adt_members(alloc, c, w, name.name, members.as_slice())
        }
        Item::Enum {
            name,
            constants,
            ..
        } => {
            enum_name(c, w, *name)?;
            enum_constants(c, w, constants.as_slice())
        }
        Item::Declare {
            base,
            declarators: list,
            ..
        } => {
            type_tree(c, w, base)?;
            declarators(alloc, c, w, list.as_slice())
        }
        Item::Function {
            base,
            head,
            body,
            ..
        } => {
            type_tree(c, w, base)?;
            definition(alloc, c, w, head, body)
        }
    }
}

fn items(alloc: Global, c: &Text, w: &mut Asked, list: &[Item]) -> Result<(), NoMemory>
    ensures { OnOk result (w.new ≡ types.each spec.item_way list.now c.now w.old) }
{
    for i in list {
        item(alloc, c, w, i)?;
    }
    Ok(())
}

/// Asks the typing rules of declarations that names alone decide: 2, 3, 12, 15 and 17.
///
/// A fault is a declaration that breaks one of them. It is found exactly where there is one.
#[tactic(auto, unfolding(crate::specs::Items::names_hold))]
pub fn ask_names(alloc: Global, tree: &Tree) -> Result<(), TypeStop>
    ensures { Answers result (spec.names_hold tree.now) }
{
    let text = text_of(alloc, tree)?;
    let mut w = Asked::begun(alloc);
    items(alloc, &text, &mut w, tree.items.as_slice())?;
    judged(w.faults.as_slice(), ())
}
