//! Names at file level.
ghost use Rattle.std.specs.Prelude.{◌≡◌, OnOk, IfOk};
ghost use Rattle.std.specs.Option.{option_copied};
ghost use Rattle.al_rules.specs.Outcome.{Answers, judge};
ghost use Rattle.al_scope.specs.Names as names;
ghost use Rattle.al_scope.specs.Types as types;
ghost use Rattle.al_scope.specs.Rules as rule;
ghost use Rattle.al_scope.specs.Statements as statements;
ghost use Rattle.al_scope.specs.Items as spec;

use crate::declaration::{Declaration, Scopes};
use crate::expression::{expr, place};
use crate::known::KnownNames;
use crate::names::Names;
use crate::statement::stmt;
use crate::type_tree::{bound_if, dcl_bounds, type_tree};
use crate::walk::Walk;
use al_base::NoMemory;
use al_items::Items;
use al_rules::{TypeStop, judged};
use al_tree::{
    AdtMember, AdtPart, Bound, Constant, Constants, Dcl, Declarator, EnumConstant, Expr, Head,
    Initializer, Item, Member, Name, Owner, Parameter, Stmt, Tree, enum_values,
};
use std::alloc::Global;

/// The bounds of an array parameter.
fn bounds(c: &[EnumConstant], w: &mut Walk, list: &[Option<Bound>]) -> Result<(), NoMemory>
    ensures { OnOk result (w.new ≡ types.each spec.bound_if list.now c.now w.old) }
{
    for b in list {
        bound_if(c, w, b)?;
    }
    Ok(())
}

/// The bounds in a parameter's type.
#[tactic(auto, unfolding(crate::specs::Items::parameter_bounds))]
fn parameter_bounds(c: &[EnumConstant], w: &mut Walk, p: &Parameter) -> Result<(), NoMemory>
    ensures { OnOk result (w.new ≡ spec.parameter_bounds p.now c.now w.old) }
{
    match p {
        Parameter::Plain {
            base,
            bounds: list,
            ..
        } => {
            type_tree(c, w, base)?;
            bounds(c, w, list.as_slice())
        }
        Parameter::OwnPointer { .. } | Parameter::OwnValue { .. } => Ok(()),
    }
}

/// The bounds in parameters' types.
fn all_parameter_bounds(
    c: &[EnumConstant],
    w: &mut Walk,
    list: &[Parameter],
) -> Result<(), NoMemory>
    ensures { OnOk result (w.new ≡ types.each spec.parameter_bounds list.now c.now w.old) }
{
    for p in list {
        parameter_bounds(c, w, p)?;
    }
    Ok(())
}

fn name_of(p: &Parameter) -> Option<Name>
    ensures { result ≡ spec.name_of p.now }
{
    match p {
        Parameter::Plain { name, .. } => *name,
        Parameter::OwnPointer { .. } | Parameter::OwnValue { .. } => None,
    }
}

fn local_if(w: &mut Walk, name: Option<Name>) -> Result<(), NoMemory>
    ensures { OnOk result (w.new ≡ spec.local_if name w.old) }
{
    match name {
        None => w.nameless(),
        Some(name) => w.local(name),
    }
}

/// A parameter of a function that has a body here.
#[tactic(auto, unfolding(crate::specs::Items::own_parameter))]
fn own_parameter(c: &[EnumConstant], w: &mut Walk, p: &Parameter) -> Result<(), NoMemory>
    ensures { OnOk result (w.new ≡ spec.own_parameter p.now c.now w.old) }
{
    parameter_bounds(c, w, p)?;
    local_if(w, name_of(p))
}

/// The parameters of a function that has a body here.
fn own_parameters(c: &[EnumConstant], w: &mut Walk, list: &[Parameter]) -> Result<(), NoMemory>
    ensures { OnOk result (w.new ≡ types.each spec.own_parameter list.now c.now w.old) }
{
    for p in list {
        own_parameter(c, w, p)?;
    }
    Ok(())
}

/// The name of a function.
#[tactic(auto, unfolding(crate::specs::Items::function_if))]
fn function_if(w: &mut Walk, owner: &Option<Owner>, name: Name) -> Result<(), NoMemory>
    ensures { OnOk result (w.new ≡ spec.function_if owner.now name w.old) }
{
    match owner {
        None => w.function(name),
        Some(_) => Ok(()),
    }
}

/// The head of a function that has no body here.
#[tactic(auto, unfolding(crate::specs::Items::prototype))]
fn prototype(c: &[EnumConstant], w: &mut Walk, h: &Head) -> Result<(), NoMemory>
    ensures { OnOk result (w.new ≡ spec.prototype h.now c.now w.old) }
{
    function_if(w, &h.owner, h.name)?;
    all_parameter_bounds(c, w, h.parameters.as_slice())
}

/// Initializers.
#[cycle(initializer)]
fn initializers(c: &[EnumConstant], w: &mut Walk, list: &[Initializer]) -> Result<(), NoMemory>
    ensures { OnOk result (w.new ≡ types.each spec.initializer list.now c.now w.old) }
{
    for i in list {
        initializer(c, w, i)?;
    }
    Ok(())
}

/// The value that a global starts with.
#[cycle(initializer)]
#[tactic(auto, using(crate::proofs::ItemsAre::initializer_is))]
fn initializer(c: &[EnumConstant], w: &mut Walk, i: &Initializer) -> Result<(), NoMemory>
    ensures { OnOk result (w.new ≡ spec.initializer i.now c.now w.old) }
{
    match i {
        Initializer::Value(e) => expr(c, w, e),
        Initializer::Braces { parts, .. } => initializers(c, w, parts.as_slice()),
    }
}

fn optional(c: &[EnumConstant], w: &mut Walk, i: &Option<Initializer>) -> Result<(), NoMemory>
    ensures { OnOk result (w.new ≡ types.optional spec.initializer i.now c.now w.old) }
{
    match i {
        None => Ok(()),
        Some(i) => initializer(c, w, i),
    }
}

/// What one declarator at file level declares.
#[tactic(auto, unfolding(crate::specs::Items::declarator_way))]
fn declarator(c: &[EnumConstant], w: &mut Walk, d: &Declarator) -> Result<(), NoMemory>
    ensures { OnOk result (w.new ≡ spec.declarator_way d.now c.now w.old) }
{
    match d {
        Declarator::Global { dcl, value } => {
            dcl_bounds(c, w, dcl)?;
            w.global(dcl.name)?;
            optional(c, w, value)
        }
        Declarator::Function(h) => prototype(c, w, h),
    }
}

fn declarators(c: &[EnumConstant], w: &mut Walk, list: &[Declarator]) -> Result<(), NoMemory>
    ensures { OnOk result (w.new ≡ types.each spec.declarator_way list.now c.now w.old) }
{
    for d in list {
        declarator(c, w, d)?;
    }
    Ok(())
}

fn fields(c: &[EnumConstant], w: &mut Walk, list: &[Dcl]) -> Result<(), NoMemory>
    ensures { OnOk result (w.new ≡ types.each types.dcl_bounds list.now c.now w.old) }
{
    for d in list {
        dcl_bounds(c, w, d)?;
    }
    Ok(())
}

/// Members.
#[cycle(member)]
fn members(c: &[EnumConstant], w: &mut Walk, list: &[Member]) -> Result<(), NoMemory>
    ensures { OnOk result (w.new ≡ types.each spec.member list.now c.now w.old) }
{
    for m in list {
        member(c, w, m)?;
    }
    Ok(())
}

/// A member of an aggr, union or adt.
#[cycle(member)]
#[tactic(auto, using(crate::proofs::ItemsAre::member_is))]
fn member(c: &[EnumConstant], w: &mut Walk, m: &Member) -> Result<(), NoMemory>
    ensures { OnOk result (w.new ≡ spec.member m.now c.now w.old) }
{
    match m {
        Member::Fields {
            base,
            fields: list,
            ..
        } => {
            type_tree(c, w, base)?;
            fields(c, w, list.as_slice())
        }
        Member::Unnamed { of, .. } => type_tree(c, w, of),
        Member::Inner { members: list, .. } => members(c, w, list.as_slice()),
    }
}

/// A member of an adt.
#[tactic(auto, unfolding(crate::specs::Items::adt_part))]
fn adt_member(c: &[EnumConstant], w: &mut Walk, m: &AdtMember) -> Result<(), NoMemory>
    ensures { OnOk result (w.new ≡ spec.adt_member m.now c.now w.old) }
{
    match &m.part {
        AdtPart::Data(m) => member(c, w, m),
        AdtPart::Function {
            base,
            parameters,
            ..
        } => {
            type_tree(c, w, base)?;
            all_parameter_bounds(c, w, parameters.as_slice())
        }
    }
}

fn adt_members(c: &[EnumConstant], w: &mut Walk, list: &[AdtMember]) -> Result<(), NoMemory>
    ensures { OnOk result (w.new ≡ types.each spec.adt_member list.now c.now w.old) }
{
    for m in list {
        adt_member(c, w, m)?;
    }
    Ok(())
}

fn has_value(constant: Option<&EnumConstant>) -> bool
    ensures { result ≡ rule.has_value (option_copied constant.entry) }
{
    match constant {
        None => false,
        Some(c) => c.value.is_some(),
    }
}

/// The value that the text gives for an enum constant.
#[tactic(auto, unfolding(crate::specs::Items::valued))]
fn valued(c: &[EnumConstant], w: &mut Walk, value: &Option<Expr>) -> Result<(), NoMemory>
    ensures { OnOk result (w.new ≡ spec.valued value.now c.now w.old) }
{
    match value {
        None => Ok(()),
        Some(e) => {
            let number = w.constants.len();
            expr(c, w, e)?;
            w.ask(22, place(e), has_value(c.get(number)))
        }
    }
}

/// An enum constant.
#[tactic(auto, unfolding(crate::specs::Items::enum_constant))]
fn enum_constant(c: &[EnumConstant], w: &mut Walk, constant: &Constant) -> Result<(), NoMemory>
    ensures { OnOk result (w.new ≡ spec.enum_constant constant.now c.now w.old) }
{
    valued(c, w, &constant.value)?;
    w.constant(constant.name)
}

fn enum_constants(c: &[EnumConstant], w: &mut Walk, list: &[Constant]) -> Result<(), NoMemory>
    ensures { OnOk result (w.new ≡ types.each spec.enum_constant list.now c.now w.old) }
{
    for constant in list {
        enum_constant(c, w, constant)?;
    }
    Ok(())
}

/// The parameters and the body of a function.
#[tactic(auto, unfolding(crate::specs::Items::defined, crate::specs::Names::body))]
fn defined(
    c: &[EnumConstant],
    w: &mut Walk,
    parameters: &[Parameter],
    body: &Stmt,
) -> Result<(), NoMemory>
    ensures { OnOk result (w.new ≡ spec.defined parameters.now (statements.stmt body.now) c.now w.old) }
{
    let count = w.known.len();
    w.around.truncate(0);
    w.start = 0;
    w.locals.truncate(0);
    own_parameters(c, w, parameters)?;
    stmt(c, w, body)?;
    w.known.truncate(count);
    Ok(())
}

/// An item.
#[tactic(auto, unfolding(crate::specs::Items::item_way))]
fn item(c: &[EnumConstant], w: &mut Walk, i: &Item) -> Result<(), NoMemory>
    ensures { OnOk result (w.new ≡ spec.item_way i.now c.now w.old) }
{
    match i {
        Item::Typedef { base, dcl, .. } => {
            type_tree(c, w, base)?;
            dcl_bounds(c, w, dcl)
        }
        Item::FunctionType {
            base,
            parameters,
            ..
        } => {
            type_tree(c, w, base)?;
            all_parameter_bounds(c, w, parameters.as_slice())
        }
        Item::Forward { .. } => Ok(()),
        Item::Aggregate { members: list, .. } => members(c, w, list.as_slice()),
        Item::Adt { members: list, .. } => adt_members(c, w, list.as_slice()),
        Item::Enum { constants, .. } => enum_constants(c, w, constants.as_slice()),
        Item::Declare {
            base,
            declarators: list,
            ..
        } => {
            type_tree(c, w, base)?;
            declarators(c, w, list.as_slice())
        }
        Item::Function {
            base,
            head,
            body,
            ..
        } => {
            type_tree(c, w, base)?;
            function_if(w, &head.owner, head.name)?;
            defined(c, w, head.parameters.as_slice(), body)
        }
    }
}

fn items(c: &[EnumConstant], w: &mut Walk, list: &[Item]) -> Result<(), NoMemory>
    ensures { OnOk result (w.new ≡ types.each spec.item_way list.now c.now w.old) }
{
    for i in list {
        item(c, w, i)?;
    }
    Ok(())
}

#[tactic(auto, unfolding(crate::specs::Names::numbered))]
fn numbered(text: &[u8], list: &[Items<u8>]) -> Option<usize>
    ensures { result ≡ names.numbered text.now list.now }
{
    list.iter().position(|name| name.as_slice() == text)
}

/// Nothing is met yet but what the language has.
#[tactic(auto, unfolding(crate::specs::Names::own_names))]
fn begun(alloc: Global, list: &[Items<u8>]) -> Result<Walk, NoMemory>
    ensures { IfOk result (λ w. w ≡ names.begun list.now) }
{
    let mut w = Walk {
        known: KnownNames::new(alloc),
        constants: Items::new(alloc),
        globals: Items::new(alloc),
        functions: Items::new(alloc),
        around: Items::new(alloc),
        start: 0,
        locals: Items::new(alloc),
        names: Names::new(alloc),
        faults: Items::new(alloc),
    };
    w.provide(numbered(b"print".as_slice(), list), Declaration::Print)?;
    w.provide(
        numbered(b"terminate".as_slice(), list),
        Declaration::Terminate,
    )?;
    Ok(w)
}

/// What is found, unless there are faults.
#[tactic(auto, unfolding(crate::specs::Items::scopes_of))]
fn scopes(constants: Constants, w: Walk) -> Result<Scopes, TypeStop>
    ensures { Answers result (judge w.faults (spec.scopes_of constants.list w)) }
{
    let Walk {
        known: _,
        constants: _,
        globals,
        functions,
        around: _,
        start: _,
        locals: _,
        names,
        faults,
    } = w;
    judged(
        faults.as_slice(),
        Scopes {
            constants,
            globals,
            functions,
            names,
        },
    )
}

/// What each name of a text stands for, and the values of its enum constants.
///
/// A fault is a name that breaks typing rule 1, or an enum value or a bound that breaks rule 22. It is found exactly where
/// there is one.
#[tactic(auto, unfolding(crate::specs::Items::resolved))]
pub fn resolve(alloc: Global, tree: &Tree) -> Result<Scopes, TypeStop>
    ensures { Answers result (spec.resolved tree.now) }
{
    let constants = enum_values(alloc, tree)?;
    let mut w = begun(alloc, tree.names.as_slice())?;
    items(constants.list.as_slice(), &mut w, tree.items.as_slice())?;
    scopes(constants, w)
}
