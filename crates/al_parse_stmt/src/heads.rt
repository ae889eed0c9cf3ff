//! Declarators at file level.
ghost use Rattle.std.specs.Prelude.{◌≡◌, ◌+◌, ◌-◌, ◌<◌, ◌≤◌, ◌^◌, ℕ, max, [], ◌∷◌, ◌++◌, Some, None, IfOk, OnOk};
ghost use Rattle.al_tree.specs.Leaves.{leaves_of};
ghost use Rattle.al_tree.specs.Types as grammar;
ghost use Rattle.al_tree.specs.Reading.{Reads};
ghost use Rattle.al_parse_stmt.specs.Heads as spec;

use al_base::{NoMemory, Place};
use al_items::Items;
use al_lex::{Token, TokenKind};
use al_parse_member::{Context, name_at, type_name};
use al_parse_type::{bounds_from, other_name};
use al_tree::{Cursor, Dcl, Declarator, Head, Name, Owner, Parameter, ParseError, TypeNames};
use std::alloc::Global;

/// The name of the first declarator of a declaration, behind its stars.
#[derive(Clone, Copy)]
pub(crate) struct FirstName {
    /// Where the stars begin.
    pub(crate) at: Place,
    pub(crate) stars: u32,
    pub(crate) name: Token,
    /// Whether it is a type's name, behind which the name of a function follows.
    pub(crate) owned: bool,
}

/// A list with one element.
pub(crate) fn only_name(alloc: Global, t: Token) -> Result<Items<Name>, NoMemory>
    ensures { IfOk result (λ all. all ≡ grammar.name_at t ∷ []) }
{
    let mut all = Items::new(alloc);
    all.push(name_at(t))?;
    Ok(all)
}

/// More names of types, with a comma before each.
fn type_names_from(
    types: &TypeNames,
    turns: usize,
    mut found: Items<Name>,
    tokens: &mut Cursor<'_>,
) -> Result<Items<Name>, ParseError>
    ensures { Reads (spec.type_names_from types.now turns found tokens.old) result tokens.new }
{
    for _turn in 0..turns {
        if !tokens.next_is(TokenKind::Comma) {
            return Ok(found);
        }
        tokens.take_if(true)?;
        let t = type_name(types, tokens)?;
        found.push(name_at(t))?;
    }
    Err(tokens.refuse())
}

/// More names that are no types', with a comma before each.
pub(crate) fn new_names_from(
    types: &TypeNames,
    turns: usize,
    mut found: Items<Name>,
    tokens: &mut Cursor<'_>,
) -> Result<Items<Name>, ParseError>
    ensures { Reads (spec.new_names_from types.now turns found tokens.old) result tokens.new }
{
    for _turn in 0..turns {
        if !tokens.next_is(TokenKind::Comma) {
            return Ok(found);
        }
        tokens.take_if(true)?;
        let t = other_name(types, tokens)?;
        found.push(name_at(t))?;
    }
    Err(tokens.refuse())
}

/// The head of a function at that place.
fn headed(
    at: Place,
    stars: u32,
    owner: Option<Owner>,
    n: Token,
    parameters: (Items<Parameter>, u32),
) -> (Declarator, u32)
    ensures { result ≡ spec.headed at stars owner n parameters }
{
    let (parameters, height) = parameters;
    let head = Head {
        at,
        stars,
        owner,
        name: name_at(n),
        parameters,
    };
    (Declarator::Function(head), height)
}

/// The name and the parameters of a function of an adt.
#[tactic(auto, unfolding(crate::specs::Heads::owned_head))]
pub(crate) fn owned_head(
    here: &Context<'_>,
    at: Place,
    stars: u32,
    owner: Owner,
    tokens: &mut Cursor<'_>,
) -> Result<(Declarator, u32), ParseError>
    requires turns { here.now.turns < 2 ^ 32 }
    requires depth { here.now.depth < 999 }
    ensures reads { Reads (spec.owned_head (leaves_of here.now.text.now) here.now.types.now here.now.turns here.now.depth at stars owner tokens.old) result tokens.new }
    ensures low { IfOk result (λ y. y.1 ≤ here.now.depth) }
{
    let n = other_name(here.types, tokens)?;
    tokens.expect(TokenKind::LeftParen)?;
    let parameters = here.parameter_list(tokens)?;
    Ok(headed(at, stars, Some(owner), n, parameters))
}

/// The parameters of an adt, which are types here, and the head of a function of it.
#[tactic(auto, unfolding(crate::specs::Heads::parametrised_head))]
pub(crate) fn parametrised_head(
    here: &Context<'_>,
    at: Place,
    stars: u32,
    a: Token,
    tokens: &mut Cursor<'_>,
) -> Result<(Declarator, u32), ParseError>
    requires turns { here.now.turns < 2 ^ 32 }
    requires depth { here.now.depth < 999 }
    ensures reads { Reads (spec.parametrised_head (leaves_of here.now.text.now) here.now.types.now here.now.turns here.now.depth at stars a tokens.old) result tokens.new }
    ensures low { IfOk result (λ y. y.1 ≤ here.now.depth) }
{
    let first = type_name(here.types, tokens)?;
    let found = only_name(here.alloc, first)?;
    let parameters = type_names_from(here.types, here.turns, found, tokens)?;
    tokens.expect(TokenKind::RightBracket)?;
    tokens.expect(TokenKind::Dot)?;
    let owner = Owner {
        adt: name_at(a),
        parameters,
    };
    owned_head(here, at, stars, owner, tokens)
}

/// Bounds behind a global's name, and an initializer or none.
#[tactic(auto, unfolding(crate::specs::Heads::global_after))]
fn global_after(
    here: &Context<'_>,
    at: Place,
    stars: u32,
    n: Token,
    tokens: &mut Cursor<'_>,
) -> Result<(Declarator, u32), ParseError>
    requires depth { here.now.depth < 999 }
    ensures reads { Reads (spec.global_after (leaves_of here.now.text.now) here.now.types.now here.now.turns here.now.depth at stars n tokens.old) result tokens.new }
    ensures low { IfOk result (λ y. y.1 ≤ here.now.depth) }
{
    let found = Items::new(here.alloc);
    let (bounds, low) = bounds_from(
        here.alloc, here.text, here.types, here.turns, here.depth, found, 0, tokens,
    )?;
    let dcl = Dcl {
        at,
        stars,
        name: name_at(n),
        bounds,
    };
    if !tokens.next_is(TokenKind::Equal) {
        return Ok((Declarator::Global { dcl, value: None }, low));
    }
    tokens.take_if(0 < here.depth)?;
    let (value, high) = here.initializer(tokens)?;
    let global = Declarator::Global {
        dcl,
        value: Some(value),
    };
    Ok((global, low.max(high)))
}

#[tactic(auto, unfolding(crate::specs::Heads::plain_head))]
fn plain_head(
    here: &Context<'_>,
    at: Place,
    stars: u32,
    n: Token,
    tokens: &mut Cursor<'_>,
) -> Result<(Declarator, u32), ParseError>
    requires turns { here.now.turns < 2 ^ 32 }
    requires depth { here.now.depth < 999 }
    ensures reads { Reads (spec.plain_head (leaves_of here.now.text.now) here.now.types.now here.now.turns here.now.depth at stars n tokens.old) result tokens.new }
    ensures low { IfOk result (λ y. y.1 ≤ here.now.depth) }
{
    tokens.take_if(true)?;
    let parameters = here.parameter_list(tokens)?;
    Ok(headed(at, stars, None, n, parameters))
}

/// A declarator of no adt's function, behind its stars.
/// What goes on behind a name that is no type's.
pub(crate) fn named_after(
    here: &Context<'_>,
    at: Place,
    stars: u32,
    n: Token,
    tokens: &mut Cursor<'_>,
) -> Result<(Declarator, u32), ParseError>
    requires turns { here.now.turns < 2 ^ 32 }
    requires depth { here.now.depth < 999 }
    ensures reads { Reads (spec.named_after (leaves_of here.now.text.now) here.now.types.now here.now.turns here.now.depth at stars n tokens.old) result tokens.new }
    ensures low { IfOk result (λ y. y.1 ≤ here.now.depth) }
{
    if tokens.next_is(TokenKind::LeftParen) {
        plain_head(here, at, stars, n, tokens)
    } else {
        global_after(here, at, stars, n, tokens)
    }
}

/// A declarator of no adt's function, behind its stars.
#[tactic(auto, unfolding(crate::specs::Heads::named_declarator))]
pub(crate) fn named_declarator(
    here: &Context<'_>,
    at: Place,
    stars: u32,
    tokens: &mut Cursor<'_>,
) -> Result<(Declarator, u32), ParseError>
    requires turns { here.now.turns < 2 ^ 32 }
    requires depth { here.now.depth < 999 }
    ensures reads { Reads (spec.named_declarator (leaves_of here.now.text.now) here.now.types.now here.now.turns here.now.depth at stars tokens.old) result tokens.new }
    ensures low { IfOk result (λ y. y.1 ≤ here.now.depth) }
{
    let n = other_name(here.types, tokens)?;
    named_after(here, at, stars, n, tokens)
}
