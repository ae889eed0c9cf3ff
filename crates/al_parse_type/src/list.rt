//! Stars, bounds in brackets, and declarators.
ghost use Rattle.std.specs.Prelude.{◌≡◌, ◌+◌, ◌<◌, ◌≤◌, ◌^◌, ℕ, max, [], ◌∷◌, ◌++◌, IfOk, OnOk};
ghost use Rattle.al_tree.specs.Leaves.{leaves_of};
ghost use Rattle.al_tree.specs.Reading.{Reads};
ghost use Rattle.al_tree.specs.Types as rules;
ghost use Rattle.al_parse_type.specs.Parse as spec;

use crate::bound::bound_within;
use crate::leaf::other_name;
use crate::part::ReadBase;
use al_base::{NoMemory, Place};
use al_items::{Boxed, Items};
use al_lex::TokenKind;
use al_tree::{Bound, Cursor, Dcl, Name, ParseError, TypeNames, TypeTree};
use std::alloc::Global;

/// Arrays of a type that begins at that place, the first bound outermost.
#[tactic(auto, using(crate::proofs::Arrays::arrays_last))]
pub(crate) fn arrays(
    alloc: Global,
    at: Place,
    mut bounds: Items<Bound>,
    mut of: TypeTree,
) -> Result<TypeTree, NoMemory>
    ensures { IfOk result (λ x. x ≡ rules.arrays at bounds of) }
{
    while let Some(bound) = bounds.pop() {
        of = TypeTree::Array {
            at,
            bound,
            element: Boxed::new(alloc, of)?,
        };
    }
    Ok(of)
}

/// Bounds in brackets, behind those that were found.
pub fn bounds_from(
    alloc: Global,
    text: &[u8],
    types: &TypeNames,
    turns: usize,
    depth: u32,
    mut found: Items<Bound>,
    mut height: u32,
    tokens: &mut Cursor<'_>,
) -> Result<(Items<Bound>, u32), ParseError>
    requires height { height ≤ depth }
    ensures reads { Reads (spec.bounds_from (leaves_of text.now) types.now turns depth turns found height tokens.old) result tokens.new }
    ensures low { IfOk result (λ x. x.1 ≤ depth) }
{
    for _turn in 0..turns {
        if !tokens.next_is(TokenKind::LeftBracket) {
            return Ok((found, height));
        }
        tokens.take_if(true)?;
        let x = bound_within(alloc, text, types, turns, depth, tokens)?;
        tokens.expect(TokenKind::RightBracket)?;
        found.push(x.0)?;
        height = height.max(x.1);
    }
    Err(tokens.refuse())
}

/// How many stars come next.
pub fn stars_from(turns: usize, tokens: &mut Cursor<'_>) -> Result<u32, ParseError>
    requires { turns < 2 ^ 32 }
    ensures { Reads (spec.stars_from turns 0 tokens.old) result tokens.new }
{
    let mut stars = 0u32;
    for _turn in 0..turns {
        if !tokens.next_is(TokenKind::Star) {
            return Ok(stars);
        }
        tokens.take_if(true)?;
        stars += 1;
    }
    Err(tokens.refuse())
}

/// Stars behind a base type that begins at that place.
pub(crate) fn pointers_from(
    alloc: Global,
    turns: usize,
    at: Place,
    mut x: ReadBase,
    tokens: &mut Cursor<'_>,
) -> Result<ReadBase, ParseError>
    ensures reads { Reads (spec.pointers_from turns at x tokens.old) result tokens.new }
    ensures height { IfOk result (λ y. y.height ≡ x.height) }
{
    for _turn in 0..turns {
        if !tokens.next_is(TokenKind::Star) {
            return Ok(x);
        }
        tokens.take_if(true)?;
        x = ReadBase {
            tree: TypeTree::Pointer {
                at,
                to: Boxed::new(alloc, x.tree)?,
            },
            height: x.height,
            takes_bracket: false,
        };
    }
    Err(tokens.refuse())
}

/// A declarator with at most `depth` levels.
#[tactic(auto, unfolding(crate::specs::Parse::dcl))]
pub fn dcl_within(
    alloc: Global,
    text: &[u8],
    types: &TypeNames,
    turns: usize,
    depth: u32,
    tokens: &mut Cursor<'_>,
) -> Result<(Dcl, u32), ParseError>
    requires turns { turns < 2 ^ 32 }
    ensures reads { Reads (spec.dcl (leaves_of text.now) types.now turns depth tokens.old) result tokens.new }
    ensures low { IfOk result (λ x. x.1 ≤ depth) }
{
    let at = tokens.here();
    let stars = stars_from(turns, tokens)?;
    let t = other_name(types, tokens)?;
    let name = Name {
        at: t.place,
        name: t.name,
    };
    let found = Items::new(alloc);
    let (bounds, height) = bounds_from(alloc, text, types, turns, depth, found, 0, tokens)?;
    let dcl = Dcl {
        at,
        stars,
        name,
        bounds,
    };
    Ok((dcl, height))
}
