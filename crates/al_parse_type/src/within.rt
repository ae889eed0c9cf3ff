//! Types and parts of types with at most `depth` levels, for the parsers of what has types in it.
ghost use Rattle.std.specs.Prelude.{◌+◌, ◌<◌, ◌≤◌, ◌^◌, IfOk};
ghost use Rattle.al_tree.specs.Leaves.{leaves_of};
ghost use Rattle.al_tree.specs.Reading.{Reads};
ghost use Rattle.al_parse_type.specs.Nests.{Fits};
ghost use Rattle.al_parse_type.specs.Within as spec;

use crate::base::Types;
use crate::part::{Part, ReadBase};
use crate::types::below;
use al_base::Place;
use al_lex::Token;
use al_tree::{Cursor, ParseError, TypeNames, TypeTree};
use std::alloc::Global;

/// A type.
pub fn type_within(
    alloc: Global,
    text: &[u8],
    types: &TypeNames,
    turns: usize,
    depth: u32,
    tokens: &mut Cursor<'_>,
) -> Result<(TypeTree, u32), ParseError>
    requires depth { depth + 1 < 2 ^ 32 }
    ensures reads { Reads (spec.type_within (leaves_of text.now) types.now turns depth tokens.old) result tokens.new }
    ensures low { IfOk result (λ x. x.1 ≤ depth) }
{
    let rules = Types {
        alloc,
        text,
        types,
        turns,
        depth,
        nested: below,
    };
    rules.type_at(true, tokens)
}

/// A base type with stars, in which a tuple that is not inside `chan( )` has its word.
pub fn starred_within(
    alloc: Global,
    text: &[u8],
    types: &TypeNames,
    turns: usize,
    depth: u32,
    tokens: &mut Cursor<'_>,
) -> Result<(TypeTree, u32), ParseError>
    requires depth { depth + 1 < 2 ^ 32 }
    ensures reads { Reads (spec.starred_within (leaves_of text.now) types.now turns depth tokens.old) result tokens.new }
    ensures low { IfOk result (λ x. x.1 ≤ depth) }
{
    let rules = Types {
        alloc,
        text,
        types,
        turns,
        depth,
        nested: below,
    };
    rules.starred_at(false, tokens)
}

/// A base type.
pub fn base_within(
    alloc: Global,
    text: &[u8],
    types: &TypeNames,
    turns: usize,
    depth: u32,
    tokens: &mut Cursor<'_>,
) -> Result<ReadBase, ParseError>
    requires depth { depth + 1 < 2 ^ 32 }
    ensures reads { Reads (spec.base_within (leaves_of text.now) types.now turns depth tokens.old) result tokens.new }
    ensures low { IfOk result (λ x. x.height ≤ depth) }
{
    let rules = Types {
        alloc,
        text,
        types,
        turns,
        depth,
        nested: below,
    };
    rules.base_at(true, tokens)
}

/// The tuple at that place, behind the first type in its parentheses.
pub fn tuple_within(
    alloc: Global,
    text: &[u8],
    types: &TypeNames,
    turns: usize,
    depth: u32,
    at: Place,
    first: (TypeTree, u32),
    tokens: &mut Cursor<'_>,
) -> Result<ReadBase, ParseError>
    requires depth { depth + 1 < 2 ^ 32 }
    requires height { first.1 < depth }
    ensures reads { Reads (spec.tuple_within (leaves_of text.now) types.now turns depth at first tokens.old) result tokens.new }
    ensures low { IfOk result (λ x. x.height ≤ depth) }
{
    let rules = Types {
        alloc,
        text,
        types,
        turns,
        depth,
        nested: below,
    };
    rules.tuple_after(true, at, first, tokens)
}

/// The type that begins with that base type, which begins at that place.
pub fn type_behind(
    alloc: Global,
    text: &[u8],
    types: &TypeNames,
    turns: usize,
    depth: u32,
    at: Place,
    x: ReadBase,
    tokens: &mut Cursor<'_>,
) -> Result<(TypeTree, u32), ParseError>
    requires depth { depth + 1 < 2 ^ 32 }
    requires height { x.height ≤ depth }
    ensures reads { Reads (spec.type_behind (leaves_of text.now) types.now turns depth at x tokens.old) result tokens.new }
    ensures low { IfOk result (λ y. y.1 ≤ depth) }
{
    let rules = Types {
        alloc,
        text,
        types,
        turns,
        depth,
        nested: below,
    };
    rules.type_after(at, x, tokens)
}

/// What stands in brackets behind the name of a type, behind the one that opens: a type argument, which has one level less, or the
/// bound of an array.
pub fn inside_within(
    alloc: Global,
    text: &[u8],
    types: &TypeNames,
    turns: usize,
    depth: u32,
    tokens: &mut Cursor<'_>,
) -> Result<(Part, u32), ParseError>
    requires depth { depth + 1 < 2 ^ 32 }
    ensures reads { Reads (spec.inside_within (leaves_of text.now) types.now turns depth tokens.old) result tokens.new }
    ensures low { IfOk result (λ x. Fits depth x.0 x.1) }
{
    let rules = Types {
        alloc,
        text,
        types,
        turns,
        depth,
        nested: below,
    };
    rules.inside(tokens)
}

/// The type of that name, behind the first type in its brackets.
pub fn arguments_within(
    alloc: Global,
    text: &[u8],
    types: &TypeNames,
    turns: usize,
    depth: u32,
    t: Token,
    first: (TypeTree, u32),
    tokens: &mut Cursor<'_>,
) -> Result<ReadBase, ParseError>
    requires depth { depth + 1 < 2 ^ 32 }
    requires height { first.1 < depth }
    ensures reads { Reads (spec.arguments_within (leaves_of text.now) types.now turns depth t first tokens.old) result tokens.new }
    ensures low { IfOk result (λ x. x.height ≤ depth) }
{
    let rules = Types {
        alloc,
        text,
        types,
        turns,
        depth,
        nested: below,
    };
    rules.arguments_after(true, t, first, tokens)
}
