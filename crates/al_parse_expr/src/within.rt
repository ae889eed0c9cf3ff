//! Expressions and parts of expressions with at most `depth` levels, for the parsers of what has expressions in it. What
//! goes on behind a first part has at most `depth + 1`.
ghost use Rattle.std.specs.Prelude.{◌+◌, ◌<◌, ◌≤◌, IfOk};
ghost use Rattle.al_tree.specs.Leaves.{leaves_of};
ghost use Rattle.al_tree.specs.Reading.{Reads};
ghost use Rattle.al_parse_expr.specs.Within as spec;

use crate::assignment::within;
use crate::operand::{Operand, Want};
use crate::rules::{Rules, closed, operand};
use al_base::Place;
use al_items::Items;
use al_lex::{Token, TokenKind};
use al_tree::{Cursor, Expr, ParseError, TypeNames};
use std::alloc::Global;

/// An expression, with commas.
pub fn expression_within(
    alloc: Global,
    text: &[u8],
    types: &TypeNames,
    turns: usize,
    depth: u32,
    tokens: &mut Cursor<'_>,
) -> Result<(Expr, u32), ParseError>
    requires depth { depth < 999 }
    ensures reads { Reads (spec.expression_within (leaves_of text.now) types.now turns depth tokens.old) result tokens.new }
    ensures low { IfOk result (λ x. x.1 ≤ depth) }
{
    within(alloc, text, types, turns, depth, tokens, Want::Expression)
}

/// An assignment.
pub fn assignment_within(
    alloc: Global,
    text: &[u8],
    types: &TypeNames,
    turns: usize,
    depth: u32,
    tokens: &mut Cursor<'_>,
) -> Result<(Expr, u32), ParseError>
    requires depth { depth < 999 }
    ensures reads { Reads (spec.assignment_within (leaves_of text.now) types.now turns depth tokens.old) result tokens.new }
    ensures low { IfOk result (λ x. x.1 ≤ depth) }
{
    within(alloc, text, types, turns, depth, tokens, Want::Assignment)
}

/// A unary expression.
pub fn operand_within(
    alloc: Global,
    text: &[u8],
    types: &TypeNames,
    turns: usize,
    depth: u32,
    tokens: &mut Cursor<'_>,
) -> Result<(Expr, u32), ParseError>
    requires depth { depth < 999 }
    ensures reads { Reads (spec.operand_within (leaves_of text.now) types.now turns depth tokens.old) result tokens.new }
    ensures low { IfOk result (λ x. x.1 ≤ depth) }
{
    within(alloc, text, types, turns, depth, tokens, Want::Binary(0))
}

/// Assignments with commas between them.
pub fn list_within(
    alloc: Global,
    text: &[u8],
    types: &TypeNames,
    turns: usize,
    depth: u32,
    tokens: &mut Cursor<'_>,
) -> Result<(Items<Expr>, u32), ParseError>
    requires depth { depth < 999 }
    ensures reads { Reads (spec.list_within (leaves_of text.now) types.now turns depth tokens.old) result tokens.new }
    ensures low { IfOk result (λ x. x.1 ≤ depth) }
{
    let rules = Rules {
        alloc,
        text,
        types,
        turns,
        depth,
        nested: within,
    };
    rules.listed(tokens)
}

/// The postfix expression that begins with that name.
pub fn after_name(
    alloc: Global,
    text: &[u8],
    types: &TypeNames,
    turns: usize,
    depth: u32,
    t: Token,
    tokens: &mut Cursor<'_>,
) -> Result<(Expr, u32), ParseError>
    requires depth { depth < 999 }
    ensures reads { Reads (spec.after_name (leaves_of text.now) types.now turns depth t tokens.old) result tokens.new }
    ensures low { IfOk result (λ x. x.1 ≤ depth + 1) }
{
    let rules = Rules {
        alloc,
        text,
        types,
        turns,
        depth,
        nested: within,
    };
    let name = Operand {
        tree: Expr::Name {
            at: t.place,
            name: t.name,
        },
        height: 1,
        called: 0,
    };
    rules.post_from(t.place, name, tokens)
}

/// The postfix expression that begins with that parenthesis, in which no type comes next.
pub fn after_paren(
    alloc: Global,
    text: &[u8],
    types: &TypeNames,
    turns: usize,
    depth: u32,
    o: Token,
    tokens: &mut Cursor<'_>,
) -> Result<(Expr, u32), ParseError>
    requires depth { depth < 999 }
    ensures reads { Reads (spec.after_paren (leaves_of text.now) types.now turns depth o tokens.old) result tokens.new }
    ensures low { IfOk result (λ x. x.1 ≤ depth + 1) }
{
    let rules = Rules {
        alloc,
        text,
        types,
        turns,
        depth,
        nested: within,
    };
    rules.opened(o, tokens)
}

/// The same where the first expression in the parentheses was read.
#[tactic(auto, unfolding(crate::specs::Within::after_first))]
pub fn after_first(
    alloc: Global,
    text: &[u8],
    types: &TypeNames,
    turns: usize,
    depth: u32,
    o: Token,
    x: (Expr, u32),
    tokens: &mut Cursor<'_>,
) -> Result<(Expr, u32), ParseError>
    requires depth { depth < 999 }
    requires height { x.1 ≤ depth }
    ensures reads { Reads (spec.after_first (leaves_of text.now) types.now turns depth o x tokens.old) result tokens.new }
    ensures low { IfOk result (λ x. x.1 ≤ depth + 1) }
{
    let rules = Rules {
        alloc,
        text,
        types,
        turns,
        depth,
        nested: within,
    };
    let (parts, height) = rules.more_behind(x, tokens)?;
    tokens.expect(TokenKind::RightParen)?;
    let (tree, height) = closed(o.place, parts, height);
    rules.post_from(o.place, operand(tree, height), tokens)
}

/// The assignment that begins with that unary expression.
pub fn after_unary(
    alloc: Global,
    text: &[u8],
    types: &TypeNames,
    turns: usize,
    depth: u32,
    at: Place,
    x: (Expr, u32),
    tokens: &mut Cursor<'_>,
) -> Result<(Expr, u32), ParseError>
    requires depth { depth < 999 }
    requires height { x.1 ≤ depth + 1 }
    ensures reads { Reads (spec.after_unary (leaves_of text.now) types.now turns depth at x tokens.old) result tokens.new }
    ensures low { IfOk result (λ x. x.1 ≤ depth + 1) }
{
    let rules = Rules {
        alloc,
        text,
        types,
        turns,
        depth,
        nested: within,
    };
    rules.asg_after(at, x, tokens)
}

/// The expression that begins with that assignment.
pub fn after_assignment(
    alloc: Global,
    text: &[u8],
    types: &TypeNames,
    turns: usize,
    depth: u32,
    at: Place,
    x: (Expr, u32),
    tokens: &mut Cursor<'_>,
) -> Result<(Expr, u32), ParseError>
    requires depth { depth < 999 }
    requires height { x.1 ≤ depth + 1 }
    ensures reads { Reads (spec.after_assignment (leaves_of text.now) types.now turns depth at x tokens.old) result tokens.new }
    ensures low { IfOk result (λ x. x.1 ≤ depth + 1) }
{
    let rules = Rules {
        alloc,
        text,
        types,
        turns,
        depth,
        nested: within,
    };
    rules.expr_after(at, x, tokens)
}
