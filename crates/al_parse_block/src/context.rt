//! What the rules of statements share, and what they read of expressions.
ghost use Rattle.std.specs.Prelude.{◌≡◌, ◌+◌, ◌<◌, ◌≤◌, ◌^◌, ℕ, pred, IfOk, OnOk};
ghost use Rattle.al_tree.specs.Leaves.{leaves_of};
ghost use Rattle.al_tree.specs.Reading.{Reads};
ghost use Rattle.al_parse_expr.specs.Within as expr_spec;
ghost use Rattle.al_parse_block.specs.Parse as spec;

use crate::part::ReadStmt;
use al_base::Place;
use al_items::Items;
use al_lex::{Token, TokenKind};
use al_parse_expr::{
    after_assignment, after_name, after_unary, assignment_within, expression_within, list_within,
};
use al_parse_type::{number_at, sees_other_name};
use al_tree::{Cursor, Expr, Name, ParseError, Stmt, TypeNames};
use std::alloc::Global;

/// A statement that ends in no `if` without `else`.
pub(crate) fn ended(tree: Stmt, height: u32) -> ReadStmt
    ensures { result ≡ spec.ended tree height }
{
    ReadStmt {
        tree,
        height,
        dangles: false,
    }
}

/// One level less, if there is one.
pub(crate) fn below(depth: u32) -> u32
    ensures value { result ≡ pred depth }
    ensures less { result ≤ depth }
    ensures one { 0 < depth → result + 1 ≡ depth }
{
    if depth == 0 { 0 } else { depth - 1 }
}

/// Where statements are parsed, of at most `depth + 1` levels.
#[derive(Clone, Copy)]
pub(crate) struct Context<'t> {
    pub(crate) alloc: Global,
    pub(crate) text: &'t [u8],
    pub(crate) types: &'t TypeNames,
    /// How many turns a loop makes at most: more than there are tokens.
    pub(crate) turns: usize,
    /// How many levels what stands inside a statement may have.
    pub(crate) depth: u32,
}

impl<'t> Context<'t> {
    pub(crate) fn expression(&self, tokens: &mut Cursor<'_>) -> Result<(Expr, u32), ParseError>
        requires depth { self.now.depth < 999 }
        ensures reads { Reads (expr_spec.expression_within (leaves_of self.now.text.now) self.now.types.now self.now.turns self.now.depth tokens.old) result tokens.new }
        ensures low { IfOk result (λ x. x.1 ≤ self.now.depth) }
    {
        expression_within(
            self.alloc, self.text, self.types, self.turns, self.depth, tokens,
        )
    }

    pub(crate) fn assignment(&self, tokens: &mut Cursor<'_>) -> Result<(Expr, u32), ParseError>
        requires depth { self.now.depth < 999 }
        ensures reads { Reads (expr_spec.assignment_within (leaves_of self.now.text.now) self.now.types.now self.now.turns self.now.depth tokens.old) result tokens.new }
        ensures low { IfOk result (λ x. x.1 ≤ self.now.depth) }
    {
        assignment_within(
            self.alloc, self.text, self.types, self.turns, self.depth, tokens,
        )
    }

    pub(crate) fn list(&self, tokens: &mut Cursor<'_>) -> Result<(Items<Expr>, u32), ParseError>
        requires depth { self.now.depth < 999 }
        ensures reads { Reads (expr_spec.list_within (leaves_of self.now.text.now) self.now.types.now self.now.turns self.now.depth tokens.old) result tokens.new }
        ensures low { IfOk result (λ x. x.1 ≤ self.now.depth) }
    {
        list_within(
            self.alloc, self.text, self.types, self.turns, self.depth, tokens,
        )
    }

    /// `(`, an expression and `)`.
    #[tactic(auto, unfolding(crate::specs::Parse::condition))]
    pub(crate) fn condition(&self, tokens: &mut Cursor<'_>) -> Result<(Expr, u32), ParseError>
        requires depth { self.now.depth < 999 }
        ensures reads { Reads (spec.condition (leaves_of self.now.text.now) self.now.types.now self.now.turns self.now.depth tokens.old) result tokens.new }
        ensures low { IfOk result (λ x. x.1 ≤ self.now.depth) }
    {
        tokens.expect(TokenKind::LeftParen)?;
        let x = self.expression(tokens)?;
        tokens.expect(TokenKind::RightParen)?;
        Ok(x)
    }

    /// An expression or none, and the token behind it.
    #[tactic(auto, unfolding(crate::specs::Parse::optional))]
    pub(crate) fn optional(
        &self,
        close: TokenKind,
        tokens: &mut Cursor<'_>,
    ) -> Result<(Option<Expr>, u32), ParseError>
        requires depth { self.now.depth < 999 }
        ensures reads { Reads (spec.optional (leaves_of self.now.text.now) self.now.types.now self.now.turns self.now.depth close tokens.old) result tokens.new }
        ensures low { IfOk result (λ x. x.1 ≤ self.now.depth) }
    {
        if tokens.next_is(close) {
            tokens.take_if(true)?;
            return Ok((None, 0));
        }
        let (x, height) = self.expression(tokens)?;
        tokens.expect(close)?;
        Ok((Some(x), height))
    }

    /// A name that is no type's, or none.
    #[tactic(auto, unfolding(crate::specs::Parse::optional_name))]
    pub(crate) fn optional_name(&self, tokens: &mut Cursor<'_>) -> Result<Option<Name>, ParseError>
        ensures { Reads (spec.optional_name (leaves_of self.now.text.now) self.now.types.now self.now.turns self.now.depth tokens.old) result tokens.new }
    {
        if !sees_other_name(self.types, tokens) {
            return Ok(None);
        }
        let t = tokens.take_if(true)?;
        Ok(Some(Name {
            at: t.place,
            name: t.name,
        }))
    }

    /// The value of a number, or none.
    #[tactic(auto, unfolding(crate::specs::Parse::optional_number))]
    pub(crate) fn optional_number(&self, tokens: &mut Cursor<'_>) -> Result<Option<u64>, ParseError>
        ensures { Reads (spec.optional_number (leaves_of self.now.text.now) self.now.types.now self.now.turns self.now.depth tokens.old) result tokens.new }
    {
        if !tokens.next_is(TokenKind::Number) {
            return Ok(None);
        }
        let t = tokens.take_if(true)?;
        Ok(Some(number_at(self.text, t)))
    }

    /// The expression that goes on behind an assignment, and the semicolon.
    #[tactic(auto, unfolding(crate::specs::Parse::value_behind))]
    pub(crate) fn value_behind(
        &self,
        at: Place,
        x: (Expr, u32),
        tokens: &mut Cursor<'_>,
    ) -> Result<ReadStmt, ParseError>
        requires depth { self.now.depth < 999 }
        requires some { 0 < self.now.depth }
        requires height { x.1 ≤ self.now.depth }
        ensures reads { Reads (spec.value_behind (leaves_of self.now.text.now) self.now.types.now self.now.turns self.now.depth at x tokens.old) result tokens.new }
        ensures low { IfOk result (λ y. y.height ≤ self.now.depth + 1) }
    {
        let depth = below(self.depth);
        let (value, height) = after_assignment(
            self.alloc, self.text, self.types, self.turns, depth, at, x, tokens,
        )?;
        tokens.expect(TokenKind::Semicolon)?;
        Ok(ended(Stmt::Value { at, value }, height + 1))
    }

    /// The same behind a name, which may be that of a function.
    #[tactic(auto, unfolding(crate::specs::Parse::value_named))]
    pub(crate) fn value_named(
        &self,
        t: Token,
        tokens: &mut Cursor<'_>,
    ) -> Result<ReadStmt, ParseError>
        requires depth { self.now.depth < 999 }
        requires some { 0 < self.now.depth }
        ensures reads { Reads (spec.value_named (leaves_of self.now.text.now) self.now.types.now self.now.turns self.now.depth t tokens.old) result tokens.new }
        ensures low { IfOk result (λ y. y.height ≤ self.now.depth + 1) }
    {
        let depth = below(self.depth);
        let x = after_name(
            self.alloc, self.text, self.types, self.turns, depth, t, tokens,
        )?;
        let y = after_unary(
            self.alloc, self.text, self.types, self.turns, depth, t.place, x, tokens,
        )?;
        self.value_behind(t.place, y, tokens)
    }
}
