//! Unary expressions, casts and sizes.
ghost use Rattle.std.specs.Prelude.{◌≡◌, ◌+◌, ◌<◌, ◌≤◌, ℕ, max, IfOk, OnOk};
ghost use Rattle.al_tree.specs.Leaves.{leaves_of};
ghost use Rattle.al_tree.specs.Reading.{Reads};
ghost use Rattle.al_parse_type.specs.Within.{starred_within as spec_starred};
ghost use Rattle.al_parse_expr.specs.Parse as spec;
ghost use Rattle.al_parse_expr.specs.Nests.{Nests};

use crate::operand::Want;
use crate::rules::{Rules, closed, operand};
use crate::words::prefix_operator;
use al_base::Place;
use al_items::Boxed;
use al_lex::{Token, TokenKind};
use al_parse_type::{sees_type, starred_within};
use al_tree::{Cursor, Expr, ParseError, TypeNames, TypeTree, UnaryOp, same_kind};
use std::alloc::Global;

impl<
    't,
    F: Fn(
        Global,
        &[u8],
        &TypeNames,
        usize,
        u32,
        &mut Cursor<'_>,
        Want,
    ) -> Result<(Expr, u32), ParseError>,
> Rules<'t, F> {
    /// What stands behind that parenthesis, where it is no cast.
    #[tactic(auto, unfolding(crate::specs::Parse::opened))]
    pub(crate) fn opened(
        &self,
        o: Token,
        tokens: &mut Cursor<'_>,
    ) -> Result<(Expr, u32), ParseError>
        requires nests { Nests self.now.turns self.now.depth (F.pre self.now.nested) (F.post self.now.nested) }
        requires depth { self.now.depth < 999 }
        ensures reads { Reads (spec.opened (leaves_of self.now.text.now) self.now.types.now self.now.turns self.now.depth (spec.within (leaves_of self.now.text.now) self.now.types.now self.now.turns self.now.depth) o tokens.old) result tokens.new }
        ensures low { IfOk result (λ x. x.1 ≤ self.now.depth + 1) }
    {
        let (parts, height) = self.listed(tokens)?;
        tokens.expect(TokenKind::RightParen)?;
        let (tree, height) = closed(o.place, parts, height);
        self.post_from(o.place, operand(tree, height), tokens)
    }

    /// The type of a cast.
    fn cast_type(&self, tokens: &mut Cursor<'_>) -> Result<(TypeTree, u32), ParseError>
        requires depth { self.now.depth < 999 }
        ensures reads { Reads (spec_starred (leaves_of self.now.text.now) self.now.types.now self.now.turns self.now.depth tokens.old) result tokens.new }
        ensures low { IfOk result (λ x. x.1 ≤ self.now.depth) }
    {
        starred_within(
            self.alloc, self.text, self.types, self.turns, self.depth, tokens,
        )
    }

    #[tactic(auto, unfolding(crate::specs::Parse::cast))]
    fn cast(&self, at: Place, tokens: &mut Cursor<'_>) -> Result<(Expr, u32), ParseError>
        requires nests { Nests self.now.turns self.now.depth (F.pre self.now.nested) (F.post self.now.nested) }
        requires depth { self.now.depth < 999 }
        ensures reads { Reads (spec.cast (leaves_of self.now.text.now) self.now.types.now self.now.turns self.now.depth (spec.within (leaves_of self.now.text.now) self.now.types.now self.now.turns self.now.depth) at tokens.old) result tokens.new }
        ensures low { IfOk result (λ x. x.1 ≤ self.now.depth + 1) }
    {
        let x = self.cast_type(tokens)?;
        tokens.expect(TokenKind::RightParen)?;
        let y = self.sub(Want::Binary(0), tokens)?;
        let height = x.1.max(y.1) + 1;
        let operand = Boxed::new(self.alloc, y.0)?;
        let tree = Expr::Cast {
            at,
            to: x.0,
            operand,
        };
        Ok((tree, height))
    }

    #[tactic(auto, unfolding(crate::specs::Parse::parenthesis))]
    fn parenthesis(&self, tokens: &mut Cursor<'_>) -> Result<(Expr, u32), ParseError>
        requires nests { Nests self.now.turns self.now.depth (F.pre self.now.nested) (F.post self.now.nested) }
        requires depth { self.now.depth < 999 }
        ensures reads { Reads (spec.parenthesis (leaves_of self.now.text.now) self.now.types.now self.now.turns self.now.depth (spec.within (leaves_of self.now.text.now) self.now.types.now self.now.turns self.now.depth) tokens.old) result tokens.new }
        ensures low { IfOk result (λ x. x.1 ≤ self.now.depth + 1) }
    {
        let o = tokens.take_if(0 < self.depth)?;
        if sees_type(self.types, tokens) {
            self.cast(o.place, tokens)
        } else {
            self.opened(o, tokens)
        }
    }

    #[tactic(auto, unfolding(crate::specs::Parse::size_of_type))]
    fn size_of_type(&self, at: Place, tokens: &mut Cursor<'_>) -> Result<(Expr, u32), ParseError>
        requires nests { Nests self.now.turns self.now.depth (F.pre self.now.nested) (F.post self.now.nested) }
        requires depth { self.now.depth < 999 }
        ensures reads { Reads (spec.size_of_type (leaves_of self.now.text.now) self.now.types.now self.now.turns self.now.depth (spec.within (leaves_of self.now.text.now) self.now.types.now self.now.turns self.now.depth) at tokens.old) result tokens.new }
        ensures low { IfOk result (λ x. x.1 ≤ self.now.depth + 1) }
    {
        let (of, height) = self.cast_type(tokens)?;
        tokens.expect(TokenKind::RightParen)?;
        Ok((Expr::SizeofType { at, of }, height + 1))
    }

    #[tactic(auto, unfolding(crate::specs::Parse::size_of_value))]
    fn size_of_value(
        &self,
        at: Place,
        want: Want,
        tokens: &mut Cursor<'_>,
    ) -> Result<(Expr, u32), ParseError>
        requires nests { Nests self.now.turns self.now.depth (F.pre self.now.nested) (F.post self.now.nested) }
        requires depth { self.now.depth < 999 }
        ensures reads { Reads (spec.size_of_value (leaves_of self.now.text.now) self.now.types.now self.now.turns self.now.depth (spec.within (leaves_of self.now.text.now) self.now.types.now self.now.turns self.now.depth) at want tokens.old) result tokens.new }
        ensures low { IfOk result (λ x. x.1 ≤ self.now.depth + 1) }
    {
        let (x, height) = self.sub(want, tokens)?;
        let of = Boxed::new(self.alloc, x)?;
        Ok((Expr::SizeofValue { at, of }, height + 1))
    }

    /// What stands behind `sizeof`, where it is a parenthesis.
    #[tactic(auto, unfolding(crate::specs::Parse::size_inside))]
    fn size_inside(&self, at: Place, tokens: &mut Cursor<'_>) -> Result<(Expr, u32), ParseError>
        requires nests { Nests self.now.turns self.now.depth (F.pre self.now.nested) (F.post self.now.nested) }
        requires depth { self.now.depth < 999 }
        ensures reads { Reads (spec.size_inside (leaves_of self.now.text.now) self.now.types.now self.now.turns self.now.depth (spec.within (leaves_of self.now.text.now) self.now.types.now self.now.turns self.now.depth) at tokens.old) result tokens.new }
        ensures low { IfOk result (λ x. x.1 ≤ self.now.depth + 1) }
    {
        let o = tokens.take_if(true)?;
        if sees_type(self.types, tokens) {
            self.size_of_type(at, tokens)
        } else {
            self.size_of_value(at, Want::Opened(o), tokens)
        }
    }

    #[tactic(auto, unfolding(crate::specs::Parse::size))]
    fn size(&self, tokens: &mut Cursor<'_>) -> Result<(Expr, u32), ParseError>
        requires nests { Nests self.now.turns self.now.depth (F.pre self.now.nested) (F.post self.now.nested) }
        requires depth { self.now.depth < 999 }
        ensures reads { Reads (spec.size (leaves_of self.now.text.now) self.now.types.now self.now.turns self.now.depth (spec.within (leaves_of self.now.text.now) self.now.types.now self.now.turns self.now.depth) tokens.old) result tokens.new }
        ensures low { IfOk result (λ x. x.1 ≤ self.now.depth + 1) }
    {
        let t = tokens.take_if(true)?;
        if tokens.next_is(TokenKind::LeftParen) {
            self.size_inside(t.place, tokens)
        } else {
            self.size_of_value(t.place, Want::Binary(0), tokens)
        }
    }

    #[tactic(auto, unfolding(crate::specs::Parse::prefixed))]
    fn prefixed(&self, op: UnaryOp, tokens: &mut Cursor<'_>) -> Result<(Expr, u32), ParseError>
        requires nests { Nests self.now.turns self.now.depth (F.pre self.now.nested) (F.post self.now.nested) }
        requires depth { self.now.depth < 999 }
        ensures reads { Reads (spec.prefixed (leaves_of self.now.text.now) self.now.types.now self.now.turns self.now.depth (spec.within (leaves_of self.now.text.now) self.now.types.now self.now.turns self.now.depth) op tokens.old) result tokens.new }
        ensures low { IfOk result (λ x. x.1 ≤ self.now.depth + 1) }
    {
        let t = tokens.take_if(0 < self.depth)?;
        let (x, height) = self.sub(Want::Binary(0), tokens)?;
        let operand = Boxed::new(self.alloc, x)?;
        let tree = Expr::Unary {
            at: t.place,
            op,
            operand,
        };
        Ok((tree, height + 1))
    }

    #[tactic(auto, unfolding(crate::specs::Parse::unary))]
    pub(crate) fn unary(&self, tokens: &mut Cursor<'_>) -> Result<(Expr, u32), ParseError>
        requires nests { Nests self.now.turns self.now.depth (F.pre self.now.nested) (F.post self.now.nested) }
        requires depth { self.now.depth < 999 }
        ensures reads { Reads (spec.unary (leaves_of self.now.text.now) self.now.types.now self.now.turns self.now.depth (spec.within (leaves_of self.now.text.now) self.now.types.now self.now.turns self.now.depth) tokens.old) result tokens.new }
        ensures low { IfOk result (λ x. x.1 ≤ self.now.depth + 1) }
    {
        let next = tokens.peek();
        if let Some(op) = prefix_operator(next) {
            self.prefixed(op, tokens)
        } else if same_kind(next, TokenKind::LeftParen) {
            self.parenthesis(tokens)
        } else if same_kind(next, TokenKind::Sizeof) {
            self.size(tokens)
        } else {
            self.post(tokens)
        }
    }
}
