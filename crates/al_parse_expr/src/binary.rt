//! Binary operators, from the left, and iterators.
ghost use Rattle.std.specs.Prelude.{◌≡◌, ◌+◌, ◌<◌, ◌≤◌, ℕ, max, IfOk, OnOk};
ghost use Rattle.al_tree.specs.Leaves.{leaves_of};
ghost use Rattle.al_tree.specs.Reading.{Reads};
ghost use Rattle.al_parse_expr.specs.Parse as spec;
ghost use Rattle.al_parse_expr.specs.Nests.{Nests};

use crate::operand::Want;
use crate::rules::Rules;
use crate::words::operator;
use al_base::{NoMemory, Place};
use al_items::Boxed;
use al_lex::TokenKind;
use al_tree::{BinaryOp, Cursor, Expr, ParseError, TypeNames};
use std::alloc::Global;

/// The level of `::`.
const ITERATOR: u8 = 3;

/// An operator between two expressions, with its height.
fn operated(
    alloc: Global,
    at: Place,
    op: BinaryOp,
    x: (Expr, u32),
    y: (Expr, u32),
) -> Result<(Expr, u32), NoMemory>
    requires x { x.1 < 1000 }
    requires y { y.1 < 1000 }
    ensures { IfOk result (λ z. z ≡ (Expr.Binary at op x.0 y.0, max x.1 y.1 + 1)) }
{
    let height = x.1.max(y.1) + 1;
    let left = Boxed::new(alloc, x.0)?;
    let right = Boxed::new(alloc, y.0)?;
    let tree = Expr::Binary {
        at,
        op,
        left,
        right,
    };
    Ok((tree, height))
}

impl<
    't,
    F: Fn(
        Global,
        &[u8],
        &TypeNames,
        usize,
        u32,
        &mut Cursor<'_>,
        Want,
    ) -> Result<(Expr, u32), ParseError>,
> Rules<'t, F> {
    /// Operators of one level behind `x`, which begins at that place.
    fn chain_from(
        &self,
        level: u8,
        at: Place,
        mut x: (Expr, u32),
        tokens: &mut Cursor<'_>,
    ) -> Result<(Expr, u32), ParseError>
        requires nests { Nests self.now.turns self.now.depth (F.pre self.now.nested) (F.post self.now.nested) }
        requires depth { self.now.depth < 999 }
        requires height { x.1 ≤ self.now.depth + 1 }
        ensures reads { Reads (spec.chain_from (leaves_of self.now.text.now) self.now.types.now self.now.turns self.now.depth (spec.within (leaves_of self.now.text.now) self.now.types.now self.now.turns self.now.depth) self.now.turns level at x tokens.old) result tokens.new }
        ensures low { IfOk result (λ x. x.1 ≤ self.now.depth + 1) }
    {
        for _turn in 0..self.turns {
            let Some(op) = operator(level, tokens.peek()) else {
                return Ok(x);
            };
            tokens.take_if(x.1 <= self.depth)?;
            let y = self.sub(Want::Binary(level), tokens)?;
            x = operated(self.alloc, at, op, x, y)?;
        }
        Err(tokens.refuse())
    }

    /// `::` and what follows it, or nothing.
    #[tactic(auto, unfolding(crate::specs::Parse::iterated))]
    fn iterated(
        &self,
        at: Place,
        x: (Expr, u32),
        tokens: &mut Cursor<'_>,
    ) -> Result<(Expr, u32), ParseError>
        requires nests { Nests self.now.turns self.now.depth (F.pre self.now.nested) (F.post self.now.nested) }
        requires depth { self.now.depth < 999 }
        requires height { x.1 ≤ self.now.depth + 1 }
        ensures reads { Reads (spec.iterated (leaves_of self.now.text.now) self.now.types.now self.now.turns self.now.depth (spec.within (leaves_of self.now.text.now) self.now.types.now self.now.turns self.now.depth) at x tokens.old) result tokens.new }
        ensures low { IfOk result (λ x. x.1 ≤ self.now.depth + 1) }
    {
        if !tokens.next_is(TokenKind::ColonColon) {
            return Ok(x);
        }
        tokens.take_if(x.1 <= self.depth)?;
        let y = self.sub(Want::Binary(ITERATOR), tokens)?;
        let height = x.1.max(y.1) + 1;
        let from = Boxed::new(self.alloc, x.0)?;
        let to = Boxed::new(self.alloc, y.0)?;
        Ok((Expr::Iterator { at, from, to }, height))
    }

    #[tactic(auto, unfolding(crate::specs::Parse::level_of))]
    fn level_of(
        &self,
        level: u8,
        at: Place,
        x: (Expr, u32),
        tokens: &mut Cursor<'_>,
    ) -> Result<(Expr, u32), ParseError>
        requires nests { Nests self.now.turns self.now.depth (F.pre self.now.nested) (F.post self.now.nested) }
        requires depth { self.now.depth < 999 }
        requires height { x.1 ≤ self.now.depth + 1 }
        ensures reads { Reads (spec.level_of (leaves_of self.now.text.now) self.now.types.now self.now.turns self.now.depth (spec.within (leaves_of self.now.text.now) self.now.types.now self.now.turns self.now.depth) level at x tokens.old) result tokens.new }
        ensures low { IfOk result (λ x. x.1 ≤ self.now.depth + 1) }
    {
        if level == ITERATOR {
            self.iterated(at, x, tokens)
        } else {
            self.chain_from(level, at, x, tokens)
        }
    }

    /// Operators of all levels below that one.
    #[tactic(auto, unfolding(crate::specs::Parse::levels))]
    pub(crate) fn levels(
        &self,
        below: u8,
        at: Place,
        x: (Expr, u32),
        tokens: &mut Cursor<'_>,
    ) -> Result<(Expr, u32), ParseError>
        requires nests { Nests self.now.turns self.now.depth (F.pre self.now.nested) (F.post self.now.nested) }
        requires depth { self.now.depth < 999 }
        requires height { x.1 ≤ self.now.depth + 1 }
        ensures reads { Reads (spec.levels (leaves_of self.now.text.now) self.now.types.now self.now.turns self.now.depth (spec.within (leaves_of self.now.text.now) self.now.types.now self.now.turns self.now.depth) below at x tokens.old) result tokens.new }
        ensures low { IfOk result (λ x. x.1 ≤ self.now.depth + 1) }
    {
        if below == 0 {
            return Ok(x);
        }
        let y = self.levels(below - 1, at, x, tokens)?;
        self.level_of(below - 1, at, y, tokens)
    }

    #[tactic(auto, unfolding(crate::specs::Parse::binary))]
    pub(crate) fn binary(
        &self,
        level: u8,
        tokens: &mut Cursor<'_>,
    ) -> Result<(Expr, u32), ParseError>
        requires nests { Nests self.now.turns self.now.depth (F.pre self.now.nested) (F.post self.now.nested) }
        requires depth { self.now.depth < 999 }
        ensures reads { Reads (spec.binary (leaves_of self.now.text.now) self.now.types.now self.now.turns self.now.depth (spec.within (leaves_of self.now.text.now) self.now.types.now self.now.turns self.now.depth) level tokens.old) result tokens.new }
        ensures low { IfOk result (λ x. x.1 ≤ self.now.depth + 1) }
    {
        let at = tokens.here();
        let x = self.unary(tokens)?;
        self.levels(level, at, x, tokens)
    }
}
