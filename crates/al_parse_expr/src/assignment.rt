//! Assignments and expressions with commas.
ghost use Rattle.std.specs.Prelude.{◌≡◌, ◌+◌, ◌<◌, ◌≤◌, ℕ, max, IfOk, OnOk};
ghost use Rattle.al_tree.specs.Leaves.{leaves_of};
ghost use Rattle.al_tree.specs.Reading.{Reads};
ghost use Rattle.al_parse_expr.specs.Parse as spec;
ghost use Rattle.al_parse_expr.specs.Nests.{Nests};

use crate::operand::Want;
use crate::rules::Rules;
use crate::words::{assign_operator, begins_value};
use al_base::Place;
use al_items::Boxed;
use al_lex::TokenKind;
use al_tree::{Cursor, Expr, ParseError, TypeNames};
use std::alloc::Global;

/// How many levels of binary operators there are.
const LOOSEST: u8 = 11;

impl<
    't,
    F: Fn(
        Global,
        &[u8],
        &TypeNames,
        usize,
        u32,
        &mut Cursor<'_>,
        Want,
    ) -> Result<(Expr, u32), ParseError>,
> Rules<'t, F> {
    /// What stands behind a unary expression that begins at that place.
    #[tactic(auto, unfolding(crate::specs::Parse::asg_after))]
    pub(crate) fn asg_after(
        &self,
        at: Place,
        x: (Expr, u32),
        tokens: &mut Cursor<'_>,
    ) -> Result<(Expr, u32), ParseError>
        requires nests { Nests self.now.turns self.now.depth (F.pre self.now.nested) (F.post self.now.nested) }
        requires depth { self.now.depth < 999 }
        requires height { x.1 ≤ self.now.depth + 1 }
        ensures reads { Reads (spec.asg_after (leaves_of self.now.text.now) self.now.types.now self.now.turns self.now.depth (spec.within (leaves_of self.now.text.now) self.now.types.now self.now.turns self.now.depth) at x tokens.old) result tokens.new }
        ensures low { IfOk result (λ x. x.1 ≤ self.now.depth + 1) }
    {
        let Some(op) = assign_operator(tokens.peek()) else {
            return self.levels(LOOSEST, at, x, tokens);
        };
        tokens.take_if(x.1 <= self.depth)?;
        let y = self.sub(Want::Assignment, tokens)?;
        let height = x.1.max(y.1) + 1;
        let left = Boxed::new(self.alloc, x.0)?;
        let right = Boxed::new(self.alloc, y.0)?;
        let tree = Expr::Assign {
            at,
            op,
            left,
            right,
        };
        Ok((tree, height))
    }

    #[tactic(auto, unfolding(crate::specs::Parse::asg))]
    fn asg(&self, tokens: &mut Cursor<'_>) -> Result<(Expr, u32), ParseError>
        requires nests { Nests self.now.turns self.now.depth (F.pre self.now.nested) (F.post self.now.nested) }
        requires depth { self.now.depth < 999 }
        ensures reads { Reads (spec.asg (leaves_of self.now.text.now) self.now.types.now self.now.turns self.now.depth (spec.within (leaves_of self.now.text.now) self.now.types.now self.now.turns self.now.depth) tokens.old) result tokens.new }
        ensures low { IfOk result (λ x. x.1 ≤ self.now.depth + 1) }
    {
        let at = tokens.here();
        let x = self.unary(tokens)?;
        self.asg_after(at, x, tokens)
    }

    /// The expressions behind the first one, with a comma before each.
    #[tactic(auto, unfolding(crate::specs::Parse::sequence))]
    fn sequence(
        &self,
        at: Place,
        x: (Expr, u32),
        tokens: &mut Cursor<'_>,
    ) -> Result<(Expr, u32), ParseError>
        requires nests { Nests self.now.turns self.now.depth (F.pre self.now.nested) (F.post self.now.nested) }
        requires depth { self.now.depth < 999 }
        requires height { x.1 ≤ self.now.depth }
        ensures reads { Reads (spec.sequence (leaves_of self.now.text.now) self.now.types.now self.now.turns self.now.depth (spec.within (leaves_of self.now.text.now) self.now.types.now self.now.turns self.now.depth) at x tokens.old) result tokens.new }
        ensures low { IfOk result (λ x. x.1 ≤ self.now.depth + 1) }
    {
        let (parts, height) = self.more_behind(x, tokens)?;
        Ok((Expr::Sequence { at, parts }, height + 1))
    }

    /// What stands behind an assignment that begins at that place.
    #[tactic(auto, unfolding(crate::specs::Parse::expr_after))]
    pub(crate) fn expr_after(
        &self,
        at: Place,
        x: (Expr, u32),
        tokens: &mut Cursor<'_>,
    ) -> Result<(Expr, u32), ParseError>
        requires nests { Nests self.now.turns self.now.depth (F.pre self.now.nested) (F.post self.now.nested) }
        requires depth { self.now.depth < 999 }
        requires height { x.1 ≤ self.now.depth + 1 }
        ensures reads { Reads (spec.expr_after (leaves_of self.now.text.now) self.now.types.now self.now.turns self.now.depth (spec.within (leaves_of self.now.text.now) self.now.types.now self.now.turns self.now.depth) at x tokens.old) result tokens.new }
        ensures low { IfOk result (λ x. x.1 ≤ self.now.depth + 1) }
    {
        if !tokens.next_is(TokenKind::Comma) {
            return Ok(x);
        }
        if x.1 <= self.depth {
            self.sequence(at, x, tokens)
        } else {
            tokens.take_if(false)?;
            Err(tokens.refuse())
        }
    }

    #[tactic(auto, unfolding(crate::specs::Parse::expr_at))]
    fn expr_at(&self, tokens: &mut Cursor<'_>) -> Result<(Expr, u32), ParseError>
        requires nests { Nests self.now.turns self.now.depth (F.pre self.now.nested) (F.post self.now.nested) }
        requires depth { self.now.depth < 999 }
        ensures reads { Reads (spec.expr_at (leaves_of self.now.text.now) self.now.types.now self.now.turns self.now.depth (spec.within (leaves_of self.now.text.now) self.now.types.now self.now.turns self.now.depth) tokens.old) result tokens.new }
        ensures low { IfOk result (λ x. x.1 ≤ self.now.depth + 1) }
    {
        let at = tokens.here();
        let x = self.asg(tokens)?;
        self.expr_after(at, x, tokens)
    }

    fn at_want(&self, want: Want, tokens: &mut Cursor<'_>) -> Result<(Expr, u32), ParseError>
        requires nests { Nests self.now.turns self.now.depth (F.pre self.now.nested) (F.post self.now.nested) }
        requires depth { self.now.depth < 999 }
        ensures reads { Reads (spec.at_want (leaves_of self.now.text.now) self.now.types.now self.now.turns self.now.depth (spec.within (leaves_of self.now.text.now) self.now.types.now self.now.turns self.now.depth) want tokens.old) result tokens.new }
        ensures low { IfOk result (λ x. x.1 ≤ self.now.depth + 1) }
    {
        match want {
            Want::Expression => self.expr_at(tokens),
            Want::Assignment => self.asg(tokens),
            Want::Binary(level) => self.binary(level, tokens),
            Want::Opened(o) => self.opened(o, tokens),
        }
    }
}

/// Where no level is left: the token that an expression may begin with goes too deep.
#[tactic(auto, unfolding(crate::specs::Parse::no_room))]
pub(crate) fn no_room(types: &TypeNames, tokens: &mut Cursor<'_>) -> Result<(Expr, u32), ParseError>
    ensures reads { Reads (spec.no_room types.now tokens.old) result tokens.new }
    ensures low { IfOk result (λ x. x.1 ≤ 0) }
{
    if begins_value(types, tokens) {
        tokens.take_if(false)?;
        Err(tokens.refuse())
    } else {
        Err(tokens.refuse())
    }
}

/// What is wanted, with at most `depth` levels.
pub(crate) fn within(
    alloc: Global,
    text: &[u8],
    types: &TypeNames,
    turns: usize,
    depth: u32,
    tokens: &mut Cursor<'_>,
    want: Want,
) -> Result<(Expr, u32), ParseError>
    requires depth { depth < 999 }
    ensures reads { Reads (spec.within (leaves_of text.now) types.now turns depth want tokens.old) result tokens.new }
    ensures low { IfOk result (λ x. x.1 ≤ depth) }
{
    if depth == 0 {
        return no_room(types, tokens);
    }
    let rules = Rules {
        alloc,
        text,
        types,
        turns,
        depth: depth - 1,
        nested: within,
    };
    rules.at_want(want, tokens)
}
