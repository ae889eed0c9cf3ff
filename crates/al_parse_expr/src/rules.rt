//! The rules of expressions. What stands inside an expression is parsed by a function that is passed in, so that each
//! rule is proved by itself.
ghost use Rattle.std.specs.Prelude.{◌≡◌, ◌+◌, ◌<◌, ◌≤◌, ℕ, max, [], ◌∷◌, ◌++◌, IfOk, OnOk};
ghost use Rattle.al_tree.specs.Leaves.{leaves_of};
ghost use Rattle.al_tree.specs.Reading.{Reads};
ghost use Rattle.al_parse_expr.specs.Parse as spec;
ghost use Rattle.al_parse_expr.specs.Nests.{Nests};

use crate::operand::{Operand, Want};
use al_base::{NoMemory, Place};
use al_items::Items;
use al_lex::TokenKind;
use al_tree::{Cursor, Expr, ParseError, TypeNames};
use std::alloc::Global;

/// What is no name has one height, called or not.
pub(crate) fn operand(tree: Expr, height: u32) -> Operand
    ensures { result ≡ spec.operand tree height }
{
    Operand {
        tree,
        height,
        called: height,
    }
}

/// A list with one element.
fn only(alloc: Global, x: Expr) -> Result<Items<Expr>, NoMemory>
    ensures { IfOk result (λ all. all ≡ x ∷ []) }
{
    let mut all = Items::new(alloc);
    all.push(x)?;
    Ok(all)
}

/// One expression in parentheses, of which the first stands at that place, or a tuple of more.
#[tactic(auto, using(crate::proofs::Closed::closed_one, crate::proofs::Closed::closed_other))]
pub(crate) fn closed(at: Place, mut parts: Items<Expr>, height: u32) -> (Expr, u32)
    requires { height < 1000 }
    ensures value { result ≡ spec.closed at (parts, height) }
    ensures height { result.1 ≡ height + 1 }
{
    if parts.len() != 1 {
        return (Expr::Tuple { at, parts }, height + 1);
    }
    match parts.pop() {
        Some(x) => (x, height + 1),
        None => (Expr::Tuple { at, parts }, height + 1),
    }
}

/// The rules of expressions of at most `depth + 1` levels.
#[derive(Clone, Copy)]
pub(crate) struct Rules<'t, F> {
    pub(crate) alloc: Global,
    pub(crate) text: &'t [u8],
    pub(crate) types: &'t TypeNames,
    /// How many turns a loop makes at most: more than there are tokens.
    pub(crate) turns: usize,
    /// How many levels what stands inside an expression may have.
    pub(crate) depth: u32,
    pub(crate) nested: F,
}

impl<
    't,
    F: Fn(
        Global,
        &[u8],
        &TypeNames,
        usize,
        u32,
        &mut Cursor<'_>,
        Want,
    ) -> Result<(Expr, u32), ParseError>,
> Rules<'t, F> {
    pub(crate) fn sub(&self, want: Want, tokens: &mut Cursor<'_>) -> Result<(Expr, u32), ParseError>
        requires nests { Nests self.now.turns self.now.depth (F.pre self.now.nested) (F.post self.now.nested) }
        requires depth { self.now.depth < 999 }
        ensures reads { Reads (spec.within (leaves_of self.now.text.now) self.now.types.now self.now.turns self.now.depth want tokens.old) result tokens.new }
        ensures low { IfOk result (λ x. x.1 ≤ self.now.depth) }
    {
        (self.nested)(
            self.alloc, self.text, self.types, self.turns, self.depth, tokens, want,
        )
    }

    /// Expressions with a comma before each, behind those that were found.
    pub(crate) fn more_from(
        &self,
        mut found: Items<Expr>,
        mut height: u32,
        tokens: &mut Cursor<'_>,
    ) -> Result<(Items<Expr>, u32), ParseError>
        requires nests { Nests self.now.turns self.now.depth (F.pre self.now.nested) (F.post self.now.nested) }
        requires depth { self.now.depth < 999 }
        requires height { height ≤ self.now.depth }
        ensures reads { Reads (spec.more_from (leaves_of self.now.text.now) self.now.types.now self.now.turns self.now.depth (spec.within (leaves_of self.now.text.now) self.now.types.now self.now.turns self.now.depth) self.now.turns found height tokens.old) result tokens.new }
        ensures low { IfOk result (λ x. x.1 ≤ self.now.depth) }
    {
        for _turn in 0..self.turns {
            if !tokens.next_is(TokenKind::Comma) {
                return Ok((found, height));
            }
            tokens.take_if(true)?;
            let x = self.sub(Want::Assignment, tokens)?;
            found.push(x.0)?;
            height = height.max(x.1);
        }
        Err(tokens.refuse())
    }

    /// The same behind a first expression.
    pub(crate) fn more_behind(
        &self,
        x: (Expr, u32),
        tokens: &mut Cursor<'_>,
    ) -> Result<(Items<Expr>, u32), ParseError>
        requires nests { Nests self.now.turns self.now.depth (F.pre self.now.nested) (F.post self.now.nested) }
        requires depth { self.now.depth < 999 }
        requires height { x.1 ≤ self.now.depth }
        ensures reads { Reads (spec.more_from (leaves_of self.now.text.now) self.now.types.now self.now.turns self.now.depth (spec.within (leaves_of self.now.text.now) self.now.types.now self.now.turns self.now.depth) self.now.turns (x.0 ∷ []) x.1 tokens.old) result tokens.new }
        ensures low { IfOk result (λ x. x.1 ≤ self.now.depth) }
    {
        let found = only(self.alloc, x.0)?;
        self.more_from(found, x.1, tokens)
    }

    /// Expressions with commas between them.
    #[tactic(auto, unfolding(crate::specs::Parse::listed))]
    pub(crate) fn listed(&self, tokens: &mut Cursor<'_>) -> Result<(Items<Expr>, u32), ParseError>
        requires nests { Nests self.now.turns self.now.depth (F.pre self.now.nested) (F.post self.now.nested) }
        requires depth { self.now.depth < 999 }
        ensures reads { Reads (spec.listed (leaves_of self.now.text.now) self.now.types.now self.now.turns self.now.depth (spec.within (leaves_of self.now.text.now) self.now.types.now self.now.turns self.now.depth) tokens.old) result tokens.new }
        ensures low { IfOk result (λ x. x.1 ≤ self.now.depth) }
    {
        let x = self.sub(Want::Assignment, tokens)?;
        self.more_behind(x, tokens)
    }
}
