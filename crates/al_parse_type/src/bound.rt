//! Bounds. What stands in parentheses is parsed by a function that is passed in, so that each rule is proved by itself.
ghost use Rattle.std.specs.Prelude.{◌≡◌, ◌≢◌, ◌+◌, ◌<◌, ◌≤◌, ◌^◌, ℕ, max, [], ◌∷◌, ◌++◌, length, IfOk, OnOk};
ghost use Rattle.al_tree.specs.Leaves.{leaves_of};
ghost use Rattle.al_tree.specs.Reading.{Reads};
ghost use Rattle.al_tree.specs.Words as words;
ghost use Rattle.al_parse_type.specs.Parse as spec;
ghost use Rattle.al_parse_type.specs.Nests.{BoundNests};

use crate::leaf::{number_at, other_name};
use al_base::{NoMemory, Place};
use al_items::{Boxed, Items};
use al_lex::TokenKind;
use al_tree::{Bound, BoundOp, Cursor, ParseError, TypeNames};
use std::alloc::Global;

fn bound_product(kind: TokenKind) -> Option<BoundOp>
    ensures { result ≡ words.bound_product kind }
{
    match kind {
        TokenKind::Star => Some(BoundOp::Times),
        _ => None,
    }
}

fn bound_sum(kind: TokenKind) -> Option<BoundOp>
    ensures { result ≡ words.bound_sum kind }
{
    match kind {
        TokenKind::Plus => Some(BoundOp::Plus),
        TokenKind::Minus => Some(BoundOp::Minus),
        _ => None,
    }
}

/// An operator between two bounds, with its height.
fn binary(
    alloc: Global,
    at: Place,
    op: BoundOp,
    x: (Bound, u32),
    y: (Bound, u32),
) -> Result<(Bound, u32), NoMemory>
    ensures { IfOk result (λ b. b ≡ (Bound.Binary at op x.0 y.0, max x.1 y.1)) }
{
    let height = x.1.max(y.1);
    let left = Boxed::new(alloc, x.0)?;
    let right = Boxed::new(alloc, y.0)?;
    let bound = Bound::Binary {
        at,
        op,
        left,
        right,
    };
    Ok((bound, height))
}

/// The rules of bounds of at most `depth` levels.
#[derive(Clone, Copy)]
pub(crate) struct Bounds<'t, F> {
    pub(crate) alloc: Global,
    pub(crate) text: &'t [u8],
    pub(crate) types: &'t TypeNames,
    /// How many turns a loop makes at most: more than there are tokens.
    pub(crate) turns: usize,
    /// How many levels a bound may have. What stands in its parentheses has fewer.
    pub(crate) depth: u32,
    pub(crate) nested: F,
}

impl<
    't,
    F: Fn(
        Global,
        &[u8],
        &TypeNames,
        usize,
        u32,
        &mut Cursor<'_>,
    ) -> Result<(Bound, u32), ParseError>,
> Bounds<'t, F> {
    fn sub(&self, tokens: &mut Cursor<'_>) -> Result<(Bound, u32), ParseError>
        requires nests { BoundNests self.now.turns self.now.depth (F.pre self.now.nested) (F.post self.now.nested) }
        ensures reads { Reads (spec.bound_below (leaves_of self.now.text.now) self.now.types.now self.now.turns self.now.depth tokens.old) result tokens.new }
        ensures low { IfOk result (λ x. x.1 < self.now.depth) }
    {
        (self.nested)(
            self.alloc, self.text, self.types, self.turns, self.depth, tokens,
        )
    }

    /// What stands in parentheses, after the first.
    #[tactic(auto, unfolding(crate::specs::Parse::bound_inside))]
    fn bound_inside(&self, tokens: &mut Cursor<'_>) -> Result<(Bound, u32), ParseError>
        requires nests { BoundNests self.now.turns self.now.depth (F.pre self.now.nested) (F.post self.now.nested) }
        ensures reads { Reads (spec.bound_inside (leaves_of self.now.text.now) self.now.types.now self.now.turns self.now.depth (spec.bound_below (leaves_of self.now.text.now) self.now.types.now self.now.turns self.now.depth) tokens.old) result tokens.new }
        ensures low { IfOk result (λ x. x.1 ≤ self.now.depth) }
    {
        let (x, height) = self.sub(tokens)?;
        tokens.expect(TokenKind::RightParen)?;
        Ok((x, height + 1))
    }

    #[tactic(auto, unfolding(crate::specs::Parse::bound_prim))]
    fn bound_prim(&self, tokens: &mut Cursor<'_>) -> Result<(Bound, u32), ParseError>
        requires nests { BoundNests self.now.turns self.now.depth (F.pre self.now.nested) (F.post self.now.nested) }
        ensures reads { Reads (spec.bound_prim (leaves_of self.now.text.now) self.now.types.now self.now.turns self.now.depth (spec.bound_below (leaves_of self.now.text.now) self.now.types.now self.now.turns self.now.depth) tokens.old) result tokens.new }
        ensures low { IfOk result (λ x. x.1 ≤ self.now.depth) }
    {
        match tokens.peek() {
            TokenKind::Number => {
                let t = tokens.take_if(true)?;
                let value = number_at(self.text, t);
                Ok((Bound::Number { at: t.place, value }, 0))
            }
            TokenKind::Name => {
                let t = other_name(self.types, tokens)?;
                Ok((
                    Bound::Name {
                        at: t.place,
                        name: t.name,
                    },
                    0,
                ))
            }
            TokenKind::LeftParen => {
                tokens.take_if(0 < self.depth)?;
                self.bound_inside(tokens)
            }
            _ => Err(tokens.refuse()),
        }
    }

    /// Products after `x`, which begins at that place.
    #[tactic(auto, unfolding(crate::specs::Parse::products_from))]
    fn products_from(
        &self,
        at: Place,
        mut x: (Bound, u32),
        tokens: &mut Cursor<'_>,
    ) -> Result<(Bound, u32), ParseError>
        requires nests { BoundNests self.now.turns self.now.depth (F.pre self.now.nested) (F.post self.now.nested) }
        requires height { x.1 ≤ self.now.depth }
        ensures reads { Reads (spec.products_from (leaves_of self.now.text.now) self.now.types.now self.now.turns self.now.depth (spec.bound_below (leaves_of self.now.text.now) self.now.types.now self.now.turns self.now.depth) self.now.turns at x tokens.old) result tokens.new }
        ensures low { IfOk result (λ x. x.1 ≤ self.now.depth) }
    {
        for _turn in 0..self.turns {
            match bound_product(tokens.peek()) {
                None => return Ok(x),
                Some(op) => {
                    tokens.take_if(true)?;
                    let y = self.bound_prim(tokens)?;
                    x = binary(self.alloc, at, op, x, y)?;
                }
            }
        }
        Err(tokens.refuse())
    }

    #[tactic(auto, unfolding(crate::specs::Parse::bound_term))]
    fn bound_term(&self, tokens: &mut Cursor<'_>) -> Result<(Bound, u32), ParseError>
        requires nests { BoundNests self.now.turns self.now.depth (F.pre self.now.nested) (F.post self.now.nested) }
        ensures reads { Reads (spec.bound_term (leaves_of self.now.text.now) self.now.types.now self.now.turns self.now.depth (spec.bound_below (leaves_of self.now.text.now) self.now.types.now self.now.turns self.now.depth) tokens.old) result tokens.new }
        ensures low { IfOk result (λ x. x.1 ≤ self.now.depth) }
    {
        let at = tokens.here();
        let x = self.bound_prim(tokens)?;
        self.products_from(at, x, tokens)
    }

    /// Sums after `x`, which begins at that place.
    #[tactic(auto, unfolding(crate::specs::Parse::sums_from))]
    fn sums_from(
        &self,
        at: Place,
        mut x: (Bound, u32),
        tokens: &mut Cursor<'_>,
    ) -> Result<(Bound, u32), ParseError>
        requires nests { BoundNests self.now.turns self.now.depth (F.pre self.now.nested) (F.post self.now.nested) }
        requires height { x.1 ≤ self.now.depth }
        ensures reads { Reads (spec.sums_from (leaves_of self.now.text.now) self.now.types.now self.now.turns self.now.depth (spec.bound_below (leaves_of self.now.text.now) self.now.types.now self.now.turns self.now.depth) self.now.turns at x tokens.old) result tokens.new }
        ensures low { IfOk result (λ x. x.1 ≤ self.now.depth) }
    {
        for _turn in 0..self.turns {
            match bound_sum(tokens.peek()) {
                None => return Ok(x),
                Some(op) => {
                    tokens.take_if(true)?;
                    let y = self.bound_term(tokens)?;
                    x = binary(self.alloc, at, op, x, y)?;
                }
            }
        }
        Err(tokens.refuse())
    }

    /// A bound that begins with `x` at that place.
    #[tactic(auto, unfolding(crate::specs::Parse::bound_after))]
    pub(crate) fn bound_after(
        &self,
        at: Place,
        x: (Bound, u32),
        tokens: &mut Cursor<'_>,
    ) -> Result<(Bound, u32), ParseError>
        requires nests { BoundNests self.now.turns self.now.depth (F.pre self.now.nested) (F.post self.now.nested) }
        requires height { x.1 ≤ self.now.depth }
        ensures reads { Reads (spec.bound_after (leaves_of self.now.text.now) self.now.types.now self.now.turns self.now.depth (spec.bound_below (leaves_of self.now.text.now) self.now.types.now self.now.turns self.now.depth) at x tokens.old) result tokens.new }
        ensures low { IfOk result (λ x. x.1 ≤ self.now.depth) }
    {
        let y = self.products_from(at, x, tokens)?;
        self.sums_from(at, y, tokens)
    }

    /// A bound.
    #[tactic(auto, unfolding(crate::specs::Parse::bound_at))]
    pub(crate) fn bound_at(&self, tokens: &mut Cursor<'_>) -> Result<(Bound, u32), ParseError>
        requires nests { BoundNests self.now.turns self.now.depth (F.pre self.now.nested) (F.post self.now.nested) }
        ensures reads { Reads (spec.bound_at (leaves_of self.now.text.now) self.now.types.now self.now.turns self.now.depth (spec.bound_below (leaves_of self.now.text.now) self.now.types.now self.now.turns self.now.depth) tokens.old) result tokens.new }
        ensures low { IfOk result (λ x. x.1 ≤ self.now.depth) }
    {
        let at = tokens.here();
        let x = self.bound_term(tokens)?;
        self.sums_from(at, x, tokens)
    }
}

/// A bound of less than `depth` levels.

pub(crate) fn bound_below(
    alloc: Global,
    text: &[u8],
    types: &TypeNames,
    turns: usize,
    depth: u32,
    tokens: &mut Cursor<'_>,
) -> Result<(Bound, u32), ParseError>
    ensures reads { Reads (spec.bound_below (leaves_of text.now) types.now turns depth tokens.old) result tokens.new }
    ensures low { IfOk result (λ x. x.1 < depth) }
{
    if depth == 0 {
        return Err(ParseError::Deep(0));
    }
    let rules = Bounds {
        alloc,
        text,
        types,
        turns,
        depth: depth - 1,
        nested: bound_below,
    };
    rules.bound_at(tokens)
}

/// A bound of at most `depth` levels.
#[tactic(auto, unfolding(crate::specs::Parse::bound))]
pub fn bound_within(
    alloc: Global,
    text: &[u8],
    types: &TypeNames,
    turns: usize,
    depth: u32,
    tokens: &mut Cursor<'_>,
) -> Result<(Bound, u32), ParseError>
    ensures reads { Reads (spec.bound (leaves_of text.now) types.now turns depth tokens.old) result tokens.new }
    ensures low { IfOk result (λ x. x.1 ≤ depth) }
{
    let rules = Bounds {
        alloc,
        text,
        types,
        turns,
        depth,
        nested: bound_below,
    };
    rules.bound_at(tokens)
}
