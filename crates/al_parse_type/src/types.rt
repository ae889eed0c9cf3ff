//! Types with their stars and bounds, and what stands behind a name's bracket or behind a parenthesis.
ghost use Rattle.std.specs.Prelude.{◌≡◌, ◌≢◌, ◌+◌, ◌<◌, ◌≤◌, ◌^◌, ℕ, max, [], ◌∷◌, ◌++◌, length, IfOk, OnOk};
ghost use Rattle.al_tree.specs.Leaves.{leaves_of};
ghost use Rattle.al_tree.specs.Reading.{Reads};
ghost use Rattle.al_tree.specs.Types as rules;
ghost use Rattle.al_parse_type.specs.Parse as spec;
ghost use Rattle.al_parse_type.specs.Nests.{Nests, Fits};
ghost use Rattle.al_parse_type.specs.Within as within;

use crate::base::{Types, begins_part, named_by, part_wanted, sees_type, sized_base};
use crate::bound::{Bounds, bound_below, bound_within};
use crate::leaf::sees_type_name;
use crate::list::{arrays, bounds_from, pointers_from};
use crate::part::{Part, ReadBase, Want};
use al_base::Place;
use al_items::Items;
use al_lex::{Token, TokenKind};
use al_tree::{Bound, Cursor, ParseError, TypeNames, TypeTree};
use std::alloc::Global;

impl<
    't,
    F: Fn(
        Global,
        &[u8],
        &TypeNames,
        usize,
        u32,
        &mut Cursor<'_>,
        Want,
    ) -> Result<(Part, u32), ParseError>,
> Types<'t, F> {
    /// Stars and bounds behind a base type that begins at that place.
    #[tactic(auto, unfolding(crate::specs::Parse::type_after))]
    pub(crate) fn type_after(
        &self,
        at: Place,
        x: ReadBase,
        tokens: &mut Cursor<'_>,
    ) -> Result<(TypeTree, u32), ParseError>
        requires nests { Nests self.now.turns self.now.depth (F.pre self.now.nested) (F.post self.now.nested) }
        requires depth { self.now.depth + 1 < 2 ^ 32 }
        requires height { x.height ≤ self.now.depth }
        ensures reads { Reads (spec.type_after (leaves_of self.now.text.now) self.now.types.now self.now.turns self.now.depth (spec.below (leaves_of self.now.text.now) self.now.types.now self.now.turns self.now.depth) at x tokens.old) result tokens.new }
        ensures low { IfOk result (λ x. x.1 ≤ self.now.depth) }
    {
        let y = pointers_from(self.alloc, self.turns, at, x, tokens)?;
        if y.takes_bracket {
            return Ok((y.tree, y.height));
        }
        let none = Items::new(self.alloc);
        let (bounds, height) = self.bounds(none, 0, tokens)?;
        let height = y.height.max(height);
        Ok((arrays(self.alloc, at, bounds, y.tree)?, height))
    }

    fn bounds(
        &self,
        found: Items<Bound>,
        height: u32,
        tokens: &mut Cursor<'_>,
    ) -> Result<(Items<Bound>, u32), ParseError>
        requires depth { self.now.depth + 1 < 2 ^ 32 }
        requires height { height ≤ self.now.depth }
        ensures reads { Reads (spec.bounds_from (leaves_of self.now.text.now) self.now.types.now self.now.turns self.now.depth self.now.turns found height tokens.old) result tokens.new }
        ensures low { IfOk result (λ x. x.1 ≤ self.now.depth) }
    {
        bounds_from(
            self.alloc, self.text, self.types, self.turns, self.depth, found, height, tokens,
        )
    }

    /// The array of that name's type, behind its first bound.
    #[tactic(auto, unfolding(crate::specs::Parse::array_of))]
    fn array_of(
        &self,
        t: Token,
        n: (Bound, u32),
        tokens: &mut Cursor<'_>,
    ) -> Result<(TypeTree, u32), ParseError>
        requires nests { Nests self.now.turns self.now.depth (F.pre self.now.nested) (F.post self.now.nested) }
        requires depth { self.now.depth + 1 < 2 ^ 32 }
        requires height { n.1 ≤ self.now.depth }
        ensures reads { Reads (spec.array_of (leaves_of self.now.text.now) self.now.types.now self.now.turns self.now.depth (spec.below (leaves_of self.now.text.now) self.now.types.now self.now.turns self.now.depth) t n tokens.old) result tokens.new }
        ensures low { IfOk result (λ x. x.1 ≤ self.now.depth) }
    {
        tokens.expect(TokenKind::RightBracket)?;
        let mut found = Items::new(self.alloc);
        found.push(n.0)?;
        let (bounds, height) = self.bounds(found, n.1, tokens)?;
        let tree = arrays(self.alloc, t.place, bounds, named_by(self.alloc, t))?;
        Ok((tree, height))
    }

    #[tactic(auto)]
    fn bracketed(
        &self,
        bare: bool,
        t: Token,
        x: (Part, u32),
        tokens: &mut Cursor<'_>,
    ) -> Result<(TypeTree, u32), ParseError>
        requires nests { Nests self.now.turns self.now.depth (F.pre self.now.nested) (F.post self.now.nested) }
        requires depth { self.now.depth + 1 < 2 ^ 32 }
        requires height { Fits self.now.depth x.0 x.1 }
        ensures reads { Reads (spec.bracketed (leaves_of self.now.text.now) self.now.types.now self.now.turns self.now.depth (spec.below (leaves_of self.now.text.now) self.now.types.now self.now.turns self.now.depth) bare t x tokens.old) result tokens.new }
        ensures low { IfOk result (λ x. x.1 ≤ self.now.depth) }
    {
        let (part, height) = x;
        match part {
            Part::Type(x) => {
                let base = self.arguments_after(bare, t, (x, height), tokens)?;
                self.type_after(t.place, base, tokens)
            }
            Part::Bound(x) => self.array_of(t, (x, height), tokens),
        }
    }

    /// The same, where a type may begin.
    #[tactic(auto, unfolding(crate::specs::Parse::bracket_part))]
    fn bracket_part(
        &self,
        bare: bool,
        t: Token,
        tokens: &mut Cursor<'_>,
    ) -> Result<(TypeTree, u32), ParseError>
        requires nests { Nests self.now.turns self.now.depth (F.pre self.now.nested) (F.post self.now.nested) }
        requires depth { self.now.depth + 1 < 2 ^ 32 }
        ensures reads { Reads (spec.bracket_part (leaves_of self.now.text.now) self.now.types.now self.now.turns self.now.depth (spec.below (leaves_of self.now.text.now) self.now.types.now self.now.turns self.now.depth) bare t tokens.old) result tokens.new }
        ensures low { IfOk result (λ x. x.1 ≤ self.now.depth) }
    {
        let x = self.sub(part_wanted(bare), tokens)?;
        self.bracketed(bare, t, x, tokens)
    }

    /// The type of that name behind the bracket that opens.
    #[tactic(auto, unfolding(crate::specs::Parse::bracket))]
    fn bracket(
        &self,
        bare: bool,
        t: Token,
        tokens: &mut Cursor<'_>,
    ) -> Result<(TypeTree, u32), ParseError>
        requires nests { Nests self.now.turns self.now.depth (F.pre self.now.nested) (F.post self.now.nested) }
        requires depth { self.now.depth + 1 < 2 ^ 32 }
        ensures reads { Reads (spec.bracket (leaves_of self.now.text.now) self.now.types.now self.now.turns self.now.depth (spec.below (leaves_of self.now.text.now) self.now.types.now self.now.turns self.now.depth) bare t tokens.old) result tokens.new }
        ensures low { IfOk result (λ x. x.1 ≤ self.now.depth) }
    {
        if begins_part(self.types, bare, tokens) {
            if 0 < self.depth {
                self.bracket_part(bare, t, tokens)
            } else {
                tokens.take_if(false)?;
                Err(tokens.refuse())
            }
        } else {
            let n = self.bound(tokens)?;
            self.array_of(t, n, tokens)
        }
    }

    /// What stands in brackets behind the name of a type, behind the one that opens.
    #[tactic(auto, unfolding(crate::specs::Within::inside_within))]
    pub(crate) fn inside(&self, tokens: &mut Cursor<'_>) -> Result<(Part, u32), ParseError>
        requires nests { Nests self.now.turns self.now.depth (F.pre self.now.nested) (F.post self.now.nested) }
        requires depth { self.now.depth + 1 < 2 ^ 32 }
        ensures reads { Reads (within.inside_within (leaves_of self.now.text.now) self.now.types.now self.now.turns self.now.depth tokens.old) result tokens.new }
        ensures low { IfOk result (λ x. Fits self.now.depth x.0 x.1) }
    {
        if begins_part(self.types, true, tokens) {
            if 0 < self.depth {
                self.sub(Want::Either, tokens)
            } else {
                tokens.take_if(false)?;
                Err(tokens.refuse())
            }
        } else {
            let x = self.bound(tokens)?;
            Ok((Part::Bound(x.0), x.1))
        }
    }

    /// A type that begins with a type's name.
    #[tactic(auto, unfolding(crate::specs::Parse::named_type))]
    fn named_type(&self, bare: bool, tokens: &mut Cursor<'_>) -> Result<(TypeTree, u32), ParseError>
        requires nests { Nests self.now.turns self.now.depth (F.pre self.now.nested) (F.post self.now.nested) }
        requires depth { self.now.depth + 1 < 2 ^ 32 }
        ensures reads { Reads (spec.named_type (leaves_of self.now.text.now) self.now.types.now self.now.turns self.now.depth (spec.below (leaves_of self.now.text.now) self.now.types.now self.now.turns self.now.depth) bare tokens.old) result tokens.new }
        ensures low { IfOk result (λ x. x.1 ≤ self.now.depth) }
    {
        let t = tokens.take_if(true)?;
        if !tokens.next_is(TokenKind::LeftBracket) {
            let base = sized_base(named_by(self.alloc, t), 0);
            return self.type_after(t.place, base, tokens);
        }
        tokens.take_if(true)?;
        self.bracket(bare, t, tokens)
    }

    /// A type.
    #[tactic(auto, unfolding(crate::specs::Parse::type_at))]
    pub(crate) fn type_at(
        &self,
        bare: bool,
        tokens: &mut Cursor<'_>,
    ) -> Result<(TypeTree, u32), ParseError>
        requires nests { Nests self.now.turns self.now.depth (F.pre self.now.nested) (F.post self.now.nested) }
        requires depth { self.now.depth + 1 < 2 ^ 32 }
        ensures reads { Reads (spec.type_at (leaves_of self.now.text.now) self.now.types.now self.now.turns self.now.depth (spec.below (leaves_of self.now.text.now) self.now.types.now self.now.turns self.now.depth) bare tokens.old) result tokens.new }
        ensures low { IfOk result (λ x. x.1 ≤ self.now.depth) }
    {
        if sees_type_name(self.types, tokens) {
            self.named_type(bare, tokens)
        } else {
            let at = tokens.here();
            let base = self.unnamed(bare, tokens)?;
            self.type_after(at, base, tokens)
        }
    }

    fn bound_after(
        &self,
        at: Place,
        x: (Bound, u32),
        tokens: &mut Cursor<'_>,
    ) -> Result<(Bound, u32), ParseError>
        requires depth { self.now.depth + 1 < 2 ^ 32 }
        requires height { x.1 ≤ self.now.depth + 1 }
        ensures reads { Reads (spec.bound_after (leaves_of self.now.text.now) self.now.types.now self.now.turns (self.now.depth + 1) (spec.bound_below (leaves_of self.now.text.now) self.now.types.now self.now.turns (self.now.depth + 1)) at x tokens.old) result tokens.new }
        ensures low { IfOk result (λ x. x.1 ≤ self.now.depth + 1) }
    {
        let rules = Bounds {
            alloc: self.alloc,
            text: self.text,
            types: self.types,
            turns: self.turns,
            depth: self.depth + 1,
            nested: bound_below,
        };
        rules.bound_after(at, x, tokens)
    }

    #[tactic(auto, unfolding(crate::specs::Parse::closed_bound))]
    fn closed_bound(
        &self,
        at: Place,
        x: (Bound, u32),
        tokens: &mut Cursor<'_>,
    ) -> Result<(Part, u32), ParseError>
        requires nests { Nests self.now.turns self.now.depth (F.pre self.now.nested) (F.post self.now.nested) }
        requires depth { self.now.depth + 1 < 2 ^ 32 }
        requires height { x.1 ≤ self.now.depth }
        ensures reads { Reads (spec.closed_bound (leaves_of self.now.text.now) self.now.types.now self.now.turns self.now.depth (spec.below (leaves_of self.now.text.now) self.now.types.now self.now.turns self.now.depth) at x tokens.old) result tokens.new }
        ensures low { IfOk result (λ x. Fits (self.now.depth + 1) x.0 x.1) }
    {
        tokens.expect(TokenKind::RightParen)?;
        let (y, height) = self.bound_after(at, (x.0, x.1 + 1), tokens)?;
        Ok((Part::Bound(y), height))
    }

    #[tactic(auto, unfolding(crate::specs::Parse::closed_type))]
    fn closed_type(
        &self,
        at: Place,
        x: (TypeTree, u32),
        tokens: &mut Cursor<'_>,
    ) -> Result<(Part, u32), ParseError>
        requires nests { Nests self.now.turns self.now.depth (F.pre self.now.nested) (F.post self.now.nested) }
        requires depth { self.now.depth + 1 < 2 ^ 32 }
        requires height { x.1 < self.now.depth }
        ensures reads { Reads (spec.closed_type (leaves_of self.now.text.now) self.now.types.now self.now.turns self.now.depth (spec.below (leaves_of self.now.text.now) self.now.types.now self.now.turns self.now.depth) at x tokens.old) result tokens.new }
        ensures low { IfOk result (λ x. Fits (self.now.depth + 1) x.0 x.1) }
    {
        let y = self.tuple_after(true, at, x, tokens)?;
        let (z, height) = self.type_after(at, y, tokens)?;
        Ok((Part::Type(z), height))
    }

    #[tactic(auto)]
    fn parenthesised(
        &self,
        at: Place,
        x: (Part, u32),
        tokens: &mut Cursor<'_>,
    ) -> Result<(Part, u32), ParseError>
        requires nests { Nests self.now.turns self.now.depth (F.pre self.now.nested) (F.post self.now.nested) }
        requires depth { self.now.depth + 1 < 2 ^ 32 }
        requires height { Fits self.now.depth x.0 x.1 }
        ensures reads { Reads (spec.parenthesised (leaves_of self.now.text.now) self.now.types.now self.now.turns self.now.depth (spec.below (leaves_of self.now.text.now) self.now.types.now self.now.turns self.now.depth) at x tokens.old) result tokens.new }
        ensures low { IfOk result (λ x. Fits (self.now.depth + 1) x.0 x.1) }
    {
        let (part, height) = x;
        match part {
            Part::Type(x) => self.closed_type(at, (x, height), tokens),
            Part::Bound(x) => self.closed_bound(at, (x, height), tokens),
        }
    }

    /// What stands behind a parenthesis that opens.
    #[tactic(auto, unfolding(crate::specs::Parse::parenthesis))]
    fn parenthesis(&self, at: Place, tokens: &mut Cursor<'_>) -> Result<(Part, u32), ParseError>
        requires nests { Nests self.now.turns self.now.depth (F.pre self.now.nested) (F.post self.now.nested) }
        requires depth { self.now.depth + 1 < 2 ^ 32 }
        ensures reads { Reads (spec.parenthesis (leaves_of self.now.text.now) self.now.types.now self.now.turns self.now.depth (spec.below (leaves_of self.now.text.now) self.now.types.now self.now.turns self.now.depth) at tokens.old) result tokens.new }
        ensures low { IfOk result (λ x. Fits (self.now.depth + 1) x.0 x.1) }
    {
        if begins_part(self.types, true, tokens) {
            if 0 < self.depth {
                let x = self.sub(Want::Either, tokens)?;
                self.parenthesised(at, x, tokens)
            } else {
                tokens.take_if(false)?;
                Err(tokens.refuse())
            }
        } else {
            let x = self.bound(tokens)?;
            self.closed_bound(at, x, tokens)
        }
    }

    /// A type, or a bound that may have one level more.
    #[tactic(auto, unfolding(crate::specs::Parse::either_at))]
    fn either_at(&self, tokens: &mut Cursor<'_>) -> Result<(Part, u32), ParseError>
        requires nests { Nests self.now.turns self.now.depth (F.pre self.now.nested) (F.post self.now.nested) }
        requires depth { self.now.depth + 1 < 2 ^ 32 }
        ensures reads { Reads (spec.either_at (leaves_of self.now.text.now) self.now.types.now self.now.turns self.now.depth (spec.below (leaves_of self.now.text.now) self.now.types.now self.now.turns self.now.depth) tokens.old) result tokens.new }
        ensures low { IfOk result (λ x. Fits (self.now.depth + 1) x.0 x.1) }
    {
        if sees_type(self.types, tokens) {
            let (x, height) = self.type_at(true, tokens)?;
            Ok((Part::Type(x), height))
        } else if tokens.next_is(TokenKind::LeftParen) {
            let o = tokens.take_if(true)?;
            self.parenthesis(o.place, tokens)
        } else {
            let (x, height) = bound_within(
                self.alloc,
                self.text,
                self.types,
                self.turns,
                self.depth + 1,
                tokens,
            )?;
            Ok((Part::Bound(x), height))
        }
    }

    #[tactic(auto)]
    fn at_want(&self, want: Want, tokens: &mut Cursor<'_>) -> Result<(Part, u32), ParseError>
        requires nests { Nests self.now.turns self.now.depth (F.pre self.now.nested) (F.post self.now.nested) }
        requires depth { self.now.depth + 1 < 2 ^ 32 }
        ensures reads { Reads (spec.at_want (leaves_of self.now.text.now) self.now.types.now self.now.turns self.now.depth (spec.below (leaves_of self.now.text.now) self.now.types.now self.now.turns self.now.depth) want tokens.old) result tokens.new }
        ensures low { IfOk result (λ x. Fits (self.now.depth + 1) x.0 x.1) }
    {
        match want {
            Want::AnyType => {
                let (x, height) = self.type_at(true, tokens)?;
                Ok((Part::Type(x), height))
            }
            Want::WordType => {
                let (x, height) = self.type_at(false, tokens)?;
                Ok((Part::Type(x), height))
            }
            Want::Either => self.either_at(tokens),
        }
    }
}

/// What is wanted, with less than `depth` levels.

pub(crate) fn below(
    alloc: Global,
    text: &[u8],
    types: &TypeNames,
    turns: usize,
    depth: u32,
    tokens: &mut Cursor<'_>,
    want: Want,
) -> Result<(Part, u32), ParseError>
    ensures reads { Reads (spec.below (leaves_of text.now) types.now turns depth want tokens.old) result tokens.new }
    ensures low { IfOk result (λ x. Fits depth x.0 x.1) }
{
    if depth == 0 {
        return Err(ParseError::Deep(0));
    }
    let rules = Types {
        alloc,
        text,
        types,
        turns,
        depth: depth - 1,
        nested: below,
    };
    rules.at_want(want, tokens)
}
