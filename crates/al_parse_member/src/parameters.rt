//! Parameters of functions.
ghost use Rattle.std.specs.Prelude.{◌≡◌, ◌+◌, ◌-◌, ◌<◌, ◌≤◌, ◌^◌, ℕ, max, [], ◌∷◌, ◌++◌, Some, None, IfOk, OnOk};
ghost use Rattle.al_tree.specs.Leaves.{leaves_of};
ghost use Rattle.al_tree.specs.Reading.{Reads};
ghost use Rattle.al_tree.specs.Items as grammar;
ghost use Rattle.al_parse_type.specs.Nests.{Fits};
ghost use Rattle.al_parse_member.specs.Parameters as spec;

use crate::context::{Context, flat_base, name_at, type_name};
use al_base::{NoMemory, Place};
use al_items::Items;
use al_lex::{Token, TokenKind};
use al_parse_type::{
    Part, ReadBase, arguments_within, base_within, bound_within, inside_within, sees_other_name,
    sees_type_name, stars_from,
};
use al_tree::{BasicType, Bound, Cursor, Parameter, ParseError, TypeTree};
use std::alloc::Global;

/// A list with one element.
fn only(alloc: Global, x: Parameter) -> Result<Items<Parameter>, NoMemory>
    ensures { IfOk result (λ all. all ≡ x ∷ []) }
{
    let mut all = Items::new(alloc);
    all.push(x)?;
    Ok(all)
}

/// The type of that name.
fn named_by(alloc: Global, t: Token) -> TypeTree
    ensures { result ≡ TypeTree.Named t.place t.name [] }
{
    TypeTree::Named {
        at: t.place,
        name: t.name,
        arguments: Items::new(alloc),
    }
}

/// Whether a `[` behind so many stars still belongs to a channel type.
fn still_takes_bracket(takes: bool, stars: u32) -> bool
    ensures { result ≡ grammar.still_takes_bracket takes stars }
{
    if stars == 0 { takes } else { false }
}

impl<'t> Context<'t> {
    /// A bound and the bracket that closes.
    #[tactic(auto, unfolding(crate::specs::Parameters::closed_bound))]
    fn closed_bound(&self, tokens: &mut Cursor<'_>) -> Result<(Bound, u32), ParseError>
        requires depth { self.now.depth < 999 }
        ensures reads { Reads (spec.closed_bound (leaves_of self.now.text.now) self.now.types.now self.now.turns self.now.depth tokens.old) result tokens.new }
        ensures low { IfOk result (λ y. y.1 ≤ self.now.depth) }
    {
        let x = bound_within(
            self.alloc, self.text, self.types, self.turns, self.depth, tokens,
        )?;
        tokens.expect(TokenKind::RightBracket)?;
        Ok(x)
    }

    /// Bounds in brackets, some of which may be missing, behind those that were found.
    fn open_bounds_from(
        &self,
        mut found: Items<Option<Bound>>,
        mut height: u32,
        tokens: &mut Cursor<'_>,
    ) -> Result<(Items<Option<Bound>>, u32), ParseError>
        requires depth { self.now.depth < 999 }
        requires height { height ≤ self.now.depth }
        ensures reads { Reads (spec.open_bounds_from (leaves_of self.now.text.now) self.now.types.now self.now.turns self.now.depth self.now.turns found height tokens.old) result tokens.new }
        ensures low { IfOk result (λ y. y.1 ≤ self.now.depth) }
    {
        for _turn in 0..self.turns {
            if !tokens.next_is(TokenKind::LeftBracket) {
                return Ok((found, height));
            }
            tokens.take_if(true)?;
            if tokens.next_is(TokenKind::RightBracket) {
                tokens.take_if(true)?;
                found.push(None)?;
            } else {
                let x = self.closed_bound(tokens)?;
                found.push(Some(x.0))?;
                height = height.max(x.1);
            }
        }
        Err(tokens.refuse())
    }

    #[tactic(auto, unfolding(crate::specs::Parameters::named_parameter))]
    fn named_parameter(
        &self,
        at: Place,
        b: ReadBase,
        stars: u32,
        tokens: &mut Cursor<'_>,
    ) -> Result<(Parameter, u32), ParseError>
        requires depth { self.now.depth < 999 }
        requires height { b.height ≤ self.now.depth }
        ensures reads { Reads (spec.named_parameter (leaves_of self.now.text.now) self.now.types.now self.now.turns self.now.depth at b stars tokens.old) result tokens.new }
        ensures low { IfOk result (λ y. y.1 ≤ self.now.depth) }
    {
        let n = tokens.take_if(true)?;
        let found = Items::new(self.alloc);
        let (bounds, high) = self.open_bounds_from(found, 0, tokens)?;
        let height = b.height.max(high);
        let parameter = Parameter::Plain {
            at,
            base: b.tree,
            stars,
            name: Some(name_at(n)),
            bounds,
        };
        Ok((parameter, height))
    }

    #[tactic(auto, unfolding(crate::specs::Parameters::unnamed_parameter))]
    fn unnamed_parameter(
        &self,
        at: Place,
        b: ReadBase,
        stars: u32,
        tokens: &mut Cursor<'_>,
    ) -> Result<(Parameter, u32), ParseError>
        requires depth { self.now.depth < 999 }
        requires height { b.height ≤ self.now.depth }
        ensures reads { Reads (spec.unnamed_parameter (leaves_of self.now.text.now) self.now.types.now self.now.turns self.now.depth at b stars tokens.old) result tokens.new }
        ensures low { IfOk result (λ y. y.1 ≤ self.now.depth) }
    {
        let found = Items::new(self.alloc);
        let (bounds, high) = self.open_bounds_from(found, 0, tokens)?;
        let height = b.height.max(high);
        let parameter = Parameter::Plain {
            at,
            base: b.tree,
            stars,
            name: None,
            bounds,
        };
        Ok((parameter, height))
    }

    /// Stars, a name or none, and bounds behind a base type that begins at that place.
    #[tactic(auto, unfolding(crate::specs::Parameters::parameter_after))]
    fn parameter_after(
        &self,
        at: Place,
        b: ReadBase,
        tokens: &mut Cursor<'_>,
    ) -> Result<(Parameter, u32), ParseError>
        requires turns { self.now.turns < 2 ^ 32 }
        requires depth { self.now.depth < 999 }
        requires height { b.height ≤ self.now.depth }
        ensures reads { Reads (spec.parameter_after (leaves_of self.now.text.now) self.now.types.now self.now.turns self.now.depth at b tokens.old) result tokens.new }
        ensures low { IfOk result (λ y. y.1 ≤ self.now.depth) }
    {
        let stars = stars_from(self.turns, tokens)?;
        if sees_other_name(self.types, tokens) {
            return self.named_parameter(at, b, stars, tokens);
        }
        if !still_takes_bracket(b.takes_bracket, stars) {
            return self.unnamed_parameter(at, b, stars, tokens);
        }
        let height = b.height;
        let parameter = Parameter::Plain {
            at,
            base: b.tree,
            stars,
            name: None,
            bounds: Items::new(self.alloc),
        };
        Ok((parameter, height))
    }

    /// An array without a name, of the type of that name, behind its first brackets.
    #[tactic(auto, unfolding(crate::specs::Parameters::array_of))]
    fn array_of(
        &self,
        t: Token,
        first: Option<Bound>,
        height: u32,
        tokens: &mut Cursor<'_>,
    ) -> Result<(Parameter, u32), ParseError>
        requires depth { self.now.depth < 999 }
        requires height { height ≤ self.now.depth }
        ensures reads { Reads (spec.array_of (leaves_of self.now.text.now) self.now.types.now self.now.turns self.now.depth t first height tokens.old) result tokens.new }
        ensures low { IfOk result (λ y. y.1 ≤ self.now.depth) }
    {
        let mut found = Items::new(self.alloc);
        found.push(first)?;
        let (bounds, height) = self.open_bounds_from(found, height, tokens)?;
        let parameter = Parameter::Plain {
            at: t.place,
            base: named_by(self.alloc, t),
            stars: 0,
            name: None,
            bounds,
        };
        Ok((parameter, height))
    }

    /// The parameter that begins with the type of that name and with what stands in brackets behind it.
    fn bracketed(
        &self,
        t: Token,
        x: (Part, u32),
        tokens: &mut Cursor<'_>,
    ) -> Result<(Parameter, u32), ParseError>
        requires turns { self.now.turns < 2 ^ 32 }
        requires depth { self.now.depth < 999 }
        requires height { Fits self.now.depth x.0 x.1 }
        ensures reads { Reads (spec.bracketed (leaves_of self.now.text.now) self.now.types.now self.now.turns self.now.depth t x tokens.old) result tokens.new }
        ensures low { IfOk result (λ y. y.1 ≤ self.now.depth) }
    {
        let (part, height) = x;
        match part {
            Part::Type(x) => {
                let b = arguments_within(
                    self.alloc,
                    self.text,
                    self.types,
                    self.turns,
                    self.depth,
                    t,
                    (x, height),
                    tokens,
                )?;
                self.parameter_after(t.place, b, tokens)
            }
            Part::Bound(x) => {
                tokens.expect(TokenKind::RightBracket)?;
                self.array_of(t, Some(x), height, tokens)
            }
        }
    }

    /// The same behind the bracket that opens.
    #[tactic(auto, unfolding(crate::specs::Parameters::bracket))]
    fn bracket(&self, t: Token, tokens: &mut Cursor<'_>) -> Result<(Parameter, u32), ParseError>
        requires turns { self.now.turns < 2 ^ 32 }
        requires depth { self.now.depth < 999 }
        ensures reads { Reads (spec.bracket (leaves_of self.now.text.now) self.now.types.now self.now.turns self.now.depth t tokens.old) result tokens.new }
        ensures low { IfOk result (λ y. y.1 ≤ self.now.depth) }
    {
        if tokens.next_is(TokenKind::RightBracket) {
            tokens.take_if(true)?;
            return self.array_of(t, None, 0, tokens);
        }
        let x = inside_within(
            self.alloc, self.text, self.types, self.turns, self.depth, tokens,
        )?;
        self.bracketed(t, x, tokens)
    }

    /// A parameter that begins with a type's name.
    #[tactic(auto, unfolding(crate::specs::Parameters::name_parameter))]
    fn name_parameter(&self, tokens: &mut Cursor<'_>) -> Result<(Parameter, u32), ParseError>
        requires turns { self.now.turns < 2 ^ 32 }
        requires depth { self.now.depth < 999 }
        ensures reads { Reads (spec.name_parameter (leaves_of self.now.text.now) self.now.types.now self.now.turns self.now.depth tokens.old) result tokens.new }
        ensures low { IfOk result (λ y. y.1 ≤ self.now.depth) }
    {
        let t = tokens.take_if(true)?;
        if tokens.next_is(TokenKind::LeftBracket) {
            tokens.take_if(true)?;
            return self.bracket(t, tokens);
        }
        let b = flat_base(named_by(self.alloc, t));
        self.parameter_after(t.place, b, tokens)
    }

    #[tactic(auto, unfolding(crate::specs::Parameters::own_pointer))]
    fn own_pointer(&self, tokens: &mut Cursor<'_>) -> Result<(Parameter, u32), ParseError>
        ensures reads { Reads (spec.own_pointer (leaves_of self.now.text.now) self.now.types.now self.now.turns self.now.depth tokens.old) result tokens.new }
        ensures low { IfOk result (λ y. y.1 ≤ self.now.depth) }
    {
        let w = tokens.take_if(true)?;
        let t = type_name(self.types, tokens)?;
        let parameter = Parameter::OwnPointer {
            at: w.place,
            name: t.name,
        };
        Ok((parameter, 0))
    }

    #[tactic(auto, unfolding(crate::specs::Parameters::own_value))]
    fn own_value(&self, tokens: &mut Cursor<'_>) -> Result<(Parameter, u32), ParseError>
        ensures reads { Reads (spec.own_value (leaves_of self.now.text.now) self.now.types.now self.now.turns self.now.depth tokens.old) result tokens.new }
        ensures low { IfOk result (λ y. y.1 ≤ self.now.depth) }
    {
        let w = tokens.take_if(true)?;
        let t = type_name(self.types, tokens)?;
        let parameter = Parameter::OwnValue {
            at: w.place,
            name: t.name,
        };
        Ok((parameter, 0))
    }

    /// A parameter that begins with any other base type.
    #[tactic(auto, unfolding(crate::specs::Parameters::based_parameter))]
    fn based_parameter(&self, tokens: &mut Cursor<'_>) -> Result<(Parameter, u32), ParseError>
        requires turns { self.now.turns < 2 ^ 32 }
        requires depth { self.now.depth < 999 }
        ensures reads { Reads (spec.based_parameter (leaves_of self.now.text.now) self.now.types.now self.now.turns self.now.depth tokens.old) result tokens.new }
        ensures low { IfOk result (λ y. y.1 ≤ self.now.depth) }
    {
        let at = tokens.here();
        let b = base_within(
            self.alloc, self.text, self.types, self.turns, self.depth, tokens,
        )?;
        self.parameter_after(at, b, tokens)
    }

    #[tactic(auto, unfolding(crate::specs::Parameters::parameter))]
    fn parameter(&self, tokens: &mut Cursor<'_>) -> Result<(Parameter, u32), ParseError>
        requires turns { self.now.turns < 2 ^ 32 }
        requires depth { self.now.depth < 999 }
        ensures reads { Reads (spec.parameter (leaves_of self.now.text.now) self.now.types.now self.now.turns self.now.depth tokens.old) result tokens.new }
        ensures low { IfOk result (λ y. y.1 ≤ self.now.depth) }
    {
        if sees_type_name(self.types, tokens) {
            return self.name_parameter(tokens);
        }
        let names = 0 < self.types.len();
        if tokens.next_is(TokenKind::Star) && names {
            self.own_pointer(tokens)
        } else if tokens.next_is(TokenKind::Dot) && names {
            self.own_value(tokens)
        } else {
            self.based_parameter(tokens)
        }
    }

    /// More parameters, with a comma before each.
    fn parameters_from(
        &self,
        mut found: Items<Parameter>,
        mut height: u32,
        tokens: &mut Cursor<'_>,
    ) -> Result<(Items<Parameter>, u32), ParseError>
        requires turns { self.now.turns < 2 ^ 32 }
        requires depth { self.now.depth < 999 }
        requires height { height ≤ self.now.depth }
        ensures reads { Reads (spec.parameters_from (leaves_of self.now.text.now) self.now.types.now self.now.turns self.now.depth self.now.turns found height tokens.old) result tokens.new }
        ensures low { IfOk result (λ y. y.1 ≤ self.now.depth) }
    {
        for _turn in 0..self.turns {
            if !tokens.next_is(TokenKind::Comma) {
                return Ok((found, height));
            }
            tokens.take_if(true)?;
            let x = self.parameter(tokens)?;
            found.push(x.0)?;
            height = height.max(x.1);
        }
        Err(tokens.refuse())
    }

    /// The parameters behind the first one, and the parenthesis that closes.
    #[tactic(auto, unfolding(crate::specs::Parameters::parameters_behind))]
    fn parameters_behind(
        &self,
        x: (Parameter, u32),
        tokens: &mut Cursor<'_>,
    ) -> Result<(Items<Parameter>, u32), ParseError>
        requires turns { self.now.turns < 2 ^ 32 }
        requires depth { self.now.depth < 999 }
        requires height { x.1 ≤ self.now.depth }
        ensures reads { Reads (spec.parameters_behind (leaves_of self.now.text.now) self.now.types.now self.now.turns self.now.depth x tokens.old) result tokens.new }
        ensures low { IfOk result (λ y. y.1 ≤ self.now.depth) }
    {
        let found = only(self.alloc, x.0)?;
        let xs = self.parameters_from(found, x.1, tokens)?;
        tokens.expect(TokenKind::RightParen)?;
        Ok(xs)
    }

    /// `void` alone, which is no parameter, or a first parameter of that type.
    #[tactic(auto, unfolding(crate::specs::Parameters::void_first))]
    fn void_first(&self, tokens: &mut Cursor<'_>) -> Result<(Items<Parameter>, u32), ParseError>
        requires turns { self.now.turns < 2 ^ 32 }
        requires depth { self.now.depth < 999 }
        ensures reads { Reads (spec.void_first (leaves_of self.now.text.now) self.now.types.now self.now.turns self.now.depth tokens.old) result tokens.new }
        ensures low { IfOk result (λ y. y.1 ≤ self.now.depth) }
    {
        let w = tokens.take_if(true)?;
        if tokens.next_is(TokenKind::RightParen) {
            tokens.take_if(true)?;
            return Ok((Items::new(self.alloc), 0));
        }
        let b = flat_base(TypeTree::Basic {
            at: w.place,
            basic: BasicType::Void,
        });
        let x = self.parameter_after(w.place, b, tokens)?;
        self.parameters_behind(x, tokens)
    }

    /// The parameters of a function and the parenthesis that closes, behind the one that opens, with their height.
    #[tactic(auto, unfolding(crate::specs::Parameters::parameter_list))]
    pub fn parameter_list(
        &self,
        tokens: &mut Cursor<'_>,
    ) -> Result<(Items<Parameter>, u32), ParseError>
        requires turns { self.now.turns < 2 ^ 32 }
        requires depth { self.now.depth < 999 }
        ensures reads { Reads (spec.parameter_list (leaves_of self.now.text.now) self.now.types.now self.now.turns self.now.depth tokens.old) result tokens.new }
        ensures low { IfOk result (λ y. y.1 ≤ self.now.depth) }
    {
        if tokens.next_is(TokenKind::RightParen) {
            tokens.take_if(true)?;
            return Ok((Items::new(self.alloc), 0));
        }
        if tokens.next_is(TokenKind::Void) {
            return self.void_first(tokens);
        }
        let x = self.parameter(tokens)?;
        self.parameters_behind(x, tokens)
    }
}
