//! Constants of enums, and initializers of globals.
ghost use Rattle.std.specs.Prelude.{◌≡◌, ◌+◌, ◌-◌, ◌<◌, ◌≤◌, ◌^◌, ℕ, max, [], ◌∷◌, ◌++◌, Some, None, IfOk, OnOk};
ghost use Rattle.al_tree.specs.Leaves.{leaves_of};
ghost use Rattle.al_tree.specs.Reading.{Reads};
ghost use Rattle.al_parse_expr.specs.Within as expr_spec;
ghost use Rattle.al_parse_member.specs.Members as spec;
ghost use Rattle.al_parse_member.specs.Nests.{InitializerNests};

use crate::context::{Context, name_at};
use al_items::Items;
use al_lex::TokenKind;
use al_parse_expr::assignment_within;
use al_parse_type::other_name;
use al_tree::{Constant, Cursor, Expr, Initializer, ParseError, TypeNames};
use std::alloc::Global;

impl<'t> Context<'t> {
    pub(crate) fn assignment(&self, tokens: &mut Cursor<'_>) -> Result<(Expr, u32), ParseError>
        requires depth { self.now.depth < 999 }
        ensures reads { Reads (expr_spec.assignment_within (leaves_of self.now.text.now) self.now.types.now self.now.turns self.now.depth tokens.old) result tokens.new }
        ensures low { IfOk result (λ y. y.1 ≤ self.now.depth) }
    {
        assignment_within(
            self.alloc, self.text, self.types, self.turns, self.depth, tokens,
        )
    }

    /// A constant of an enum, with its value or without one.
    #[tactic(auto, unfolding(crate::specs::Members::constant))]
    fn constant(&self, tokens: &mut Cursor<'_>) -> Result<(Constant, u32), ParseError>
        requires depth { self.now.depth < 999 }
        ensures reads { Reads (spec.constant (leaves_of self.now.text.now) self.now.types.now self.now.turns self.now.depth tokens.old) result tokens.new }
        ensures low { IfOk result (λ y. y.1 ≤ self.now.depth) }
    {
        let n = other_name(self.types, tokens)?;
        let name = name_at(n);
        if !tokens.next_is(TokenKind::Equal) {
            return Ok((Constant { name, value: None }, 0));
        }
        tokens.take_if(0 < self.depth)?;
        let (value, height) = self.assignment(tokens)?;
        let constant = Constant {
            name,
            value: Some(value),
        };
        Ok((constant, height))
    }

    /// Constants and the brace that closes, behind those that were found.
    fn constants_from(
        &self,
        mut found: Items<Constant>,
        mut height: u32,
        tokens: &mut Cursor<'_>,
    ) -> Result<(Items<Constant>, u32), ParseError>
        requires depth { self.now.depth < 999 }
        requires height { height ≤ self.now.depth }
        ensures reads { Reads (spec.constants_from (leaves_of self.now.text.now) self.now.types.now self.now.turns self.now.depth self.now.turns found height tokens.old) result tokens.new }
        ensures low { IfOk result (λ y. y.1 ≤ self.now.depth) }
    {
        for _turn in 0..self.turns {
            let x = self.constant(tokens)?;
            found.push(x.0)?;
            height = height.max(x.1);
            if !tokens.next_is(TokenKind::Comma) {
                tokens.expect(TokenKind::RightBrace)?;
                return Ok((found, height));
            }
            tokens.take_if(true)?;
            if tokens.next_is(TokenKind::RightBrace) {
                tokens.take_if(true)?;
                return Ok((found, height));
            }
        }
        Err(tokens.refuse())
    }

    /// The constants of an enum in braces, with their height.
    #[tactic(auto, unfolding(crate::specs::Members::enum_body))]
    pub fn enum_body(&self, tokens: &mut Cursor<'_>) -> Result<(Items<Constant>, u32), ParseError>
        requires depth { self.now.depth < 999 }
        ensures reads { Reads (spec.enum_body (leaves_of self.now.text.now) self.now.types.now self.now.turns self.now.depth tokens.old) result tokens.new }
        ensures low { IfOk result (λ y. y.1 ≤ self.now.depth) }
    {
        tokens.expect(TokenKind::LeftBrace)?;
        let found = Items::new(self.alloc);
        self.constants_from(found, 0, tokens)
    }
}

/// The rules of initializers of at most `depth` levels. Those in braces have one level less.
#[derive(Clone, Copy)]
pub(crate) struct Braces<'t, F> {
    pub(crate) context: Context<'t>,
    pub(crate) nested: F,
}

impl<
    't,
    F: Fn(
        Global,
        &[u8],
        &TypeNames,
        usize,
        u32,
        &mut Cursor<'_>,
    ) -> Result<(Initializer, u32), ParseError>,
> Braces<'t, F> {
    /// Initializers and the brace that closes, behind those that were found. They have less levels than the whole.
    fn parts_from(
        &self,
        mut found: Items<Initializer>,
        mut height: u32,
        tokens: &mut Cursor<'_>,
    ) -> Result<(Items<Initializer>, u32), ParseError>
        requires nests { InitializerNests self.now.context.turns (self.now.context.depth - 1) (F.pre self.now.nested) (F.post self.now.nested) }
        requires depth { self.now.context.depth < 999 }
        requires some { 0 < self.now.context.depth }
        requires height { height < self.now.context.depth }
        ensures reads { Reads (spec.parts_from (leaves_of self.now.context.text.now) self.now.context.types.now self.now.context.turns self.now.context.depth (spec.initializer (leaves_of self.now.context.text.now) self.now.context.types.now self.now.context.turns (self.now.context.depth - 1)) self.now.context.turns found height tokens.old) result tokens.new }
        ensures low { IfOk result (λ y. y.1 < self.now.context.depth) }
    {
        let context = &self.context;
        for _turn in 0..context.turns {
            let x = (self.nested)(
                context.alloc,
                context.text,
                context.types,
                context.turns,
                context.depth - 1,
                tokens,
            )?;
            found.push(x.0)?;
            height = height.max(x.1);
            if !tokens.next_is(TokenKind::Comma) {
                tokens.expect(TokenKind::RightBrace)?;
                return Ok((found, height));
            }
            tokens.take_if(true)?;
            if tokens.next_is(TokenKind::RightBrace) {
                tokens.take_if(true)?;
                return Ok((found, height));
            }
        }
        Err(tokens.refuse())
    }
}

/// An initializer of at most `depth` levels.
fn initializer(
    alloc: Global,
    text: &[u8],
    types: &TypeNames,
    turns: usize,
    depth: u32,
    tokens: &mut Cursor<'_>,
) -> Result<(Initializer, u32), ParseError>
    requires depth { depth < 999 }
    ensures reads { Reads (spec.initializer (leaves_of text.now) types.now turns depth tokens.old) result tokens.new }
    ensures low { IfOk result (λ y. y.1 ≤ depth) }
{
    let context = Context {
        alloc,
        text,
        types,
        turns,
        depth,
    };
    if !tokens.next_is(TokenKind::LeftBrace) {
        let (value, height) = context.assignment(tokens)?;
        return Ok((Initializer::Value(value), height));
    }
    let o = tokens.take_if(1 < depth)?;
    let rules = Braces {
        context,
        nested: initializer,
    };
    let found = Items::new(alloc);
    let (parts, height) = rules.parts_from(found, 0, tokens)?;
    let braces = Initializer::Braces { at: o.place, parts };
    Ok((braces, height + 1))
}

impl<'t> Context<'t> {
    /// The initializer of a global, an expression or initializers in braces, with its height.
    pub fn initializer(&self, tokens: &mut Cursor<'_>) -> Result<(Initializer, u32), ParseError>
        requires depth { self.now.depth < 999 }
        ensures reads { Reads (spec.initializer (leaves_of self.now.text.now) self.now.types.now self.now.turns self.now.depth tokens.old) result tokens.new }
        ensures low { IfOk result (λ y. y.1 ≤ self.now.depth) }
    {
        initializer(
            self.alloc, self.text, self.types, self.turns, self.depth, tokens,
        )
    }
}
