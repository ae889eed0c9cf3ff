//! Base types. What stands inside a type is parsed by a function that is passed in, so that each rule is proved by itself.
ghost use Rattle.std.specs.Prelude.{◌≡◌, ◌≢◌, ◌+◌, ◌<◌, ◌≤◌, ◌^◌, ℕ, max, [], ◌∷◌, ◌++◌, length, IfOk, OnOk};
ghost use Rattle.al_tree.specs.Leaves.{leaves_of};
ghost use Rattle.al_tree.specs.Reading.{Reads};
ghost use Rattle.al_tree.specs.Words as words;
ghost use Rattle.al_tree.specs.Types as rules;
ghost use Rattle.al_parse_type.specs.Parse as spec;
ghost use Rattle.al_parse_type.specs.Nests.{Nests, Fits};

use crate::bound::bound_within;
use crate::leaf::sees_type_name;
use crate::list::pointers_from;
use crate::part::{Part, ReadBase, Want};
use al_base::{NoMemory, Place};
use al_items::{Boxed, Items};
use al_lex::{Token, TokenKind};
use al_tree::{BasicType, Bound, Cursor, ParseError, TypeNames, TypeTree, same_kind};
use std::alloc::Global;

fn basic_type(kind: TokenKind) -> Option<BasicType>
    ensures { result ≡ words.basic_type kind }
{
    match kind {
        TokenKind::Byte => Some(BasicType::Byte),
        TokenKind::Sint => Some(BasicType::Sint),
        TokenKind::Usint => Some(BasicType::Usint),
        TokenKind::Int => Some(BasicType::Int),
        TokenKind::Uint => Some(BasicType::Uint),
        TokenKind::Lint => Some(BasicType::Lint),
        TokenKind::Ulint => Some(BasicType::Ulint),
        TokenKind::Void => Some(BasicType::Void),
        _ => None,
    }
}

/// Whether a type begins with the next token. One that begins with a parenthesis does not count.
#[tactic(auto, unfolding(crate::specs::Parse::sees_type))]
pub fn sees_type(types: &TypeNames, tokens: &Cursor<'_>) -> bool
    ensures { result ≡ spec.sees_type types.now tokens.now }
{
    basic_type(tokens.peek()).is_some()
        || tokens.next_is(TokenKind::Tuple)
        || tokens.next_is(TokenKind::Chan)
        || sees_type_name(types, tokens)
}

/// Whether a type may begin with the next token. With `bare` a tuple may begin with its parenthesis.
#[tactic(auto, unfolding(crate::specs::Parse::begins_part))]
pub(crate) fn begins_part(types: &TypeNames, bare: bool, tokens: &Cursor<'_>) -> bool
    ensures { result ≡ spec.begins_part types.now bare tokens.now }
{
    sees_type(types, tokens) || (bare && tokens.next_is(TokenKind::LeftParen))
}

/// A list with one element.
fn only(alloc: Global, x: TypeTree) -> Result<Items<TypeTree>, NoMemory>
    ensures { IfOk result (λ all. all ≡ x ∷ []) }
{
    let mut all = Items::new(alloc);
    all.push(x)?;
    Ok(all)
}

pub(crate) fn sized_base(tree: TypeTree, height: u32) -> ReadBase
    ensures { result ≡ spec.sized_base tree height }
{
    ReadBase {
        tree,
        height,
        takes_bracket: false,
    }
}

/// The name of a type, with its type arguments.
pub(crate) fn named_by(alloc: Global, t: Token) -> TypeTree
    ensures { result ≡ TypeTree.Named t.place t.name [] }
{
    TypeTree::Named {
        at: t.place,
        name: t.name,
        arguments: Items::new(alloc),
    }
}

fn wanted(bare: bool) -> Want
    ensures { result ≡ spec.wanted bare }
{
    if bare { Want::AnyType } else { Want::WordType }
}

pub(crate) fn part_wanted(bare: bool) -> Want
    ensures { result ≡ spec.part_wanted bare }
{
    if bare { Want::Either } else { Want::WordType }
}

/// The rules of types of at most `depth` levels.
#[derive(Clone, Copy)]
pub(crate) struct Types<'t, F> {
    pub(crate) alloc: Global,
    pub(crate) text: &'t [u8],
    pub(crate) types: &'t TypeNames,
    /// How many turns a loop makes at most: more than there are tokens.
    pub(crate) turns: usize,
    /// How many levels a type may have. What stands inside it has fewer.
    pub(crate) depth: u32,
    pub(crate) nested: F,
}

impl<
    't,
    F: Fn(
        Global,
        &[u8],
        &TypeNames,
        usize,
        u32,
        &mut Cursor<'_>,
        Want,
    ) -> Result<(Part, u32), ParseError>,
> Types<'t, F> {
    pub(crate) fn sub(&self, want: Want, tokens: &mut Cursor<'_>) -> Result<(Part, u32), ParseError>
        requires nests { Nests self.now.turns self.now.depth (F.pre self.now.nested) (F.post self.now.nested) }
        requires depth { self.now.depth + 1 < 2 ^ 32 }
        ensures reads { Reads (spec.below (leaves_of self.now.text.now) self.now.types.now self.now.turns self.now.depth want tokens.old) result tokens.new }
        ensures low { IfOk result (λ x. Fits self.now.depth x.0 x.1) }
    {
        (self.nested)(
            self.alloc, self.text, self.types, self.turns, self.depth, tokens, want,
        )
    }

    #[tactic(auto, unfolding(crate::specs::Parse::sub_type))]
    fn sub_type(&self, bare: bool, tokens: &mut Cursor<'_>) -> Result<(TypeTree, u32), ParseError>
        requires nests { Nests self.now.turns self.now.depth (F.pre self.now.nested) (F.post self.now.nested) }
        requires depth { self.now.depth + 1 < 2 ^ 32 }
        ensures reads { Reads (spec.sub_type (leaves_of self.now.text.now) self.now.types.now self.now.turns self.now.depth (spec.below (leaves_of self.now.text.now) self.now.types.now self.now.turns self.now.depth) bare tokens.old) result tokens.new }
        ensures low { IfOk result (λ x. x.1 < self.now.depth) }
    {
        let (part, height) = self.sub(wanted(bare), tokens)?;
        match part {
            Part::Type(x) => Ok((x, height)),
            Part::Bound(_) => Err(tokens.refuse()),
        }
    }

    /// More types, with commas before them.
    #[tactic(auto)]
    fn types_from(
        &self,
        bare: bool,
        mut found: Items<TypeTree>,
        mut height: u32,
        tokens: &mut Cursor<'_>,
    ) -> Result<(Items<TypeTree>, u32), ParseError>
        requires nests { Nests self.now.turns self.now.depth (F.pre self.now.nested) (F.post self.now.nested) }
        requires depth { self.now.depth + 1 < 2 ^ 32 }
        requires height { height < self.now.depth }
        ensures reads { Reads (spec.types_from (leaves_of self.now.text.now) self.now.types.now self.now.turns self.now.depth (spec.below (leaves_of self.now.text.now) self.now.types.now self.now.turns self.now.depth) bare self.now.turns found height tokens.old) result tokens.new }
        ensures low { IfOk result (λ x. x.1 < self.now.depth) }
    {
        for _turn in 0..self.turns {
            if !tokens.next_is(TokenKind::Comma) {
                return Ok((found, height));
            }
            tokens.take_if(true)?;
            let x = self.sub_type(bare, tokens)?;
            found.push(x.0)?;
            height = height.max(x.1);
        }
        Err(tokens.refuse())
    }

    /// The type arguments behind the first one, up to the bracket.
    #[tactic(auto, unfolding(crate::specs::Parse::arguments_after))]
    pub(crate) fn arguments_after(
        &self,
        bare: bool,
        t: Token,
        x: (TypeTree, u32),
        tokens: &mut Cursor<'_>,
    ) -> Result<ReadBase, ParseError>
        requires nests { Nests self.now.turns self.now.depth (F.pre self.now.nested) (F.post self.now.nested) }
        requires depth { self.now.depth + 1 < 2 ^ 32 }
        requires height { x.1 < self.now.depth }
        ensures reads { Reads (spec.arguments_after (leaves_of self.now.text.now) self.now.types.now self.now.turns self.now.depth (spec.below (leaves_of self.now.text.now) self.now.types.now self.now.turns self.now.depth) bare t x tokens.old) result tokens.new }
        ensures low { IfOk result (λ x. x.height ≤ self.now.depth) }
    {
        let found = only(self.alloc, x.0)?;
        let (arguments, height) = self.types_from(bare, found, x.1, tokens)?;
        tokens.expect(TokenKind::RightBracket)?;
        let tree = TypeTree::Named {
            at: t.place,
            name: t.name,
            arguments,
        };
        Ok(sized_base(tree, height + 1))
    }

    /// The parts of a tuple behind the first one, up to the parenthesis.
    #[tactic(auto, unfolding(crate::specs::Parse::tuple_after))]
    pub(crate) fn tuple_after(
        &self,
        bare: bool,
        at: Place,
        x: (TypeTree, u32),
        tokens: &mut Cursor<'_>,
    ) -> Result<ReadBase, ParseError>
        requires nests { Nests self.now.turns self.now.depth (F.pre self.now.nested) (F.post self.now.nested) }
        requires depth { self.now.depth + 1 < 2 ^ 32 }
        requires height { x.1 < self.now.depth }
        ensures reads { Reads (spec.tuple_after (leaves_of self.now.text.now) self.now.types.now self.now.turns self.now.depth (spec.below (leaves_of self.now.text.now) self.now.types.now self.now.turns self.now.depth) bare at x tokens.old) result tokens.new }
        ensures low { IfOk result (λ x. x.height ≤ self.now.depth) }
    {
        let found = only(self.alloc, x.0)?;
        let (parts, height) = self.types_from(bare, found, x.1, tokens)?;
        if parts.len() == 1 {
            return Err(tokens.refuse());
        }
        tokens.expect(TokenKind::RightParen)?;
        Ok(sized_base(TypeTree::Tuple { at, parts }, height + 1))
    }

    #[tactic(auto, unfolding(crate::specs::Parse::tuple))]
    fn tuple(&self, bare: bool, tokens: &mut Cursor<'_>) -> Result<ReadBase, ParseError>
        requires nests { Nests self.now.turns self.now.depth (F.pre self.now.nested) (F.post self.now.nested) }
        requires depth { self.now.depth + 1 < 2 ^ 32 }
        ensures reads { Reads (spec.tuple (leaves_of self.now.text.now) self.now.types.now self.now.turns self.now.depth (spec.below (leaves_of self.now.text.now) self.now.types.now self.now.turns self.now.depth) bare tokens.old) result tokens.new }
        ensures low { IfOk result (λ x. x.height ≤ self.now.depth) }
    {
        let w = tokens.take_if(0 < self.depth)?;
        tokens.expect(TokenKind::LeftParen)?;
        let x = self.sub_type(bare, tokens)?;
        self.tuple_after(bare, w.place, x, tokens)
    }

    #[tactic(auto, unfolding(crate::specs::Parse::bare_tuple))]
    fn bare_tuple(&self, tokens: &mut Cursor<'_>) -> Result<ReadBase, ParseError>
        requires nests { Nests self.now.turns self.now.depth (F.pre self.now.nested) (F.post self.now.nested) }
        requires depth { self.now.depth + 1 < 2 ^ 32 }
        ensures reads { Reads (spec.bare_tuple (leaves_of self.now.text.now) self.now.types.now self.now.turns self.now.depth (spec.below (leaves_of self.now.text.now) self.now.types.now self.now.turns self.now.depth) tokens.old) result tokens.new }
        ensures low { IfOk result (λ x. x.height ≤ self.now.depth) }
    {
        let o = tokens.take_if(0 < self.depth)?;
        let x = self.sub_type(true, tokens)?;
        self.tuple_after(true, o.place, x, tokens)
    }

    #[tactic(auto, unfolding(crate::specs::Parse::capacity))]
    fn capacity(
        &self,
        at: Place,
        x: TypeTree,
        height: u32,
        tokens: &mut Cursor<'_>,
    ) -> Result<ReadBase, ParseError>
        requires nests { Nests self.now.turns self.now.depth (F.pre self.now.nested) (F.post self.now.nested) }
        requires depth { self.now.depth + 1 < 2 ^ 32 }
        requires height { height ≤ self.now.depth }
        ensures reads { Reads (spec.capacity (leaves_of self.now.text.now) self.now.types.now self.now.turns self.now.depth (spec.below (leaves_of self.now.text.now) self.now.types.now self.now.turns self.now.depth) at x height tokens.old) result tokens.new }
        ensures low { IfOk result (λ x. x.height ≤ self.now.depth) }
    {
        let element = Boxed::new(self.alloc, x)?;
        if !tokens.next_is(TokenKind::LeftBracket) {
            return Ok(ReadBase {
                tree: TypeTree::Chan {
                    at,
                    element,
                    capacity: None,
                },
                height,
                takes_bracket: true,
            });
        }
        tokens.take_if(true)?;
        let n = self.bound(tokens)?;
        tokens.expect(TokenKind::RightBracket)?;
        let tree = TypeTree::Chan {
            at,
            element,
            capacity: Some(n.0),
        };
        Ok(sized_base(tree, height.max(n.1)))
    }

    pub(crate) fn bound(&self, tokens: &mut Cursor<'_>) -> Result<(Bound, u32), ParseError>
        requires depth { self.now.depth + 1 < 2 ^ 32 }
        ensures reads { Reads (spec.bound (leaves_of self.now.text.now) self.now.types.now self.now.turns self.now.depth tokens.old) result tokens.new }
        ensures low { IfOk result (λ x. x.1 ≤ self.now.depth) }
    {
        bound_within(
            self.alloc, self.text, self.types, self.turns, self.depth, tokens,
        )
    }

    #[tactic(auto, unfolding(crate::specs::Parse::channel))]
    fn channel(&self, tokens: &mut Cursor<'_>) -> Result<ReadBase, ParseError>
        requires nests { Nests self.now.turns self.now.depth (F.pre self.now.nested) (F.post self.now.nested) }
        requires depth { self.now.depth + 1 < 2 ^ 32 }
        ensures reads { Reads (spec.channel (leaves_of self.now.text.now) self.now.types.now self.now.turns self.now.depth (spec.below (leaves_of self.now.text.now) self.now.types.now self.now.turns self.now.depth) tokens.old) result tokens.new }
        ensures low { IfOk result (λ x. x.height ≤ self.now.depth) }
    {
        let w = tokens.take_if(0 < self.depth)?;
        tokens.expect(TokenKind::LeftParen)?;
        let x = self.sub_type(true, tokens)?;
        tokens.expect(TokenKind::RightParen)?;
        self.capacity(w.place, x.0, x.1 + 1, tokens)
    }

    /// A base type that begins with no name.
    #[tactic(auto, unfolding(crate::specs::Parse::unnamed))]
    pub(crate) fn unnamed(
        &self,
        bare: bool,
        tokens: &mut Cursor<'_>,
    ) -> Result<ReadBase, ParseError>
        requires nests { Nests self.now.turns self.now.depth (F.pre self.now.nested) (F.post self.now.nested) }
        requires depth { self.now.depth + 1 < 2 ^ 32 }
        ensures reads { Reads (spec.unnamed (leaves_of self.now.text.now) self.now.types.now self.now.turns self.now.depth (spec.below (leaves_of self.now.text.now) self.now.types.now self.now.turns self.now.depth) bare tokens.old) result tokens.new }
        ensures low { IfOk result (λ x. x.height ≤ self.now.depth) }
    {
        let next = tokens.peek();
        match basic_type(next) {
            Some(basic) => {
                let t = tokens.take_if(true)?;
                Ok(sized_base(TypeTree::Basic { at: t.place, basic }, 0))
            }
            None => {
                if same_kind(next, TokenKind::Tuple) {
                    self.tuple(bare, tokens)
                } else if same_kind(next, TokenKind::Chan) {
                    self.channel(tokens)
                } else if bare && same_kind(next, TokenKind::LeftParen) {
                    self.bare_tuple(tokens)
                } else {
                    Err(tokens.refuse())
                }
            }
        }
    }

    /// A type's name, with its type arguments.
    #[tactic(auto, unfolding(crate::specs::Parse::named))]
    fn named(&self, bare: bool, tokens: &mut Cursor<'_>) -> Result<ReadBase, ParseError>
        requires nests { Nests self.now.turns self.now.depth (F.pre self.now.nested) (F.post self.now.nested) }
        requires depth { self.now.depth + 1 < 2 ^ 32 }
        ensures reads { Reads (spec.named (leaves_of self.now.text.now) self.now.types.now self.now.turns self.now.depth (spec.below (leaves_of self.now.text.now) self.now.types.now self.now.turns self.now.depth) bare tokens.old) result tokens.new }
        ensures low { IfOk result (λ x. x.height ≤ self.now.depth) }
    {
        let t = tokens.take_if(true)?;
        if !tokens.next_is(TokenKind::LeftBracket) {
            return Ok(sized_base(named_by(self.alloc, t), 0));
        }
        tokens.take_if(0 < self.depth)?;
        let x = self.sub_type(bare, tokens)?;
        self.arguments_after(bare, t, x, tokens)
    }

    /// A base type.
    #[tactic(auto, unfolding(crate::specs::Parse::base_at))]
    pub(crate) fn base_at(
        &self,
        bare: bool,
        tokens: &mut Cursor<'_>,
    ) -> Result<ReadBase, ParseError>
        requires nests { Nests self.now.turns self.now.depth (F.pre self.now.nested) (F.post self.now.nested) }
        requires depth { self.now.depth + 1 < 2 ^ 32 }
        ensures reads { Reads (spec.base_at (leaves_of self.now.text.now) self.now.types.now self.now.turns self.now.depth (spec.below (leaves_of self.now.text.now) self.now.types.now self.now.turns self.now.depth) bare tokens.old) result tokens.new }
        ensures low { IfOk result (λ x. x.height ≤ self.now.depth) }
    {
        if sees_type_name(self.types, tokens) {
            self.named(bare, tokens)
        } else {
            self.unnamed(bare, tokens)
        }
    }

    /// A base type with stars.
    #[tactic(auto, unfolding(crate::specs::Parse::starred_at))]
    pub(crate) fn starred_at(
        &self,
        bare: bool,
        tokens: &mut Cursor<'_>,
    ) -> Result<(TypeTree, u32), ParseError>
        requires nests { Nests self.now.turns self.now.depth (F.pre self.now.nested) (F.post self.now.nested) }
        requires depth { self.now.depth + 1 < 2 ^ 32 }
        ensures reads { Reads (spec.starred_at (leaves_of self.now.text.now) self.now.types.now self.now.turns self.now.depth (spec.below (leaves_of self.now.text.now) self.now.types.now self.now.turns self.now.depth) bare tokens.old) result tokens.new }
        ensures low { IfOk result (λ x. x.1 ≤ self.now.depth) }
    {
        let at = tokens.here();
        let x = self.base_at(bare, tokens)?;
        let y = pointers_from(self.alloc, self.turns, at, x, tokens)?;
        Ok((y.tree, y.height))
    }
}
