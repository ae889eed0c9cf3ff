//! What stands behind a parenthesis that opens, where a type or an expression may stand.
ghost use Rattle.std.specs.Prelude.{◌≡◌, ◌+◌, ◌<◌, ◌≤◌, ◌^◌, ℕ, max, pred, IfOk, OnOk};
ghost use Rattle.al_tree.specs.Leaves.{leaves_of};
ghost use Rattle.al_tree.specs.Reading.{Reads};
ghost use Rattle.al_parse_type.specs.Within as type_spec;
ghost use Rattle.al_parse_block.specs.Begun as spec;

use crate::context::{Context, below};
use crate::part::Begun;
use al_base::{NoMemory, Place};
use al_items::Boxed;
use al_lex::{Token, TokenKind};
use al_parse_expr::{after_first, after_unary, assignment_within, operand_within};
use al_parse_type::{ReadBase, sees_type, starred_within, tuple_within, type_behind, type_within};
use al_tree::{Cursor, Expr, ParseError, TypeNames, TypeTree};
use std::alloc::Global;

/// A cast that begins at that place, with its height.
fn cast(
    alloc: Global,
    at: Place,
    x: (TypeTree, u32),
    y: (Expr, u32),
) -> Result<(Expr, u32), NoMemory>
    requires x { x.1 < 1000 }
    requires y { y.1 < 1000 }
    ensures { IfOk result (λ z. z ≡ (Expr.Cast at x.0 y.0, max x.1 y.1 + 1)) }
{
    let height = x.1.max(y.1) + 1;
    let operand = Boxed::new(alloc, y.0)?;
    let tree = Expr::Cast {
        at,
        to: x.0,
        operand,
    };
    Ok((tree, height))
}

impl<'t> Context<'t> {
    /// Whether the tokens of the first cursor, up to those of the second, are the type of a cast of that height.
    #[tactic(auto, unfolding(crate::specs::Begun::castable))]
    fn castable(
        &self,
        height: u32,
        tokens: &mut Cursor<'_>,
        behind: &Cursor<'_>,
    ) -> Result<bool, NoMemory>
        requires height { height < 999 }
        ensures { IfOk result (λ is. is ≡ spec.castable (leaves_of self.now.text.now) self.now.types.now self.now.turns height tokens.old behind.now) }
    {
        let read = starred_within(
            self.alloc, self.text, self.types, self.turns, height, tokens,
        );
        match read {
            Ok(_) => Ok(tokens.left() == behind.left()),
            Err(ParseError::NoMemory) => Err(NoMemory),
            Err(_) => Ok(false),
        }
    }

    /// A type that begins with no parenthesis.
    #[tactic(auto, unfolding(crate::specs::Begun::first_type))]
    fn first_type(&self, tokens: &mut Cursor<'_>) -> Result<(Begun, u32), ParseError>
        requires depth { self.now.depth < 999 }
        ensures reads { Reads (spec.first_type (leaves_of self.now.text.now) self.now.types.now self.now.turns self.now.depth tokens.old) result tokens.new }
        ensures low { IfOk result (λ x. x.1 ≤ self.now.depth) }
    {
        let mut again = tokens.fork();
        let (x, height) = type_within(
            self.alloc, self.text, self.types, self.turns, self.depth, tokens,
        )?;
        let castable = self.castable(height, &mut again, tokens)?;
        Ok((Begun::Type(x, castable), height))
    }

    /// The operand of a cast, of which the parentheses and the type were read, and the assignment that begins with the cast.
    fn cast_operand(
        &self,
        o: Token,
        x: (TypeTree, u32),
        tokens: &mut Cursor<'_>,
    ) -> Result<(Expr, u32), ParseError>
        requires depth { self.now.depth < 999 }
        requires height { x.1 < self.now.depth }
        ensures reads { Reads (spec.cast_operand (leaves_of self.now.text.now) self.now.types.now self.now.turns self.now.depth o x tokens.old) result tokens.new }
        ensures low { IfOk result (λ y. y.1 ≤ self.now.depth) }
    {
        let depth = below(self.depth);
        let y = operand_within(self.alloc, self.text, self.types, self.turns, depth, tokens)?;
        let z = cast(self.alloc, o.place, x, y)?;
        after_unary(
            self.alloc, self.text, self.types, self.turns, depth, o.place, z, tokens,
        )
    }

    /// The assignment that begins with a cast, of which the first parenthesis and the type were read.
    #[tactic(auto, unfolding(crate::specs::Begun::cast_begun))]
    pub(crate) fn cast_begun(
        &self,
        o: Token,
        x: (TypeTree, u32),
        tokens: &mut Cursor<'_>,
    ) -> Result<(Expr, u32), ParseError>
        requires depth { self.now.depth < 999 }
        requires height { x.1 < self.now.depth }
        ensures reads { Reads (spec.cast_begun (leaves_of self.now.text.now) self.now.types.now self.now.turns self.now.depth o x tokens.old) result tokens.new }
        ensures low { IfOk result (λ y. y.1 ≤ self.now.depth) }
    {
        tokens.take_if(1 < self.depth)?;
        self.cast_operand(o, x, tokens)
    }

    /// The assignment that begins with a parenthesis and an expression in it.
    #[tactic(auto, unfolding(crate::specs::Begun::paren_begun))]
    pub(crate) fn paren_begun(
        &self,
        o: Token,
        x: (Expr, u32),
        tokens: &mut Cursor<'_>,
    ) -> Result<(Expr, u32), ParseError>
        requires depth { self.now.depth < 999 }
        requires height { x.1 < self.now.depth }
        ensures reads { Reads (spec.paren_begun (leaves_of self.now.text.now) self.now.types.now self.now.turns self.now.depth o x tokens.old) result tokens.new }
        ensures low { IfOk result (λ y. y.1 ≤ self.now.depth) }
    {
        let depth = below(self.depth);
        let y = after_first(
            self.alloc, self.text, self.types, self.turns, depth, o, x, tokens,
        )?;
        after_unary(
            self.alloc, self.text, self.types, self.turns, depth, o.place, y, tokens,
        )
    }

    /// The tuple's type that begins with a parenthesis and a type in it.
    pub(crate) fn tuple_begun(
        &self,
        o: Token,
        x: (TypeTree, u32),
        tokens: &mut Cursor<'_>,
    ) -> Result<ReadBase, ParseError>
        requires depth { self.now.depth < 999 }
        requires height { x.1 < self.now.depth }
        ensures reads { Reads (type_spec.tuple_within (leaves_of self.now.text.now) self.now.types.now self.now.turns self.now.depth o.place x tokens.old) result tokens.new }
        ensures low { IfOk result (λ y. y.height ≤ self.now.depth) }
    {
        tuple_within(
            self.alloc, self.text, self.types, self.turns, self.depth, o.place, x, tokens,
        )
    }

    /// What begins with a parenthesis and what was read behind it.
    fn begun_after(
        &self,
        o: Token,
        read: (Begun, u32),
        tokens: &mut Cursor<'_>,
    ) -> Result<(Begun, u32), ParseError>
        requires depth { self.now.depth < 999 }
        requires height { read.1 < self.now.depth }
        ensures reads { Reads (spec.begun_after (leaves_of self.now.text.now) self.now.types.now self.now.turns self.now.depth o read tokens.old) result tokens.new }
        ensures low { IfOk result (λ y. y.1 ≤ self.now.depth) }
    {
        let (part, height) = read;
        match part {
            Begun::Type(x, castable) => {
                if castable && tokens.next_is(TokenKind::RightParen) {
                    let (y, height) = self.cast_begun(o, (x, height), tokens)?;
                    return Ok((Begun::Value(y), height));
                }
                let b = self.tuple_begun(o, (x, height), tokens)?;
                let (y, height) = type_behind(
                    self.alloc, self.text, self.types, self.turns, self.depth, o.place, b, tokens,
                )?;
                Ok((Begun::Type(y, false), height))
            }
            Begun::Value(x) => {
                let (y, height) = self.paren_begun(o, (x, height), tokens)?;
                Ok((Begun::Value(y), height))
            }
        }
    }

    /// An assignment.
    #[tactic(auto, unfolding(crate::specs::Begun::value_begun))]
    fn value_begun(&self, tokens: &mut Cursor<'_>) -> Result<(Begun, u32), ParseError>
        requires depth { self.now.depth < 999 }
        ensures reads { Reads (spec.value_begun (leaves_of self.now.text.now) self.now.types.now self.now.turns self.now.depth tokens.old) result tokens.new }
        ensures low { IfOk result (λ y. y.1 ≤ self.now.depth) }
    {
        let (x, height) = assignment_within(
            self.alloc, self.text, self.types, self.turns, self.depth, tokens,
        )?;
        Ok((Begun::Value(x), height))
    }
}

/// A type or an assignment of at most `depth` levels.
#[tactic(auto, using(crate::proofs::BegunIs::begun_type, crate::proofs::BegunIs::begun_value, crate::proofs::BegunIs::begun_deep))]
pub(crate) fn begun(
    alloc: Global,
    text: &[u8],
    types: &TypeNames,
    turns: usize,
    depth: u32,
    tokens: &mut Cursor<'_>,
) -> Result<(Begun, u32), ParseError>
    requires depth { depth < 999 }
    ensures reads { Reads (spec.begun (leaves_of text.now) types.now turns depth tokens.old) result tokens.new }
    ensures low { IfOk result (λ y. y.1 ≤ depth) }
{
    let context = Context {
        alloc,
        text,
        types,
        turns,
        depth,
    };
    if sees_type(types, tokens) {
        return context.first_type(tokens);
    }
    if !tokens.next_is(TokenKind::LeftParen) {
        return context.value_begun(tokens);
    }
    let o = tokens.take_if(0 < depth)?;
    let x = begun(alloc, text, types, turns, depth - 1, tokens)?;
    context.begun_after(o, x, tokens)
}
