//! Postfix expressions.
ghost use Rattle.std.specs.Prelude.{◌≡◌, ◌+◌, ◌<◌, ◌≤◌, ℕ, max, [], ◌∷◌, IfOk, OnOk};
ghost use Rattle.al_tree.specs.Leaves.{leaves_of};
ghost use Rattle.al_tree.specs.Reading.{Reads, refusal};
ghost use Rattle.al_tree.specs.Types.{Leaves};
ghost use Rattle.al_parse_expr.specs.Parse as spec;
ghost use Rattle.al_parse_expr.specs.Part as parts;
ghost use Rattle.al_parse_expr.specs.Nests.{Nests};

use crate::operand::{Operand, Want};
use crate::rules::{Rules, operand};
use crate::words::{access, postfix_operator};
use al_base::{NoMemory, Place};
use al_items::{Boxed, Items};
use al_lex::{Token, TokenKind, char_value, text_bytes};
use al_parse_type::{number_at, other_name, token_bytes};
use al_tree::{Access, Cursor, Expr, Name, ParseError, PostfixOp, TypeNames, same_kind};
use std::alloc::Global;

/// Whether a postfix expression goes on with that token.
#[tactic(auto, unfolding(crate::specs::Part::goes_on))]
fn goes_on(next: TokenKind) -> bool
    ensures { result ≡ parts.goes_on next }
{
    access(next).is_some()
        || postfix_operator(next).is_some()
        || same_kind(next, TokenKind::LeftBracket)
        || same_kind(next, TokenKind::LeftParen)
}

/// What was read, when nothing more of it comes.
fn done(x: Operand) -> (Expr, u32)
    ensures { result ≡ (x.tree, x.height) }
{
    let height = x.height;
    (x.tree, height)
}

/// That the next token is wrong, whatever was read before it.
fn refused(_read: Operand, tokens: &Cursor<'_>) -> ParseError
    ensures { result ≡ refusal tokens.now }
{
    tokens.refuse()
}

/// An index of an operand, which begins at that place.
fn indexed(alloc: Global, at: Place, x: Operand, y: (Expr, u32)) -> Result<Operand, NoMemory>
    requires x { x.height < 1000 }
    requires y { y.1 < 1000 }
    ensures { IfOk result (λ z. z ≡ spec.operand (Expr.Index at x.tree y.0) (max x.height y.1 + 1)) }
{
    let height = x.height.max(y.1) + 1;
    let of = Boxed::new(alloc, x.tree)?;
    let index = Boxed::new(alloc, y.0)?;
    Ok(operand(Expr::Index { at, of, index }, height))
}

/// The string that a token of this text is.
fn text_at(alloc: Global, text: &[u8], t: Token) -> Result<Expr, NoMemory>
    ensures { IfOk result (λ x. x ≡ Expr.Text t.place ((leaves_of text.now).bytes t)) }
{
    let bytes = text_bytes(alloc, token_bytes(text, t))?;
    Ok(Expr::Text {
        at: t.place,
        bytes: Items::from_vec(bytes),
    })
}

/// The character constant that a token of this text is.
fn char_at(text: &[u8], t: Token) -> Expr
    ensures { result ≡ Expr.Char t.place ((leaves_of text.now).byte t) }
{
    Expr::Char {
        at: t.place,
        value: char_value(token_bytes(text, t)),
    }
}

/// A variable, or the function that is called.
fn name_of(t: Token) -> Operand
    ensures { result ≡ record { tree = Expr.Name t.place t.name; height = 1; called = 0 } }
{
    Operand {
        tree: Expr::Name {
            at: t.place,
            name: t.name,
        },
        height: 1,
        called: 0,
    }
}

impl<
    't,
    F: Fn(
        Global,
        &[u8],
        &TypeNames,
        usize,
        u32,
        &mut Cursor<'_>,
        Want,
    ) -> Result<(Expr, u32), ParseError>,
> Rules<'t, F> {
    /// What is read whole by its first token.
    #[tactic(auto, unfolding(crate::specs::Parse::prim))]
    fn prim(&self, tokens: &mut Cursor<'_>) -> Result<Operand, ParseError>
        requires nests { Nests self.now.turns self.now.depth (F.pre self.now.nested) (F.post self.now.nested) }
        requires depth { self.now.depth < 999 }
        ensures reads { Reads (spec.prim (leaves_of self.now.text.now) self.now.types.now self.now.turns self.now.depth (spec.within (leaves_of self.now.text.now) self.now.types.now self.now.turns self.now.depth) tokens.old) result tokens.new }
        ensures low { IfOk result (λ y. y.height ≤ self.now.depth + 1) }
        ensures callee { IfOk result (λ y. y.called ≤ self.now.depth + 1) }
    {
        match tokens.peek() {
            TokenKind::Number => {
                let t = tokens.take_if(true)?;
                let value = number_at(self.text, t);
                Ok(operand(Expr::Number { at: t.place, value }, 1))
            }
            TokenKind::Char => {
                let t = tokens.take_if(true)?;
                Ok(operand(char_at(self.text, t), 1))
            }
            TokenKind::Text => {
                let t = tokens.take_if(true)?;
                Ok(operand(text_at(self.alloc, self.text, t)?, 1))
            }
            TokenKind::Nil => {
                let t = tokens.take_if(true)?;
                Ok(operand(Expr::Nil { at: t.place }, 1))
            }
            TokenKind::Name => Ok(name_of(other_name(self.types, tokens)?)),
            _ => Err(tokens.refuse()),
        }
    }

    /// An expression and the bracket that closes.
    #[tactic(auto, unfolding(crate::specs::Part::bracketed))]
    fn bracketed(&self, tokens: &mut Cursor<'_>) -> Result<(Expr, u32), ParseError>
        requires nests { Nests self.now.turns self.now.depth (F.pre self.now.nested) (F.post self.now.nested) }
        requires depth { self.now.depth < 999 }
        ensures reads { Reads (parts.bracketed (leaves_of self.now.text.now) self.now.types.now self.now.turns self.now.depth (spec.within (leaves_of self.now.text.now) self.now.types.now self.now.turns self.now.depth) tokens.old) result tokens.new }
        ensures low { IfOk result (λ x. x.1 ≤ self.now.depth) }
    {
        let y = self.sub(Want::Expression, tokens)?;
        tokens.expect(TokenKind::RightBracket)?;
        Ok(y)
    }

    #[tactic(auto, unfolding(crate::specs::Parse::index, crate::specs::Part::bracketed))]
    fn index(&self, at: Place, x: Operand, tokens: &mut Cursor<'_>) -> Result<Operand, ParseError>
        requires nests { Nests self.now.turns self.now.depth (F.pre self.now.nested) (F.post self.now.nested) }
        requires depth { self.now.depth < 999 }
        ensures reads { Reads (spec.index (leaves_of self.now.text.now) self.now.types.now self.now.turns self.now.depth (spec.within (leaves_of self.now.text.now) self.now.types.now self.now.turns self.now.depth) at x tokens.old) result tokens.new }
        ensures low { IfOk result (λ y. y.height ≤ self.now.depth + 1) }
        ensures callee { IfOk result (λ y. y.called ≤ self.now.depth + 1) }
    {
        tokens.take_if(x.height <= self.depth)?;
        let y = self.bracketed(tokens)?;
        Ok(indexed(self.alloc, at, x, y)?)
    }

    #[tactic(auto, unfolding(crate::specs::Parse::member))]
    fn member(
        &self,
        at: Place,
        access: Access,
        x: Operand,
        tokens: &mut Cursor<'_>,
    ) -> Result<Operand, ParseError>
        requires nests { Nests self.now.turns self.now.depth (F.pre self.now.nested) (F.post self.now.nested) }
        requires depth { self.now.depth < 999 }
        ensures reads { Reads (spec.member (leaves_of self.now.text.now) self.now.types.now self.now.turns self.now.depth (spec.within (leaves_of self.now.text.now) self.now.types.now self.now.turns self.now.depth) at access x tokens.old) result tokens.new }
        ensures low { IfOk result (λ y. y.height ≤ self.now.depth + 1) }
        ensures callee { IfOk result (λ y. y.called ≤ self.now.depth + 1) }
    {
        tokens.take_if(x.height <= self.depth)?;
        let t = other_name(self.types, tokens)?;
        let name = Name {
            at: t.place,
            name: t.name,
        };
        let of = Boxed::new(self.alloc, x.tree)?;
        Ok(Operand {
            tree: Expr::Member {
                at,
                of,
                access,
                name,
            },
            height: x.height + 1,
            called: x.height,
        })
    }

    #[tactic(auto, unfolding(crate::specs::Parse::arguments))]
    fn arguments(&self, tokens: &mut Cursor<'_>) -> Result<(Items<Expr>, u32), ParseError>
        requires nests { Nests self.now.turns self.now.depth (F.pre self.now.nested) (F.post self.now.nested) }
        requires depth { self.now.depth < 999 }
        ensures reads { Reads (spec.arguments (leaves_of self.now.text.now) self.now.types.now self.now.turns self.now.depth (spec.within (leaves_of self.now.text.now) self.now.types.now self.now.turns self.now.depth) tokens.old) result tokens.new }
        ensures low { IfOk result (λ x. x.1 ≤ self.now.depth) }
    {
        if tokens.next_is(TokenKind::RightParen) {
            return Ok((Items::new(self.alloc), 0));
        }
        self.listed(tokens)
    }

    #[tactic(auto, unfolding(crate::specs::Parse::call))]
    fn call(&self, at: Place, x: Operand, tokens: &mut Cursor<'_>) -> Result<Operand, ParseError>
        requires nests { Nests self.now.turns self.now.depth (F.pre self.now.nested) (F.post self.now.nested) }
        requires depth { self.now.depth < 999 }
        ensures reads { Reads (spec.call (leaves_of self.now.text.now) self.now.types.now self.now.turns self.now.depth (spec.within (leaves_of self.now.text.now) self.now.types.now self.now.turns self.now.depth) at x tokens.old) result tokens.new }
        ensures low { IfOk result (λ y. y.height ≤ self.now.depth + 1) }
        ensures callee { IfOk result (λ y. y.called ≤ self.now.depth + 1) }
    {
        tokens.take_if(x.called <= self.depth)?;
        let (arguments, above) = self.arguments(tokens)?;
        tokens.expect(TokenKind::RightParen)?;
        let height = x.called.max(above) + 1;
        let callee = Boxed::new(self.alloc, x.tree)?;
        let tree = Expr::Call {
            at,
            callee,
            arguments,
        };
        Ok(operand(tree, height))
    }

    #[tactic(auto, unfolding(crate::specs::Parse::postfix))]
    fn postfix(
        &self,
        at: Place,
        op: PostfixOp,
        x: Operand,
        tokens: &mut Cursor<'_>,
    ) -> Result<Operand, ParseError>
        requires nests { Nests self.now.turns self.now.depth (F.pre self.now.nested) (F.post self.now.nested) }
        requires depth { self.now.depth < 999 }
        ensures reads { Reads (spec.postfix (leaves_of self.now.text.now) self.now.types.now self.now.turns self.now.depth (spec.within (leaves_of self.now.text.now) self.now.types.now self.now.turns self.now.depth) at op x tokens.old) result tokens.new }
        ensures low { IfOk result (λ y. y.height ≤ self.now.depth + 1) }
        ensures callee { IfOk result (λ y. y.called ≤ self.now.depth + 1) }
    {
        tokens.take_if(x.height <= self.depth)?;
        let height = x.height + 1;
        let inner = Boxed::new(self.alloc, x.tree)?;
        let tree = Expr::Postfix {
            at,
            op,
            operand: inner,
        };
        Ok(operand(tree, height))
    }

    /// An index or the arguments of a call, behind an operand that begins at that place.
    #[tactic(auto, unfolding(crate::specs::Part::enclosed))]
    fn enclosed(
        &self,
        at: Place,
        x: Operand,
        tokens: &mut Cursor<'_>,
    ) -> Result<Operand, ParseError>
        requires nests { Nests self.now.turns self.now.depth (F.pre self.now.nested) (F.post self.now.nested) }
        requires depth { self.now.depth < 999 }
        ensures reads { Reads (parts.enclosed (leaves_of self.now.text.now) self.now.types.now self.now.turns self.now.depth (spec.within (leaves_of self.now.text.now) self.now.types.now self.now.turns self.now.depth) at x tokens.old) result tokens.new }
        ensures low { IfOk result (λ y. y.height ≤ self.now.depth + 1) }
        ensures callee { IfOk result (λ y. y.called ≤ self.now.depth + 1) }
    {
        if tokens.next_is(TokenKind::LeftBracket) {
            self.index(at, x, tokens)
        } else {
            self.call(at, x, tokens)
        }
    }

    /// A part that is no member.
    #[tactic(auto, unfolding(crate::specs::Part::other_part))]
    fn other_part(
        &self,
        at: Place,
        x: Operand,
        tokens: &mut Cursor<'_>,
    ) -> Result<Operand, ParseError>
        requires nests { Nests self.now.turns self.now.depth (F.pre self.now.nested) (F.post self.now.nested) }
        requires depth { self.now.depth < 999 }
        ensures reads { Reads (parts.other_part (leaves_of self.now.text.now) self.now.types.now self.now.turns self.now.depth (spec.within (leaves_of self.now.text.now) self.now.types.now self.now.turns self.now.depth) at x tokens.old) result tokens.new }
        ensures low { IfOk result (λ y. y.height ≤ self.now.depth + 1) }
        ensures callee { IfOk result (λ y. y.called ≤ self.now.depth + 1) }
    {
        if let Some(op) = postfix_operator(tokens.peek()) {
            self.postfix(at, op, x, tokens)
        } else {
            self.enclosed(at, x, tokens)
        }
    }

    /// One part more.
    #[tactic(auto, unfolding(crate::specs::Part::part))]
    fn part(&self, at: Place, x: Operand, tokens: &mut Cursor<'_>) -> Result<Operand, ParseError>
        requires nests { Nests self.now.turns self.now.depth (F.pre self.now.nested) (F.post self.now.nested) }
        requires depth { self.now.depth < 999 }
        ensures reads { Reads (parts.part (leaves_of self.now.text.now) self.now.types.now self.now.turns self.now.depth (spec.within (leaves_of self.now.text.now) self.now.types.now self.now.turns self.now.depth) at x tokens.old) result tokens.new }
        ensures low { IfOk result (λ y. y.height ≤ self.now.depth + 1) }
        ensures callee { IfOk result (λ y. y.called ≤ self.now.depth + 1) }
    {
        if let Some(by) = access(tokens.peek()) {
            self.member(at, by, x, tokens)
        } else {
            self.other_part(at, x, tokens)
        }
    }

    /// What stands behind an operand that begins at that place.
    pub(crate) fn post_from(
        &self,
        at: Place,
        mut x: Operand,
        tokens: &mut Cursor<'_>,
    ) -> Result<(Expr, u32), ParseError>
        requires nests { Nests self.now.turns self.now.depth (F.pre self.now.nested) (F.post self.now.nested) }
        requires depth { self.now.depth < 999 }
        requires height { x.height ≤ self.now.depth + 1 }
        requires called { x.called ≤ self.now.depth + 1 }
        ensures reads { Reads (spec.post_from (leaves_of self.now.text.now) self.now.types.now self.now.turns self.now.depth (spec.within (leaves_of self.now.text.now) self.now.types.now self.now.turns self.now.depth) self.now.turns at x tokens.old) result tokens.new }
        ensures low { IfOk result (λ x. x.1 ≤ self.now.depth + 1) }
    {
        for _turn in 0..self.turns {
            if !goes_on(tokens.peek()) {
                return Ok(done(x));
            }
            let y = self.part(at, x, tokens)?;
            x = y;
        }
        Err(refused(x, tokens))
    }

    #[tactic(auto, unfolding(crate::specs::Parse::post))]
    pub(crate) fn post(&self, tokens: &mut Cursor<'_>) -> Result<(Expr, u32), ParseError>
        requires nests { Nests self.now.turns self.now.depth (F.pre self.now.nested) (F.post self.now.nested) }
        requires depth { self.now.depth < 999 }
        ensures reads { Reads (spec.post (leaves_of self.now.text.now) self.now.types.now self.now.turns self.now.depth (spec.within (leaves_of self.now.text.now) self.now.types.now self.now.turns self.now.depth) tokens.old) result tokens.new }
        ensures low { IfOk result (λ x. x.1 ≤ self.now.depth + 1) }
    {
        let at = tokens.here();
        let x = self.prim(tokens)?;
        self.post_from(at, x, tokens)
    }
}
