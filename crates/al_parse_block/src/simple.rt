//! Statements in which no statements stand.
ghost use Rattle.std.specs.Prelude.{◌≡◌, ◌+◌, ◌<◌, ◌≤◌, ◌^◌, ℕ, Some, None, IfOk, OnOk};
ghost use Rattle.al_tree.specs.Leaves.{leaves_of};
ghost use Rattle.al_tree.specs.Reading.{Reads};
ghost use Rattle.al_parse_block.specs.Parse as spec;

use crate::context::{Context, ended};
use crate::part::ReadStmt;
use al_base::NoMemory;
use al_items::Items;
use al_lex::{Token, TokenKind, text_bytes};
use al_parse_type::{other_name, token_bytes};
use al_tree::{Cursor, Expr, Name, ParseError, Stmt};
use std::alloc::Global;

/// The bytes of the string that a token of this text is.
fn bytes_at(alloc: Global, text: &[u8], t: Token) -> Result<Items<u8>, NoMemory>
    ensures { IfOk result (λ x. x ≡ (leaves_of text.now).bytes t) }
{
    let bytes = text_bytes(alloc, token_bytes(text, t))?;
    Ok(Items::from_vec(bytes))
}

impl<'t> Context<'t> {
    #[tactic(auto, unfolding(crate::specs::Parse::empty))]
    fn empty(&self, tokens: &mut Cursor<'_>) -> Result<ReadStmt, ParseError>
        ensures reads { Reads (spec.empty (leaves_of self.now.text.now) self.now.types.now self.now.turns self.now.depth tokens.old) result tokens.new }
        ensures low { IfOk result (λ y. y.height ≤ self.now.depth + 1) }
    {
        let t = tokens.take_if(true)?;
        Ok(ended(Stmt::Empty { at: t.place }, 1))
    }

    #[tactic(auto, unfolding(crate::specs::Parse::value))]
    fn value(&self, tokens: &mut Cursor<'_>) -> Result<ReadStmt, ParseError>
        requires depth { self.now.depth < 999 }
        ensures reads { Reads (spec.value (leaves_of self.now.text.now) self.now.types.now self.now.turns self.now.depth tokens.old) result tokens.new }
        ensures low { IfOk result (λ y. y.height ≤ self.now.depth + 1) }
    {
        let at = tokens.here();
        let (value, height) = self.expression(tokens)?;
        tokens.expect(TokenKind::Semicolon)?;
        Ok(ended(Stmt::Value { at, value }, height + 1))
    }

    /// A word, assignments, and the semicolon.
    #[tactic(auto, unfolding(crate::specs::Parse::listed))]
    fn listed(&self, tokens: &mut Cursor<'_>) -> Result<((Items<Expr>, u32), Token), ParseError>
        requires depth { self.now.depth < 999 }
        ensures reads { Reads (spec.listed (leaves_of self.now.text.now) self.now.types.now self.now.turns self.now.depth tokens.old) result tokens.new }
        ensures low { IfOk result (λ y. y.0.1 ≤ self.now.depth) }
    {
        let w = tokens.take_if(0 < self.depth)?;
        let xs = self.list(tokens)?;
        tokens.expect(TokenKind::Semicolon)?;
        Ok((xs, w))
    }

    /// A word, a number or none, and the semicolon.
    #[tactic(auto, unfolding(crate::specs::Parse::counted))]
    fn counted(&self, tokens: &mut Cursor<'_>) -> Result<(Token, Option<u64>), ParseError>
        ensures { Reads (spec.counted (leaves_of self.now.text.now) self.now.types.now self.now.turns self.now.depth tokens.old) result tokens.new }
    {
        let w = tokens.take_if(true)?;
        let n = self.optional_number(tokens)?;
        tokens.expect(TokenKind::Semicolon)?;
        Ok((w, n))
    }

    #[tactic(auto, unfolding(crate::specs::Parse::raise))]
    fn raise(&self, tokens: &mut Cursor<'_>) -> Result<ReadStmt, ParseError>
        ensures reads { Reads (spec.raise (leaves_of self.now.text.now) self.now.types.now self.now.turns self.now.depth tokens.old) result tokens.new }
        ensures low { IfOk result (λ y. y.height ≤ self.now.depth + 1) }
    {
        let w = tokens.take_if(true)?;
        let name = self.optional_name(tokens)?;
        tokens.expect(TokenKind::Semicolon)?;
        Ok(ended(Stmt::Raise { at: w.place, name }, 1))
    }

    #[tactic(auto, unfolding(crate::specs::Parse::returned))]
    fn returned(&self, tokens: &mut Cursor<'_>) -> Result<ReadStmt, ParseError>
        requires depth { self.now.depth < 999 }
        ensures reads { Reads (spec.returned (leaves_of self.now.text.now) self.now.types.now self.now.turns self.now.depth tokens.old) result tokens.new }
        ensures low { IfOk result (λ y. y.height ≤ self.now.depth + 1) }
    {
        let w = tokens.take_if(true)?;
        let (value, height) = self.optional(TokenKind::Semicolon, tokens)?;
        Ok(ended(Stmt::Return { at: w.place, value }, height + 1))
    }

    #[tactic(auto, unfolding(crate::specs::Parse::becoming))]
    fn become_(&self, tokens: &mut Cursor<'_>) -> Result<ReadStmt, ParseError>
        requires depth { self.now.depth < 999 }
        ensures reads { Reads (spec.becoming (leaves_of self.now.text.now) self.now.types.now self.now.turns self.now.depth tokens.old) result tokens.new }
        ensures low { IfOk result (λ y. y.height ≤ self.now.depth + 1) }
    {
        let w = tokens.take_if(0 < self.depth)?;
        let (value, height) = self.expression(tokens)?;
        tokens.expect(TokenKind::Semicolon)?;
        Ok(ended(Stmt::Become { at: w.place, value }, height + 1))
    }

    #[tactic(auto, unfolding(crate::specs::Parse::goto))]
    fn goto(&self, tokens: &mut Cursor<'_>) -> Result<ReadStmt, ParseError>
        ensures reads { Reads (spec.goto (leaves_of self.now.text.now) self.now.types.now self.now.turns self.now.depth tokens.old) result tokens.new }
        ensures low { IfOk result (λ y. y.height ≤ self.now.depth + 1) }
    {
        let w = tokens.take_if(true)?;
        let n = other_name(self.types, tokens)?;
        tokens.expect(TokenKind::Semicolon)?;
        let label = Name {
            at: n.place,
            name: n.name,
        };
        Ok(ended(Stmt::Goto { at: w.place, label }, 1))
    }

    /// A string or none behind the condition of a `check`, and the semicolon.
    #[tactic(auto, unfolding(crate::specs::Parse::check_text))]
    fn check_text(&self, tokens: &mut Cursor<'_>) -> Result<Option<Items<u8>>, ParseError>
        ensures { Reads (spec.check_text (leaves_of self.now.text.now) self.now.types.now self.now.turns self.now.depth tokens.old) result tokens.new }
    {
        if !tokens.next_is(TokenKind::Comma) {
            tokens.expect(TokenKind::Semicolon)?;
            return Ok(None);
        }
        tokens.take_if(true)?;
        let n = tokens.expect(TokenKind::Text)?;
        tokens.expect(TokenKind::Semicolon)?;
        let bytes = bytes_at(self.alloc, self.text, n)?;
        Ok(Some(bytes))
    }

    #[tactic(auto, unfolding(crate::specs::Parse::check))]
    fn check(&self, tokens: &mut Cursor<'_>) -> Result<ReadStmt, ParseError>
        requires depth { self.now.depth < 999 }
        ensures reads { Reads (spec.check (leaves_of self.now.text.now) self.now.types.now self.now.turns self.now.depth tokens.old) result tokens.new }
        ensures low { IfOk result (λ y. y.height ≤ self.now.depth + 1) }
    {
        let w = tokens.take_if(0 < self.depth)?;
        let (value, height) = self.assignment(tokens)?;
        let text = self.check_text(tokens)?;
        let tree = Stmt::Check {
            at: w.place,
            value,
            text,
        };
        Ok(ended(tree, height + 1))
    }

    fn breaking(&self, tokens: &mut Cursor<'_>) -> Result<ReadStmt, ParseError>
        ensures reads { Reads (spec.breaking (leaves_of self.now.text.now) self.now.types.now self.now.turns self.now.depth tokens.old) result tokens.new }
        ensures low { IfOk result (λ y. y.height ≤ self.now.depth + 1) }
    {
        let (w, count) = self.counted(tokens)?;
        Ok(ended(Stmt::Break { at: w.place, count }, 1))
    }

    fn continuing(&self, tokens: &mut Cursor<'_>) -> Result<ReadStmt, ParseError>
        ensures reads { Reads (spec.continuing (leaves_of self.now.text.now) self.now.types.now self.now.turns self.now.depth tokens.old) result tokens.new }
        ensures low { IfOk result (λ y. y.height ≤ self.now.depth + 1) }
    {
        let (w, count) = self.counted(tokens)?;
        Ok(ended(Stmt::Continue { at: w.place, count }, 1))
    }

    fn allocating(&self, tokens: &mut Cursor<'_>) -> Result<ReadStmt, ParseError>
        requires depth { self.now.depth < 999 }
        ensures reads { Reads (spec.allocating (leaves_of self.now.text.now) self.now.types.now self.now.turns self.now.depth tokens.old) result tokens.new }
        ensures low { IfOk result (λ y. y.height ≤ self.now.depth + 1) }
    {
        let (xs, w) = self.listed(tokens)?;
        let height = xs.1 + 1;
        let tree = Stmt::Alloc {
            at: w.place,
            places: xs.0,
        };
        Ok(ended(tree, height))
    }

    fn unallocating(&self, tokens: &mut Cursor<'_>) -> Result<ReadStmt, ParseError>
        requires depth { self.now.depth < 999 }
        ensures reads { Reads (spec.unallocating (leaves_of self.now.text.now) self.now.types.now self.now.turns self.now.depth tokens.old) result tokens.new }
        ensures low { IfOk result (λ y. y.height ≤ self.now.depth + 1) }
    {
        let (xs, w) = self.listed(tokens)?;
        let height = xs.1 + 1;
        let tree = Stmt::Unalloc {
            at: w.place,
            values: xs.0,
        };
        Ok(ended(tree, height))
    }

    fn procs(&self, tokens: &mut Cursor<'_>) -> Result<ReadStmt, ParseError>
        requires depth { self.now.depth < 999 }
        ensures reads { Reads (spec.procs (leaves_of self.now.text.now) self.now.types.now self.now.turns self.now.depth tokens.old) result tokens.new }
        ensures low { IfOk result (λ y. y.height ≤ self.now.depth + 1) }
    {
        let (xs, w) = self.listed(tokens)?;
        let height = xs.1 + 1;
        let tree = Stmt::Proc {
            at: w.place,
            calls: xs.0,
        };
        Ok(ended(tree, height))
    }

    fn tasks(&self, tokens: &mut Cursor<'_>) -> Result<ReadStmt, ParseError>
        requires depth { self.now.depth < 999 }
        ensures reads { Reads (spec.tasks (leaves_of self.now.text.now) self.now.types.now self.now.turns self.now.depth tokens.old) result tokens.new }
        ensures low { IfOk result (λ y. y.height ≤ self.now.depth + 1) }
    {
        let (xs, w) = self.listed(tokens)?;
        let height = xs.1 + 1;
        let tree = Stmt::Task {
            at: w.place,
            calls: xs.0,
        };
        Ok(ended(tree, height))
    }

    /// A statement in which no statements stand, by the kind of the next token.
    pub(crate) fn simple(
        &self,
        next: TokenKind,
        tokens: &mut Cursor<'_>,
    ) -> Result<ReadStmt, ParseError>
        requires depth { self.now.depth < 999 }
        ensures reads { Reads (spec.simple_by (leaves_of self.now.text.now) self.now.types.now self.now.turns self.now.depth next tokens.old) result tokens.new }
        ensures low { IfOk result (λ y. y.height ≤ self.now.depth + 1) }
    {
        match next {
            TokenKind::Semicolon => self.empty(tokens),
            TokenKind::Raise => self.raise(tokens),
            TokenKind::Return => self.returned(tokens),
            TokenKind::Become => self.become_(tokens),
            TokenKind::Break => self.breaking(tokens),
            TokenKind::Continue => self.continuing(tokens),
            TokenKind::Goto => self.goto(tokens),
            TokenKind::Alloc => self.allocating(tokens),
            TokenKind::Unalloc => self.unallocating(tokens),
            TokenKind::Check => self.check(tokens),
            TokenKind::Proc => self.procs(tokens),
            TokenKind::Task => self.tasks(tokens),
            _ => self.value(tokens),
        }
    }
}
