//! Lists of statements in braces.
ghost use Rattle.std.specs.Prelude.{◌≡◌, ◌+◌, ◌<◌, ◌≤◌, ◌^◌, ℕ, max, [], ◌∷◌, ◌++◌, IfOk, OnOk};
ghost use Rattle.al_tree.specs.Leaves.{leaves_of};
ghost use Rattle.al_tree.specs.Reading.{Reads};
ghost use Rattle.al_parse_block.specs.Parse as spec;
ghost use Rattle.al_parse_block.specs.Nests.{Nests};

use crate::context::ended;
use crate::part::{ReadStmt, Want};
use crate::rules::Rules;
use crate::words::{begins_inner, begins_statement};
use al_items::Items;
use al_lex::TokenKind;
use al_tree::{Cursor, ParseError, Stmt, TypeNames};
use std::alloc::Global;

impl<
    't,
    F: Fn(
        Global,
        &[u8],
        &TypeNames,
        usize,
        u32,
        &mut Cursor<'_>,
        Want,
    ) -> Result<ReadStmt, ParseError>,
> Rules<'t, F> {
    /// What stands in a list. Where no level is left for it, what it may begin with goes too deep.
    #[tactic(auto, unfolding(crate::specs::Parse::inner))]
    fn inner(&self, want: Want, tokens: &mut Cursor<'_>) -> Result<ReadStmt, ParseError>
        requires nests { Nests self.now.context.turns self.now.context.depth (F.pre self.now.nested) (F.post self.now.nested) }
        requires turns { self.now.context.turns < 2 ^ 32 }
        requires depth { self.now.context.depth < 999 }
        ensures reads { Reads (spec.inner (leaves_of self.now.context.text.now) self.now.context.types.now self.now.context.turns self.now.context.depth (spec.within (leaves_of self.now.context.text.now) self.now.context.types.now self.now.context.turns self.now.context.depth) want tokens.old) result tokens.new }
        ensures low { IfOk result (λ y. y.height ≤ self.now.context.depth) }
    {
        if 0 < self.context.depth {
            self.sub(want, tokens)
        } else {
            tokens.take_if(false)?;
            Err(tokens.refuse())
        }
    }

    /// Statements and declarations, behind those that were found.
    pub(crate) fn body_from(
        &self,
        mut found: Items<Stmt>,
        mut height: u32,
        tokens: &mut Cursor<'_>,
    ) -> Result<(Items<Stmt>, u32), ParseError>
        requires nests { Nests self.now.context.turns self.now.context.depth (F.pre self.now.nested) (F.post self.now.nested) }
        requires turns { self.now.context.turns < 2 ^ 32 }
        requires depth { self.now.context.depth < 999 }
        requires height { height ≤ self.now.context.depth }
        ensures reads { Reads (spec.body_from (leaves_of self.now.context.text.now) self.now.context.types.now self.now.context.turns self.now.context.depth (spec.within (leaves_of self.now.context.text.now) self.now.context.types.now self.now.context.turns self.now.context.depth) self.now.context.turns found height tokens.old) result tokens.new }
        ensures low { IfOk result (λ y. y.1 ≤ self.now.context.depth) }
    {
        for _turn in 0..self.context.turns {
            if !begins_inner(self.context.types, tokens) {
                return Ok((found, height));
            }
            let x = self.inner(Want::Inner, tokens)?;
            found.push(x.tree)?;
            height = height.max(x.height);
        }
        Err(tokens.refuse())
    }

    /// Statements, behind those that were found.
    pub(crate) fn branches_from(
        &self,
        mut found: Items<Stmt>,
        mut height: u32,
        tokens: &mut Cursor<'_>,
    ) -> Result<(Items<Stmt>, u32), ParseError>
        requires nests { Nests self.now.context.turns self.now.context.depth (F.pre self.now.nested) (F.post self.now.nested) }
        requires turns { self.now.context.turns < 2 ^ 32 }
        requires depth { self.now.context.depth < 999 }
        requires height { height ≤ self.now.context.depth }
        ensures reads { Reads (spec.branches_from (leaves_of self.now.context.text.now) self.now.context.types.now self.now.context.turns self.now.context.depth (spec.within (leaves_of self.now.context.text.now) self.now.context.types.now self.now.context.turns self.now.context.depth) self.now.context.turns found height tokens.old) result tokens.new }
        ensures low { IfOk result (λ y. y.1 ≤ self.now.context.depth) }
    {
        for _turn in 0..self.context.turns {
            if !begins_statement(self.context.types, tokens) {
                return Ok((found, height));
            }
            let x = self.inner(Want::Statement, tokens)?;
            found.push(x.tree)?;
            height = height.max(x.height);
        }
        Err(tokens.refuse())
    }

    #[tactic(auto, unfolding(crate::specs::Parse::block))]
    pub(crate) fn block(&self, tokens: &mut Cursor<'_>) -> Result<ReadStmt, ParseError>
        requires nests { Nests self.now.context.turns self.now.context.depth (F.pre self.now.nested) (F.post self.now.nested) }
        requires turns { self.now.context.turns < 2 ^ 32 }
        requires depth { self.now.context.depth < 999 }
        ensures reads { Reads (spec.block (leaves_of self.now.context.text.now) self.now.context.types.now self.now.context.turns self.now.context.depth (spec.within (leaves_of self.now.context.text.now) self.now.context.types.now self.now.context.turns self.now.context.depth) tokens.old) result tokens.new }
        ensures low { IfOk result (λ y. y.height ≤ self.now.context.depth + 1) }
    {
        let p = tokens.expect(TokenKind::LeftBrace)?;
        let found = Items::new(self.context.alloc);
        let (body, height) = self.body_from(found, 0, tokens)?;
        tokens.expect(TokenKind::RightBrace)?;
        Ok(ended(Stmt::Block { at: p.place, body }, height + 1))
    }
}
