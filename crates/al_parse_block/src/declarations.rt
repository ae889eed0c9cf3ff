//! Local declarations.
ghost use Rattle.std.specs.Prelude.{◌≡◌, ◌+◌, ◌<◌, ◌≤◌, ◌^◌, ℕ, max, [], ◌∷◌, ◌++◌, Some, None, IfOk, OnOk};
ghost use Rattle.al_tree.specs.Leaves.{leaves_of};
ghost use Rattle.al_tree.specs.Reading.{Reads};
ghost use Rattle.al_parse_block.specs.Parse as spec;

use crate::context::{Context, ended};
use crate::part::ReadStmt;
use al_base::{NoMemory, Place};
use al_items::Items;
use al_lex::TokenKind;
use al_parse_type::{ReadBase, base_within, dcl_within};
use al_tree::{Cursor, ParseError, Stmt, Variable};
use std::alloc::Global;

/// A list with one element.
fn only(alloc: Global, x: Variable) -> Result<Items<Variable>, NoMemory>
    ensures { IfOk result (λ all. all ≡ x ∷ []) }
{
    let mut all = Items::new(alloc);
    all.push(x)?;
    Ok(all)
}

impl<'t> Context<'t> {
    /// A declarator, with the value that it starts with or without one.
    #[tactic(auto, unfolding(crate::specs::Parse::variable))]
    fn variable(&self, tokens: &mut Cursor<'_>) -> Result<(Variable, u32), ParseError>
        requires turns { self.now.turns < 2 ^ 32 }
        requires depth { self.now.depth < 999 }
        ensures reads { Reads (spec.variable (leaves_of self.now.text.now) self.now.types.now self.now.turns self.now.depth tokens.old) result tokens.new }
        ensures low { IfOk result (λ x. x.1 ≤ self.now.depth) }
    {
        let (dcl, height) = dcl_within(
            self.alloc, self.text, self.types, self.turns, self.depth, tokens,
        )?;
        if !tokens.next_is(TokenKind::Equal) {
            return Ok((Variable { dcl, value: None }, height));
        }
        tokens.take_if(0 < self.depth)?;
        let (value, high) = self.assignment(tokens)?;
        let variable = Variable {
            dcl,
            value: Some(value),
        };
        Ok((variable, height.max(high)))
    }

    /// More declarators, with a comma before each.
    fn variables_from(
        &self,
        mut found: Items<Variable>,
        mut height: u32,
        tokens: &mut Cursor<'_>,
    ) -> Result<(Items<Variable>, u32), ParseError>
        requires turns { self.now.turns < 2 ^ 32 }
        requires depth { self.now.depth < 999 }
        requires height { height ≤ self.now.depth }
        ensures reads { Reads (spec.variables_from (leaves_of self.now.text.now) self.now.types.now self.now.turns self.now.depth self.now.turns found height tokens.old) result tokens.new }
        ensures low { IfOk result (λ x. x.1 ≤ self.now.depth) }
    {
        for _turn in 0..self.turns {
            if !tokens.next_is(TokenKind::Comma) {
                return Ok((found, height));
            }
            tokens.take_if(true)?;
            let x = self.variable(tokens)?;
            found.push(x.0)?;
            height = height.max(x.1);
        }
        Err(tokens.refuse())
    }

    /// The declarators behind a base type that begins at that place, and the semicolon.
    #[tactic(auto, unfolding(crate::specs::Parse::declared))]
    pub(crate) fn declared(
        &self,
        at: Place,
        x: ReadBase,
        tokens: &mut Cursor<'_>,
    ) -> Result<ReadStmt, ParseError>
        requires turns { self.now.turns < 2 ^ 32 }
        requires depth { self.now.depth < 999 }
        requires height { x.height ≤ self.now.depth }
        ensures reads { Reads (spec.declared (leaves_of self.now.text.now) self.now.types.now self.now.turns self.now.depth at x tokens.old) result tokens.new }
        ensures low { IfOk result (λ y. y.height ≤ self.now.depth + 1) }
    {
        let y = self.variable(tokens)?;
        let found = only(self.alloc, y.0)?;
        let (variables, high) = self.variables_from(found, y.1, tokens)?;
        tokens.expect(TokenKind::Semicolon)?;
        let height = x.height.max(high) + 1;
        let base = x.tree;
        let tree = Stmt::Declare {
            at,
            base,
            variables,
        };
        Ok(ended(tree, height))
    }

    #[tactic(auto, unfolding(crate::specs::Parse::declaration))]
    pub(crate) fn declaration(&self, tokens: &mut Cursor<'_>) -> Result<ReadStmt, ParseError>
        requires turns { self.now.turns < 2 ^ 32 }
        requires depth { self.now.depth < 999 }
        ensures reads { Reads (spec.declaration (leaves_of self.now.text.now) self.now.types.now self.now.turns self.now.depth tokens.old) result tokens.new }
        ensures low { IfOk result (λ y. y.height ≤ self.now.depth + 1) }
    {
        let at = tokens.here();
        let x = base_within(
            self.alloc, self.text, self.types, self.turns, self.depth, tokens,
        )?;
        self.declared(at, x, tokens)
    }
}
