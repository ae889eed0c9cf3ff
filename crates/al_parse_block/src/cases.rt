//! The cases of `switch` and `alt`.
ghost use Rattle.std.specs.Prelude.{◌≡◌, ◌+◌, ◌<◌, ◌≤◌, ◌^◌, ℕ, max, [], ◌∷◌, ◌++◌, IfOk, OnOk};
ghost use Rattle.al_tree.specs.Leaves.{leaves_of};
ghost use Rattle.al_tree.specs.Reading.{Reads};
ghost use Rattle.al_parse_block.specs.Parse as spec;
ghost use Rattle.al_parse_block.specs.Nests.{Nests};

use crate::part::{ReadStmt, Want};
use crate::rules::Rules;
use crate::words::begins_case;
use al_base::NoMemory;
use al_items::Items;
use al_lex::TokenKind;
use al_tree::{Cursor, ParseError, Stmt, TypeNames, same_kind};
use std::alloc::Global;

/// A case's label before its statements.
fn label_before(alloc: Global, label: Stmt, body: Items<Stmt>) -> Result<Items<Stmt>, NoMemory>
    ensures { IfOk result (λ all. all ≡ label ∷ body) }
{
    let mut all = Items::new(alloc);
    all.push(label)?;
    all.append(body)?;
    Ok(all)
}

impl<
    't,
    F: Fn(
        Global,
        &[u8],
        &TypeNames,
        usize,
        u32,
        &mut Cursor<'_>,
        Want,
    ) -> Result<ReadStmt, ParseError>,
> Rules<'t, F> {
    /// A label `case` and the statements behind it.
    #[tactic(auto, unfolding(crate::specs::Parse::one_case))]
    fn one_case(&self, tokens: &mut Cursor<'_>) -> Result<(Items<Stmt>, u32), ParseError>
        requires nests { Nests self.now.context.turns self.now.context.depth (F.pre self.now.nested) (F.post self.now.nested) }
        requires turns { self.now.context.turns < 2 ^ 32 }
        requires depth { self.now.context.depth < 999 }
        ensures reads { Reads (spec.one_case (leaves_of self.now.context.text.now) self.now.context.types.now self.now.context.turns self.now.context.depth (spec.within (leaves_of self.now.context.text.now) self.now.context.types.now self.now.context.turns self.now.context.depth) tokens.old) result tokens.new }
        ensures low { IfOk result (λ y. y.1 ≤ self.now.context.depth) }
    {
        let w = tokens.take_if(0 < self.context.depth)?;
        let (value, low) = self.context.assignment(tokens)?;
        tokens.expect(TokenKind::Colon)?;
        let found = Items::new(self.context.alloc);
        let (body, high) = self.body_from(found, 0, tokens)?;
        let label = Stmt::Case { at: w.place, value };
        let all = label_before(self.context.alloc, label, body)?;
        Ok((all, low.max(high)))
    }

    /// The label `default` and the statements behind it.
    #[tactic(auto, unfolding(crate::specs::Parse::default_case))]
    fn default_case(&self, tokens: &mut Cursor<'_>) -> Result<(Items<Stmt>, u32), ParseError>
        requires nests { Nests self.now.context.turns self.now.context.depth (F.pre self.now.nested) (F.post self.now.nested) }
        requires turns { self.now.context.turns < 2 ^ 32 }
        requires depth { self.now.context.depth < 999 }
        ensures reads { Reads (spec.default_case (leaves_of self.now.context.text.now) self.now.context.types.now self.now.context.turns self.now.context.depth (spec.within (leaves_of self.now.context.text.now) self.now.context.types.now self.now.context.turns self.now.context.depth) tokens.old) result tokens.new }
        ensures low { IfOk result (λ y. y.1 ≤ self.now.context.depth) }
    {
        let w = tokens.take_if(true)?;
        tokens.expect(TokenKind::Colon)?;
        let found = Items::new(self.context.alloc);
        let (body, height) = self.body_from(found, 0, tokens)?;
        let label = Stmt::Default { at: w.place };
        let all = label_before(self.context.alloc, label, body)?;
        Ok((all, height))
    }

    fn case_by(
        &self,
        next: TokenKind,
        tokens: &mut Cursor<'_>,
    ) -> Result<(Items<Stmt>, u32), ParseError>
        requires nests { Nests self.now.context.turns self.now.context.depth (F.pre self.now.nested) (F.post self.now.nested) }
        requires turns { self.now.context.turns < 2 ^ 32 }
        requires depth { self.now.context.depth < 999 }
        ensures reads { Reads (spec.case_by (leaves_of self.now.context.text.now) self.now.context.types.now self.now.context.turns self.now.context.depth (spec.within (leaves_of self.now.context.text.now) self.now.context.types.now self.now.context.turns self.now.context.depth) next tokens.old) result tokens.new }
        ensures low { IfOk result (λ y. y.1 ≤ self.now.context.depth) }
    {
        if same_kind(next, TokenKind::Case) {
            self.one_case(tokens)
        } else {
            self.default_case(tokens)
        }
    }

    /// Cases, behind those that were found.
    fn cases_from(
        &self,
        with_default: bool,
        mut found: Items<Stmt>,
        mut height: u32,
        tokens: &mut Cursor<'_>,
    ) -> Result<(Items<Stmt>, u32), ParseError>
        requires nests { Nests self.now.context.turns self.now.context.depth (F.pre self.now.nested) (F.post self.now.nested) }
        requires turns { self.now.context.turns < 2 ^ 32 }
        requires depth { self.now.context.depth < 999 }
        requires height { height ≤ self.now.context.depth }
        ensures reads { Reads (spec.cases_from (leaves_of self.now.context.text.now) self.now.context.types.now self.now.context.turns self.now.context.depth (spec.within (leaves_of self.now.context.text.now) self.now.context.types.now self.now.context.turns self.now.context.depth) with_default self.now.context.turns found height tokens.old) result tokens.new }
        ensures low { IfOk result (λ y. y.1 ≤ self.now.context.depth) }
    {
        for _turn in 0..self.context.turns {
            let next = tokens.peek();
            if !begins_case(with_default, next) {
                return Ok((found, height));
            }
            let x = self.case_by(next, tokens)?;
            found.append(x.0)?;
            height = height.max(x.1);
        }
        Err(tokens.refuse())
    }

    /// Cases in braces.
    #[tactic(auto, unfolding(crate::specs::Parse::braced_cases))]
    pub(crate) fn braced_cases(
        &self,
        with_default: bool,
        tokens: &mut Cursor<'_>,
    ) -> Result<(Items<Stmt>, u32), ParseError>
        requires nests { Nests self.now.context.turns self.now.context.depth (F.pre self.now.nested) (F.post self.now.nested) }
        requires turns { self.now.context.turns < 2 ^ 32 }
        requires depth { self.now.context.depth < 999 }
        ensures reads { Reads (spec.braced_cases (leaves_of self.now.context.text.now) self.now.context.types.now self.now.context.turns self.now.context.depth (spec.within (leaves_of self.now.context.text.now) self.now.context.types.now self.now.context.turns self.now.context.depth) with_default tokens.old) result tokens.new }
        ensures low { IfOk result (λ y. y.1 ≤ self.now.context.depth) }
    {
        tokens.expect(TokenKind::LeftBrace)?;
        let found = Items::new(self.context.alloc);
        let x = self.cases_from(with_default, found, 0, tokens)?;
        tokens.expect(TokenKind::RightBrace)?;
        Ok(x)
    }
}
