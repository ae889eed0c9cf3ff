//! Statements with statements in them. What stands inside a statement is parsed by a function that is passed in, so that
//! each rule is proved by itself.
ghost use Rattle.std.specs.Prelude.{◌≡◌, ◌+◌, ◌<◌, ◌≤◌, ◌^◌, ℕ, max, Some, None, IfOk, OnOk};
ghost use Rattle.al_tree.specs.Leaves.{leaves_of};
ghost use Rattle.al_tree.specs.Reading.{Reads};
ghost use Rattle.al_parse_block.specs.Parse as spec;
ghost use Rattle.al_parse_block.specs.Nests.{Nests};

use crate::begun::begun;
use crate::context::{Context, below, ended};
use crate::part::{Begun, ReadStmt, Want};
use al_base::{NoMemory, Place};
use al_items::{Boxed, Items};
use al_lex::{Token, TokenKind};
use al_parse_type::{sees_other_name, sees_type};
use al_tree::{Cursor, Expr, ParseError, Stmt, TypeNames};
use std::alloc::Global;

/// An `if` without `else` at that place, with its height.
fn if_alone(alloc: Global, at: Place, x: (Expr, u32), y: ReadStmt) -> Result<ReadStmt, NoMemory>
    requires x { x.1 < 1000 }
    requires y { y.height < 1000 }
    ensures { IfOk result (λ s. s ≡ spec.choice_of at x y None) }
{
    let height = x.1.max(y.height) + 1;
    let then = Boxed::new(alloc, y.tree)?;
    let tree = Stmt::If {
        at,
        condition: x.0,
        then,
        other: None,
    };
    Ok(ReadStmt {
        tree,
        height,
        dangles: true,
    })
}

/// An `if` with `else` at that place, with its height.
fn if_else(
    alloc: Global,
    at: Place,
    x: (Expr, u32),
    y: ReadStmt,
    z: ReadStmt,
) -> Result<ReadStmt, NoMemory>
    requires x { x.1 < 1000 }
    requires y { y.height < 1000 }
    requires z { z.height < 1000 }
    ensures { IfOk result (λ s. s ≡ spec.choice_of at x y (Some z)) }
{
    let height = x.1.max(y.height.max(z.height)) + 1;
    let then = Boxed::new(alloc, y.tree)?;
    let other = Boxed::new(alloc, z.tree)?;
    let tree = Stmt::If {
        at,
        condition: x.0,
        then,
        other: Some(other),
    };
    Ok(ReadStmt {
        tree,
        height,
        dangles: z.dangles,
    })
}

/// A `for` at that place, with its height.
fn for_of(
    alloc: Global,
    at: Place,
    x: (Option<Expr>, u32),
    y: (Option<Expr>, u32),
    z: (Option<Expr>, u32),
    b: ReadStmt,
) -> Result<ReadStmt, NoMemory>
    requires x { x.1 < 1000 }
    requires y { y.1 < 1000 }
    requires z { z.1 < 1000 }
    requires b { b.height < 1000 }
    ensures { IfOk result (λ s. s ≡ spec.for_of at x y z b) }
{
    let height = x.1.max(y.1).max(z.1.max(b.height)) + 1;
    let body = Boxed::new(alloc, b.tree)?;
    let tree = Stmt::For {
        at,
        start: x.0,
        condition: y.0,
        step: z.0,
        body,
    };
    Ok(ReadStmt {
        tree,
        height,
        dangles: b.dangles,
    })
}

/// The rules of statements of at most `depth + 1` levels.
#[derive(Clone, Copy)]
pub(crate) struct Rules<'t, F> {
    pub(crate) context: Context<'t>,
    pub(crate) nested: F,
}

impl<
    't,
    F: Fn(
        Global,
        &[u8],
        &TypeNames,
        usize,
        u32,
        &mut Cursor<'_>,
        Want,
    ) -> Result<ReadStmt, ParseError>,
> Rules<'t, F> {
    pub(crate) fn sub(&self, want: Want, tokens: &mut Cursor<'_>) -> Result<ReadStmt, ParseError>
        requires nests { Nests self.now.context.turns self.now.context.depth (F.pre self.now.nested) (F.post self.now.nested) }
        requires turns { self.now.context.turns < 2 ^ 32 }
        requires depth { self.now.context.depth < 999 }
        ensures reads { Reads (spec.within (leaves_of self.now.context.text.now) self.now.context.types.now self.now.context.turns self.now.context.depth want tokens.old) result tokens.new }
        ensures low { IfOk result (λ y. y.height ≤ self.now.context.depth) }
    {
        let context = &self.context;
        (self.nested)(
            context.alloc,
            context.text,
            context.types,
            context.turns,
            context.depth,
            tokens,
            want,
        )
    }

    /// What stands behind the statement of an `if`.
    #[tactic(auto, unfolding(crate::specs::Parse::otherwise))]
    fn otherwise(
        &self,
        at: Place,
        x: (Expr, u32),
        y: ReadStmt,
        tokens: &mut Cursor<'_>,
    ) -> Result<ReadStmt, ParseError>
        requires nests { Nests self.now.context.turns self.now.context.depth (F.pre self.now.nested) (F.post self.now.nested) }
        requires turns { self.now.context.turns < 2 ^ 32 }
        requires depth { self.now.context.depth < 999 }
        requires condition { x.1 ≤ self.now.context.depth }
        requires then { y.height ≤ self.now.context.depth }
        ensures reads { Reads (spec.otherwise (leaves_of self.now.context.text.now) self.now.context.types.now self.now.context.turns self.now.context.depth (spec.within (leaves_of self.now.context.text.now) self.now.context.types.now self.now.context.turns self.now.context.depth) at x y tokens.old) result tokens.new }
        ensures low { IfOk result (λ y. y.height ≤ self.now.context.depth + 1) }
    {
        if tokens.next_is(TokenKind::Else) && !y.dangles {
            tokens.take_if(true)?;
            let z = self.sub(Want::Statement, tokens)?;
            return Ok(if_else(self.context.alloc, at, x, y, z)?);
        }
        Ok(if_alone(self.context.alloc, at, x, y)?)
    }

    #[tactic(auto, unfolding(crate::specs::Parse::choice))]
    fn choice(&self, tokens: &mut Cursor<'_>) -> Result<ReadStmt, ParseError>
        requires nests { Nests self.now.context.turns self.now.context.depth (F.pre self.now.nested) (F.post self.now.nested) }
        requires turns { self.now.context.turns < 2 ^ 32 }
        requires depth { self.now.context.depth < 999 }
        ensures reads { Reads (spec.choice (leaves_of self.now.context.text.now) self.now.context.types.now self.now.context.turns self.now.context.depth (spec.within (leaves_of self.now.context.text.now) self.now.context.types.now self.now.context.turns self.now.context.depth) tokens.old) result tokens.new }
        ensures low { IfOk result (λ y. y.height ≤ self.now.context.depth + 1) }
    {
        let w = tokens.take_if(0 < self.context.depth)?;
        let x = self.context.condition(tokens)?;
        let y = self.sub(Want::Statement, tokens)?;
        self.otherwise(w.place, x, y, tokens)
    }

    #[tactic(auto, unfolding(crate::specs::Parse::while_loop))]
    fn while_loop(&self, tokens: &mut Cursor<'_>) -> Result<ReadStmt, ParseError>
        requires nests { Nests self.now.context.turns self.now.context.depth (F.pre self.now.nested) (F.post self.now.nested) }
        requires turns { self.now.context.turns < 2 ^ 32 }
        requires depth { self.now.context.depth < 999 }
        ensures reads { Reads (spec.while_loop (leaves_of self.now.context.text.now) self.now.context.types.now self.now.context.turns self.now.context.depth (spec.within (leaves_of self.now.context.text.now) self.now.context.types.now self.now.context.turns self.now.context.depth) tokens.old) result tokens.new }
        ensures low { IfOk result (λ y. y.height ≤ self.now.context.depth + 1) }
    {
        let w = tokens.take_if(0 < self.context.depth)?;
        let x = self.context.condition(tokens)?;
        let y = self.sub(Want::Statement, tokens)?;
        Ok(ReadStmt {
            tree: Stmt::While {
                at: w.place,
                condition: x.0,
                body: Boxed::new(self.context.alloc, y.tree)?,
            },
            height: x.1.max(y.height) + 1,
            dangles: y.dangles,
        })
    }

    #[tactic(auto, unfolding(crate::specs::Parse::do_loop))]
    fn do_loop(&self, tokens: &mut Cursor<'_>) -> Result<ReadStmt, ParseError>
        requires nests { Nests self.now.context.turns self.now.context.depth (F.pre self.now.nested) (F.post self.now.nested) }
        requires turns { self.now.context.turns < 2 ^ 32 }
        requires depth { self.now.context.depth < 999 }
        ensures reads { Reads (spec.do_loop (leaves_of self.now.context.text.now) self.now.context.types.now self.now.context.turns self.now.context.depth (spec.within (leaves_of self.now.context.text.now) self.now.context.types.now self.now.context.turns self.now.context.depth) tokens.old) result tokens.new }
        ensures low { IfOk result (λ y. y.height ≤ self.now.context.depth + 1) }
    {
        let w = tokens.take_if(0 < self.context.depth)?;
        let x = self.sub(Want::Statement, tokens)?;
        tokens.expect(TokenKind::While)?;
        let y = self.context.condition(tokens)?;
        tokens.expect(TokenKind::Semicolon)?;
        let height = x.height.max(y.1) + 1;
        let tree = Stmt::Do {
            at: w.place,
            body: Boxed::new(self.context.alloc, x.tree)?,
            condition: y.0,
        };
        Ok(ended(tree, height))
    }

    /// The statement of a `for`, behind what stands in its parentheses.
    #[tactic(auto, unfolding(crate::specs::Parse::for_body))]
    fn for_body(
        &self,
        at: Place,
        x: (Option<Expr>, u32),
        y: (Option<Expr>, u32),
        z: (Option<Expr>, u32),
        tokens: &mut Cursor<'_>,
    ) -> Result<ReadStmt, ParseError>
        requires nests { Nests self.now.context.turns self.now.context.depth (F.pre self.now.nested) (F.post self.now.nested) }
        requires turns { self.now.context.turns < 2 ^ 32 }
        requires depth { self.now.context.depth < 999 }
        requires start { x.1 ≤ self.now.context.depth }
        requires condition { y.1 ≤ self.now.context.depth }
        requires step { z.1 ≤ self.now.context.depth }
        ensures reads { Reads (spec.for_body (leaves_of self.now.context.text.now) self.now.context.types.now self.now.context.turns self.now.context.depth (spec.within (leaves_of self.now.context.text.now) self.now.context.types.now self.now.context.turns self.now.context.depth) at x y z tokens.old) result tokens.new }
        ensures low { IfOk result (λ y. y.height ≤ self.now.context.depth + 1) }
    {
        let b = self.sub(Want::Statement, tokens)?;
        Ok(for_of(self.context.alloc, at, x, y, z, b)?)
    }

    #[tactic(auto, unfolding(crate::specs::Parse::for_loop))]
    fn for_loop(&self, tokens: &mut Cursor<'_>) -> Result<ReadStmt, ParseError>
        requires nests { Nests self.now.context.turns self.now.context.depth (F.pre self.now.nested) (F.post self.now.nested) }
        requires turns { self.now.context.turns < 2 ^ 32 }
        requires depth { self.now.context.depth < 999 }
        ensures reads { Reads (spec.for_loop (leaves_of self.now.context.text.now) self.now.context.types.now self.now.context.turns self.now.context.depth (spec.within (leaves_of self.now.context.text.now) self.now.context.types.now self.now.context.turns self.now.context.depth) tokens.old) result tokens.new }
        ensures low { IfOk result (λ y. y.height ≤ self.now.context.depth + 1) }
    {
        let w = tokens.take_if(0 < self.context.depth)?;
        tokens.expect(TokenKind::LeftParen)?;
        let x = self.context.optional(TokenKind::Semicolon, tokens)?;
        let y = self.context.optional(TokenKind::Semicolon, tokens)?;
        let z = self.context.optional(TokenKind::RightParen, tokens)?;
        self.for_body(w.place, x, y, z, tokens)
    }

    /// The colon behind a label, and its statement.
    #[tactic(auto, unfolding(crate::specs::Parse::labelled))]
    fn labelled(&self, t: Token, tokens: &mut Cursor<'_>) -> Result<ReadStmt, ParseError>
        requires nests { Nests self.now.context.turns self.now.context.depth (F.pre self.now.nested) (F.post self.now.nested) }
        requires turns { self.now.context.turns < 2 ^ 32 }
        requires depth { self.now.context.depth < 999 }
        ensures reads { Reads (spec.labelled (leaves_of self.now.context.text.now) self.now.context.types.now self.now.context.turns self.now.context.depth (spec.within (leaves_of self.now.context.text.now) self.now.context.types.now self.now.context.turns self.now.context.depth) t tokens.old) result tokens.new }
        ensures low { IfOk result (λ y. y.height ≤ self.now.context.depth + 1) }
    {
        tokens.take_if(true)?;
        let x = self.sub(Want::Statement, tokens)?;
        Ok(ReadStmt {
            tree: Stmt::Label {
                at: t.place,
                name: t.name,
                body: Boxed::new(self.context.alloc, x.tree)?,
            },
            height: x.height + 1,
            dangles: x.dangles,
        })
    }

    /// A statement that begins with a name that is no type's.
    #[tactic(auto, unfolding(crate::specs::Parse::named))]
    fn named(&self, tokens: &mut Cursor<'_>) -> Result<ReadStmt, ParseError>
        requires nests { Nests self.now.context.turns self.now.context.depth (F.pre self.now.nested) (F.post self.now.nested) }
        requires turns { self.now.context.turns < 2 ^ 32 }
        requires depth { self.now.context.depth < 999 }
        ensures reads { Reads (spec.named (leaves_of self.now.context.text.now) self.now.context.types.now self.now.context.turns self.now.context.depth (spec.within (leaves_of self.now.context.text.now) self.now.context.types.now self.now.context.turns self.now.context.depth) tokens.old) result tokens.new }
        ensures low { IfOk result (λ y. y.height ≤ self.now.context.depth + 1) }
    {
        let t = tokens.take_if(0 < self.context.depth)?;
        if tokens.next_is(TokenKind::Colon) {
            self.labelled(t, tokens)
        } else {
            self.context.value_named(t, tokens)
        }
    }

    #[tactic(auto, unfolding(crate::specs::Parse::switch))]
    fn switch(&self, tokens: &mut Cursor<'_>) -> Result<ReadStmt, ParseError>
        requires nests { Nests self.now.context.turns self.now.context.depth (F.pre self.now.nested) (F.post self.now.nested) }
        requires turns { self.now.context.turns < 2 ^ 32 }
        requires depth { self.now.context.depth < 999 }
        ensures reads { Reads (spec.switch (leaves_of self.now.context.text.now) self.now.context.types.now self.now.context.turns self.now.context.depth (spec.within (leaves_of self.now.context.text.now) self.now.context.types.now self.now.context.turns self.now.context.depth) tokens.old) result tokens.new }
        ensures low { IfOk result (λ y. y.height ≤ self.now.context.depth + 1) }
    {
        let w = tokens.take_if(0 < self.context.depth)?;
        let (value, low) = self.context.condition(tokens)?;
        let (body, high) = self.braced_cases(true, tokens)?;
        let tree = Stmt::Switch {
            at: w.place,
            value,
            body,
        };
        Ok(ended(tree, low.max(high) + 1))
    }

    #[tactic(auto, unfolding(crate::specs::Parse::alt))]
    fn alt(&self, tokens: &mut Cursor<'_>) -> Result<ReadStmt, ParseError>
        requires nests { Nests self.now.context.turns self.now.context.depth (F.pre self.now.nested) (F.post self.now.nested) }
        requires turns { self.now.context.turns < 2 ^ 32 }
        requires depth { self.now.context.depth < 999 }
        ensures reads { Reads (spec.alt (leaves_of self.now.context.text.now) self.now.context.types.now self.now.context.turns self.now.context.depth (spec.within (leaves_of self.now.context.text.now) self.now.context.types.now self.now.context.turns self.now.context.depth) tokens.old) result tokens.new }
        ensures low { IfOk result (λ y. y.height ≤ self.now.context.depth + 1) }
    {
        let w = tokens.take_if(true)?;
        let (body, height) = self.braced_cases(false, tokens)?;
        Ok(ended(Stmt::Alt { at: w.place, body }, height + 1))
    }

    #[tactic(auto, unfolding(crate::specs::Parse::par))]
    fn par(&self, tokens: &mut Cursor<'_>) -> Result<ReadStmt, ParseError>
        requires nests { Nests self.now.context.turns self.now.context.depth (F.pre self.now.nested) (F.post self.now.nested) }
        requires turns { self.now.context.turns < 2 ^ 32 }
        requires depth { self.now.context.depth < 999 }
        ensures reads { Reads (spec.par (leaves_of self.now.context.text.now) self.now.context.types.now self.now.context.turns self.now.context.depth (spec.within (leaves_of self.now.context.text.now) self.now.context.types.now self.now.context.turns self.now.context.depth) tokens.old) result tokens.new }
        ensures low { IfOk result (λ y. y.height ≤ self.now.context.depth + 1) }
    {
        let w = tokens.take_if(true)?;
        tokens.expect(TokenKind::LeftBrace)?;
        let found = Items::new(self.context.alloc);
        let (branches, height) = self.branches_from(found, 0, tokens)?;
        tokens.expect(TokenKind::RightBrace)?;
        let tree = Stmt::Par {
            at: w.place,
            branches,
        };
        Ok(ended(tree, height + 1))
    }

    #[tactic(auto, unfolding(crate::specs::Parse::rescue))]
    fn rescue(&self, tokens: &mut Cursor<'_>) -> Result<ReadStmt, ParseError>
        requires nests { Nests self.now.context.turns self.now.context.depth (F.pre self.now.nested) (F.post self.now.nested) }
        requires turns { self.now.context.turns < 2 ^ 32 }
        requires depth { self.now.context.depth < 999 }
        ensures reads { Reads (spec.rescue (leaves_of self.now.context.text.now) self.now.context.types.now self.now.context.turns self.now.context.depth (spec.within (leaves_of self.now.context.text.now) self.now.context.types.now self.now.context.turns self.now.context.depth) tokens.old) result tokens.new }
        ensures low { IfOk result (λ y. y.height ≤ self.now.context.depth + 1) }
    {
        let w = tokens.take_if(0 < self.context.depth)?;
        let name = self.context.optional_name(tokens)?;
        let x = self.sub(Want::Block, tokens)?;
        let height = x.height + 1;
        let tree = Stmt::Rescue {
            at: w.place,
            name,
            body: Boxed::new(self.context.alloc, x.tree)?,
        };
        Ok(ended(tree, height))
    }

    /// A statement that begins with no name, by the kind of the next token.
    fn statement_by(&self, next: TokenKind, tokens: &mut Cursor<'_>) -> Result<ReadStmt, ParseError>
        requires nests { Nests self.now.context.turns self.now.context.depth (F.pre self.now.nested) (F.post self.now.nested) }
        requires turns { self.now.context.turns < 2 ^ 32 }
        requires depth { self.now.context.depth < 999 }
        ensures reads { Reads (spec.statement_by (leaves_of self.now.context.text.now) self.now.context.types.now self.now.context.turns self.now.context.depth (spec.within (leaves_of self.now.context.text.now) self.now.context.types.now self.now.context.turns self.now.context.depth) next tokens.old) result tokens.new }
        ensures low { IfOk result (λ y. y.height ≤ self.now.context.depth + 1) }
    {
        match next {
            TokenKind::LeftBrace => self.block(tokens),
            TokenKind::If => self.choice(tokens),
            TokenKind::While => self.while_loop(tokens),
            TokenKind::Do => self.do_loop(tokens),
            TokenKind::For => self.for_loop(tokens),
            TokenKind::Switch => self.switch(tokens),
            TokenKind::Alt => self.alt(tokens),
            TokenKind::Par => self.par(tokens),
            TokenKind::Rescue => self.rescue(tokens),
            _ => self.context.simple(next, tokens),
        }
    }

    #[tactic(auto, unfolding(crate::specs::Parse::statement))]
    fn statement(&self, tokens: &mut Cursor<'_>) -> Result<ReadStmt, ParseError>
        requires nests { Nests self.now.context.turns self.now.context.depth (F.pre self.now.nested) (F.post self.now.nested) }
        requires turns { self.now.context.turns < 2 ^ 32 }
        requires depth { self.now.context.depth < 999 }
        ensures reads { Reads (spec.statement (leaves_of self.now.context.text.now) self.now.context.types.now self.now.context.turns self.now.context.depth (spec.within (leaves_of self.now.context.text.now) self.now.context.types.now self.now.context.turns self.now.context.depth) tokens.old) result tokens.new }
        ensures low { IfOk result (λ y. y.height ≤ self.now.context.depth + 1) }
    {
        if sees_other_name(self.context.types, tokens) {
            self.named(tokens)
        } else {
            let next = tokens.peek();
            self.statement_by(next, tokens)
        }
    }

    /// A statement or a declaration that begins with a parenthesis, behind it and what was read there.
    fn opened_by(
        &self,
        o: Token,
        read: (Begun, u32),
        tokens: &mut Cursor<'_>,
    ) -> Result<ReadStmt, ParseError>
        requires nests { Nests self.now.context.turns self.now.context.depth (F.pre self.now.nested) (F.post self.now.nested) }
        requires turns { self.now.context.turns < 2 ^ 32 }
        requires depth { self.now.context.depth < 999 }
        requires height { read.1 < self.now.context.depth }
        ensures reads { Reads (spec.opened_by (leaves_of self.now.context.text.now) self.now.context.types.now self.now.context.turns self.now.context.depth (spec.within (leaves_of self.now.context.text.now) self.now.context.types.now self.now.context.turns self.now.context.depth) o read tokens.old) result tokens.new }
        ensures low { IfOk result (λ y. y.height ≤ self.now.context.depth + 1) }
    {
        let (part, height) = read;
        match part {
            Begun::Type(x, castable) => {
                if castable && tokens.next_is(TokenKind::RightParen) {
                    let y = self.context.cast_begun(o, (x, height), tokens)?;
                    return self.context.value_behind(o.place, y, tokens);
                }
                let b = self.context.tuple_begun(o, (x, height), tokens)?;
                self.context.declared(o.place, b, tokens)
            }
            Begun::Value(x) => {
                let y = self.context.paren_begun(o, (x, height), tokens)?;
                self.context.value_behind(o.place, y, tokens)
            }
        }
    }

    #[tactic(auto, unfolding(crate::specs::Parse::opened))]
    fn opened(&self, tokens: &mut Cursor<'_>) -> Result<ReadStmt, ParseError>
        requires nests { Nests self.now.context.turns self.now.context.depth (F.pre self.now.nested) (F.post self.now.nested) }
        requires turns { self.now.context.turns < 2 ^ 32 }
        requires depth { self.now.context.depth < 999 }
        ensures reads { Reads (spec.opened (leaves_of self.now.context.text.now) self.now.context.types.now self.now.context.turns self.now.context.depth (spec.within (leaves_of self.now.context.text.now) self.now.context.types.now self.now.context.turns self.now.context.depth) tokens.old) result tokens.new }
        ensures low { IfOk result (λ y. y.height ≤ self.now.context.depth + 1) }
    {
        let context = &self.context;
        let o = tokens.take_if(0 < context.depth)?;
        let depth = below(context.depth);
        let x = begun(
            context.alloc,
            context.text,
            context.types,
            context.turns,
            depth,
            tokens,
        )?;
        self.opened_by(o, x, tokens)
    }

    #[tactic(auto, unfolding(crate::specs::Parse::in_block))]
    fn in_block(&self, tokens: &mut Cursor<'_>) -> Result<ReadStmt, ParseError>
        requires nests { Nests self.now.context.turns self.now.context.depth (F.pre self.now.nested) (F.post self.now.nested) }
        requires turns { self.now.context.turns < 2 ^ 32 }
        requires depth { self.now.context.depth < 999 }
        ensures reads { Reads (spec.in_block (leaves_of self.now.context.text.now) self.now.context.types.now self.now.context.turns self.now.context.depth (spec.within (leaves_of self.now.context.text.now) self.now.context.types.now self.now.context.turns self.now.context.depth) tokens.old) result tokens.new }
        ensures low { IfOk result (λ y. y.height ≤ self.now.context.depth + 1) }
    {
        if sees_type(self.context.types, tokens) {
            self.context.declaration(tokens)
        } else if tokens.next_is(TokenKind::LeftParen) {
            self.opened(tokens)
        } else {
            self.statement(tokens)
        }
    }

    fn at_want(&self, want: Want, tokens: &mut Cursor<'_>) -> Result<ReadStmt, ParseError>
        requires nests { Nests self.now.context.turns self.now.context.depth (F.pre self.now.nested) (F.post self.now.nested) }
        requires turns { self.now.context.turns < 2 ^ 32 }
        requires depth { self.now.context.depth < 999 }
        ensures reads { Reads (spec.at_want (leaves_of self.now.context.text.now) self.now.context.types.now self.now.context.turns self.now.context.depth (spec.within (leaves_of self.now.context.text.now) self.now.context.types.now self.now.context.turns self.now.context.depth) want tokens.old) result tokens.new }
        ensures low { IfOk result (λ y. y.height ≤ self.now.context.depth + 1) }
    {
        match want {
            Want::Statement => self.statement(tokens),
            Want::Inner => self.in_block(tokens),
            Want::Block => self.block(tokens),
        }
    }
}

/// What is wanted, with at most `depth` levels.
pub(crate) fn within(
    alloc: Global,
    text: &[u8],
    types: &TypeNames,
    turns: usize,
    depth: u32,
    tokens: &mut Cursor<'_>,
    want: Want,
) -> Result<ReadStmt, ParseError>
    requires turns { turns < 2 ^ 32 }
    requires depth { depth < 999 }
    ensures reads { Reads (spec.within (leaves_of text.now) types.now turns depth want tokens.old) result tokens.new }
    ensures low { IfOk result (λ y. y.height ≤ depth) }
{
    if depth == 0 {
        return Err(ParseError::Deep(0));
    }
    let context = Context {
        alloc,
        text,
        types,
        turns,
        depth: depth - 1,
    };
    let rules = Rules {
        context,
        nested: within,
    };
    rules.at_want(want, tokens)
}

/// A block with at most `depth` levels, with its height.
#[tactic(auto, unfolding(crate::specs::Parse::block_within))]
pub fn block_within(
    alloc: Global,
    text: &[u8],
    types: &TypeNames,
    turns: usize,
    depth: u32,
    tokens: &mut Cursor<'_>,
) -> Result<(Stmt, u32), ParseError>
    requires turns { turns < 2 ^ 32 }
    requires depth { depth < 999 }
    requires some { 0 < depth }
    ensures reads { Reads (spec.block_within (leaves_of text.now) types.now turns depth tokens.old) result tokens.new }
    ensures low { IfOk result (λ x. x.1 ≤ depth) }
{
    let x = within(alloc, text, types, turns, depth, tokens, Want::Block)?;
    Ok((x.tree, x.height))
}
