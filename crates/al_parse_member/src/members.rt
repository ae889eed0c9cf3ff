//! Members of types. What stands inside a member is parsed by a function that is passed in, so that each rule is proved by itself.
ghost use Rattle.std.specs.Prelude.{◌≡◌, ◌+◌, ◌-◌, ◌<◌, ◌≤◌, ◌^◌, ℕ, max, [], ◌∷◌, ◌++◌, Some, None, IfOk, OnOk};
ghost use Rattle.al_tree.specs.Leaves.{leaves_of};
ghost use Rattle.al_tree.specs.Reading.{Reads};
ghost use Rattle.al_tree.specs.Words as words;
ghost use Rattle.al_parse_type.specs.Parse as type_spec;
ghost use Rattle.al_parse_member.specs.Members as spec;
ghost use Rattle.al_parse_member.specs.Nests.{MemberNests};

use crate::context::{Context, name_at, open_brace};
use al_base::{NoMemory, Place};
use al_items::Items;
use al_lex::{Token, TokenKind};
use al_parse_type::{
    ReadBase, base_within, bounds_from, dcl_within, other_name, sees_type, sees_type_name,
    stars_from,
};
use al_tree::{
    AdtMember, AdtPart, AggregateKind, Cursor, Dcl, Member, ParseError, Scope, TypeNames,
};
use std::alloc::Global;

/// The kind of types with plain members that a word names.
fn plain_aggregate(kind: TokenKind) -> Option<AggregateKind>
    ensures { result ≡ words.plain_aggregate kind }
{
    match kind {
        TokenKind::Aggr => Some(AggregateKind::Aggr),
        TokenKind::Union => Some(AggregateKind::Union),
        _ => None,
    }
}

/// The word before a member of an adt.
fn member_scope(kind: TokenKind) -> Option<Scope>
    ensures { result ≡ words.member_scope kind }
{
    match kind {
        TokenKind::Intern => Some(Scope::Intern),
        TokenKind::Extern => Some(Scope::Extern),
        _ => None,
    }
}

/// Whether a member begins with the next token.
#[tactic(auto, unfolding(crate::specs::Members::begins_member))]
fn begins_member(types: &TypeNames, tokens: &Cursor<'_>) -> bool
    ensures { result ≡ spec.begins_member types.now tokens.now }
{
    sees_type(types, tokens)
        || tokens.next_is(TokenKind::LeftParen)
        || plain_aggregate(tokens.peek()).is_some()
}

/// Whether a member of an adt begins with the next token.
#[tactic(auto, unfolding(crate::specs::Members::begins_adt_member))]
fn begins_adt_member(types: &TypeNames, tokens: &Cursor<'_>) -> bool
    ensures { result ≡ spec.begins_adt_member types.now tokens.now }
{
    begins_member(types, tokens) || member_scope(tokens.peek()).is_some()
}

/// A list with one element.
fn only_dcl(alloc: Global, x: Dcl) -> Result<Items<Dcl>, NoMemory>
    ensures { IfOk result (λ all. all ≡ x ∷ []) }
{
    let mut all = Items::new(alloc);
    all.push(x)?;
    Ok(all)
}

fn only_member(alloc: Global, x: Member) -> Result<Items<Member>, NoMemory>
    ensures { IfOk result (λ all. all ≡ x ∷ []) }
{
    let mut all = Items::new(alloc);
    all.push(x)?;
    Ok(all)
}

fn only_adt_member(alloc: Global, x: AdtMember) -> Result<Items<AdtMember>, NoMemory>
    ensures { IfOk result (λ all. all ≡ x ∷ []) }
{
    let mut all = Items::new(alloc);
    all.push(x)?;
    Ok(all)
}

impl<'t> Context<'t> {
    pub(crate) fn dcl(&self, tokens: &mut Cursor<'_>) -> Result<(Dcl, u32), ParseError>
        requires turns { self.now.turns < 2 ^ 32 }
        requires depth { self.now.depth < 999 }
        ensures reads { Reads (type_spec.dcl (leaves_of self.now.text.now) self.now.types.now self.now.turns self.now.depth tokens.old) result tokens.new }
        ensures low { IfOk result (λ y. y.1 ≤ self.now.depth) }
    {
        dcl_within(
            self.alloc, self.text, self.types, self.turns, self.depth, tokens,
        )
    }

    /// More declarators, with a comma before each.
    fn dcls_from(
        &self,
        mut found: Items<Dcl>,
        mut height: u32,
        tokens: &mut Cursor<'_>,
    ) -> Result<(Items<Dcl>, u32), ParseError>
        requires turns { self.now.turns < 2 ^ 32 }
        requires depth { self.now.depth < 999 }
        requires height { height ≤ self.now.depth }
        ensures reads { Reads (spec.dcls_from (leaves_of self.now.text.now) self.now.types.now self.now.turns self.now.depth self.now.turns found height tokens.old) result tokens.new }
        ensures low { IfOk result (λ y. y.1 ≤ self.now.depth) }
    {
        for _turn in 0..self.turns {
            if !tokens.next_is(TokenKind::Comma) {
                return Ok((found, height));
            }
            tokens.take_if(true)?;
            let x = self.dcl(tokens)?;
            found.push(x.0)?;
            height = height.max(x.1);
        }
        Err(tokens.refuse())
    }

    /// The declarators behind the first one, and the semicolon.
    #[tactic(auto, unfolding(crate::specs::Members::fields_after))]
    fn fields_after(
        &self,
        at: Place,
        b: ReadBase,
        x: (Dcl, u32),
        tokens: &mut Cursor<'_>,
    ) -> Result<(Member, u32), ParseError>
        requires turns { self.now.turns < 2 ^ 32 }
        requires depth { self.now.depth < 999 }
        requires base { b.height ≤ self.now.depth }
        requires height { x.1 ≤ self.now.depth }
        ensures reads { Reads (spec.fields_after (leaves_of self.now.text.now) self.now.types.now self.now.turns self.now.depth at b x tokens.old) result tokens.new }
        ensures low { IfOk result (λ y. y.1 ≤ self.now.depth + 1) }
    {
        let found = only_dcl(self.alloc, x.0)?;
        let (fields, high) = self.dcls_from(found, x.1, tokens)?;
        tokens.expect(TokenKind::Semicolon)?;
        let height = b.height.max(high) + 1;
        let member = Member::Fields {
            at,
            base: b.tree,
            fields,
        };
        Ok((member, height))
    }

    /// A function's parameters behind its name, and the semicolon.
    #[tactic(auto, unfolding(crate::specs::Members::function_part))]
    fn part_parameters(
        &self,
        b: ReadBase,
        stars: u32,
        n: Token,
        tokens: &mut Cursor<'_>,
    ) -> Result<(AdtPart, u32), ParseError>
        requires turns { self.now.turns < 2 ^ 32 }
        requires depth { self.now.depth < 999 }
        requires base { b.height ≤ self.now.depth }
        ensures reads { Reads (spec.function_part (leaves_of self.now.text.now) self.now.types.now self.now.turns self.now.depth (spec.member (leaves_of self.now.text.now) self.now.types.now self.now.turns self.now.depth) b stars n tokens.old) result tokens.new }
        ensures low { IfOk result (λ y. y.1 ≤ self.now.depth + 1) }
    {
        tokens.take_if(true)?;
        let (parameters, high) = self.parameter_list(tokens)?;
        tokens.expect(TokenKind::Semicolon)?;
        let height = b.height.max(high) + 1;
        let part = AdtPart::Function {
            base: b.tree,
            stars,
            name: name_at(n),
            parameters,
        };
        Ok((part, height))
    }
}

/// The rules of members of at most `depth + 1` levels.
#[derive(Clone, Copy)]
pub(crate) struct Rules<'t, F> {
    pub(crate) context: Context<'t>,
    pub(crate) nested: F,
}

impl<
    't,
    F: Fn(
        Global,
        &[u8],
        &TypeNames,
        usize,
        u32,
        &mut Cursor<'_>,
    ) -> Result<(Member, u32), ParseError>,
> Rules<'t, F> {
    fn sub(&self, tokens: &mut Cursor<'_>) -> Result<(Member, u32), ParseError>
        requires nests { MemberNests self.now.context.turns self.now.context.depth (F.pre self.now.nested) (F.post self.now.nested) }
        requires turns { self.now.context.turns < 2 ^ 32 }
        requires depth { self.now.context.depth < 999 }
        ensures reads { Reads (spec.member (leaves_of self.now.context.text.now) self.now.context.types.now self.now.context.turns self.now.context.depth tokens.old) result tokens.new }
        ensures low { IfOk result (λ y. y.1 ≤ self.now.context.depth) }
    {
        let context = &self.context;
        (self.nested)(
            context.alloc,
            context.text,
            context.types,
            context.turns,
            context.depth,
            tokens,
        )
    }

    fn members_from(
        &self,
        mut found: Items<Member>,
        mut height: u32,
        tokens: &mut Cursor<'_>,
    ) -> Result<(Items<Member>, u32), ParseError>
        requires nests { MemberNests self.now.context.turns self.now.context.depth (F.pre self.now.nested) (F.post self.now.nested) }
        requires turns { self.now.context.turns < 2 ^ 32 }
        requires depth { self.now.context.depth < 999 }
        requires height { height ≤ self.now.context.depth }
        ensures reads { Reads (spec.members_from (leaves_of self.now.context.text.now) self.now.context.types.now self.now.context.turns self.now.context.depth (spec.member (leaves_of self.now.context.text.now) self.now.context.types.now self.now.context.turns self.now.context.depth) self.now.context.turns found height tokens.old) result tokens.new }
        ensures low { IfOk result (λ y. y.1 ≤ self.now.context.depth) }
    {
        for _turn in 0..self.context.turns {
            if !begins_member(self.context.types, tokens) {
                return Ok((found, height));
            }
            let x = self.sub(tokens)?;
            found.push(x.0)?;
            height = height.max(x.1);
        }
        Err(tokens.refuse())
    }

    /// The members behind the first one, and the brace that closes.
    fn members_after(
        &self,
        x: (Member, u32),
        tokens: &mut Cursor<'_>,
    ) -> Result<(Items<Member>, u32), ParseError>
        requires nests { MemberNests self.now.context.turns self.now.context.depth (F.pre self.now.nested) (F.post self.now.nested) }
        requires turns { self.now.context.turns < 2 ^ 32 }
        requires depth { self.now.context.depth < 999 }
        requires height { x.1 ≤ self.now.context.depth }
        ensures reads { Reads (spec.members_after (leaves_of self.now.context.text.now) self.now.context.types.now self.now.context.turns self.now.context.depth (spec.member (leaves_of self.now.context.text.now) self.now.context.types.now self.now.context.turns self.now.context.depth) x tokens.old) result tokens.new }
        ensures low { IfOk result (λ y. y.1 ≤ self.now.context.depth) }
    {
        let found = only_member(self.context.alloc, x.0)?;
        let xs = self.members_from(found, x.1, tokens)?;
        tokens.expect(TokenKind::RightBrace)?;
        Ok(xs)
    }

    /// Members in braces.
    #[tactic(auto, unfolding(crate::specs::Members::members))]
    fn members(&self, tokens: &mut Cursor<'_>) -> Result<(Items<Member>, u32), ParseError>
        requires nests { MemberNests self.now.context.turns self.now.context.depth (F.pre self.now.nested) (F.post self.now.nested) }
        requires turns { self.now.context.turns < 2 ^ 32 }
        requires depth { self.now.context.depth < 999 }
        ensures reads { Reads (spec.members (leaves_of self.now.context.text.now) self.now.context.types.now self.now.context.turns self.now.context.depth (spec.member (leaves_of self.now.context.text.now) self.now.context.types.now self.now.context.turns self.now.context.depth) tokens.old) result tokens.new }
        ensures low { IfOk result (λ y. y.1 ≤ self.now.context.depth) }
    {
        tokens.expect_if(0 < self.context.depth, TokenKind::LeftBrace)?;
        let x = self.sub(tokens)?;
        self.members_after(x, tokens)
    }

    /// A member without a name whose own members stand here.
    #[tactic(auto, unfolding(crate::specs::Members::inner))]
    fn inner(
        &self,
        kind: AggregateKind,
        tokens: &mut Cursor<'_>,
    ) -> Result<(Member, u32), ParseError>
        requires nests { MemberNests self.now.context.turns self.now.context.depth (F.pre self.now.nested) (F.post self.now.nested) }
        requires turns { self.now.context.turns < 2 ^ 32 }
        requires depth { self.now.context.depth < 999 }
        ensures reads { Reads (spec.inner (leaves_of self.now.context.text.now) self.now.context.types.now self.now.context.turns self.now.context.depth (spec.member (leaves_of self.now.context.text.now) self.now.context.types.now self.now.context.turns self.now.context.depth) kind tokens.old) result tokens.new }
        ensures low { IfOk result (λ y. y.1 ≤ self.now.context.depth + 1) }
    {
        let w = tokens.take_if(0 < self.context.depth)?;
        let (members, height) = self.members(tokens)?;
        tokens.expect(TokenKind::Semicolon)?;
        let member = Member::Inner {
            at: w.place,
            kind,
            members,
        };
        Ok((member, height + 1))
    }

    /// A semicolon behind a base type that begins with a name, or declarators.
    #[tactic(auto, unfolding(crate::specs::Members::member_after))]
    fn member_after(
        &self,
        is_name: bool,
        at: Place,
        b: ReadBase,
        tokens: &mut Cursor<'_>,
    ) -> Result<(Member, u32), ParseError>
        requires nests { MemberNests self.now.context.turns self.now.context.depth (F.pre self.now.nested) (F.post self.now.nested) }
        requires turns { self.now.context.turns < 2 ^ 32 }
        requires depth { self.now.context.depth < 999 }
        requires base { b.height ≤ self.now.context.depth }
        ensures reads { Reads (spec.member_after (leaves_of self.now.context.text.now) self.now.context.types.now self.now.context.turns self.now.context.depth (spec.member (leaves_of self.now.context.text.now) self.now.context.types.now self.now.context.turns self.now.context.depth) is_name at b tokens.old) result tokens.new }
        ensures low { IfOk result (λ y. y.1 ≤ self.now.context.depth + 1) }
    {
        if is_name && tokens.next_is(TokenKind::Semicolon) {
            tokens.take_if(true)?;
            let height = b.height + 1;
            return Ok((Member::Unnamed { at, of: b.tree }, height));
        }
        let x = self.context.dcl(tokens)?;
        self.context.fields_after(at, b, x, tokens)
    }

    #[tactic(auto, unfolding(crate::specs::Members::based_member))]
    fn based_member(&self, tokens: &mut Cursor<'_>) -> Result<(Member, u32), ParseError>
        requires nests { MemberNests self.now.context.turns self.now.context.depth (F.pre self.now.nested) (F.post self.now.nested) }
        requires turns { self.now.context.turns < 2 ^ 32 }
        requires depth { self.now.context.depth < 999 }
        ensures reads { Reads (spec.based_member (leaves_of self.now.context.text.now) self.now.context.types.now self.now.context.turns self.now.context.depth (spec.member (leaves_of self.now.context.text.now) self.now.context.types.now self.now.context.turns self.now.context.depth) tokens.old) result tokens.new }
        ensures low { IfOk result (λ y. y.1 ≤ self.now.context.depth + 1) }
    {
        let at = tokens.here();
        let context = &self.context;
        let is_name = sees_type_name(context.types, tokens);
        let b = base_within(
            context.alloc,
            context.text,
            context.types,
            context.turns,
            context.depth,
            tokens,
        )?;
        self.member_after(is_name, at, b, tokens)
    }

    #[tactic(auto, unfolding(crate::specs::Members::member_at))]
    fn member_at(&self, tokens: &mut Cursor<'_>) -> Result<(Member, u32), ParseError>
        requires nests { MemberNests self.now.context.turns self.now.context.depth (F.pre self.now.nested) (F.post self.now.nested) }
        requires turns { self.now.context.turns < 2 ^ 32 }
        requires depth { self.now.context.depth < 999 }
        ensures reads { Reads (spec.member_at (leaves_of self.now.context.text.now) self.now.context.types.now self.now.context.turns self.now.context.depth (spec.member (leaves_of self.now.context.text.now) self.now.context.types.now self.now.context.turns self.now.context.depth) tokens.old) result tokens.new }
        ensures low { IfOk result (λ y. y.1 ≤ self.now.context.depth + 1) }
    {
        match plain_aggregate(tokens.peek()) {
            Some(kind) => self.inner(kind, tokens),
            None => self.based_member(tokens),
        }
    }

    /// Bounds behind the first declarator's name, and more declarators.
    #[tactic(auto, unfolding(crate::specs::Members::data_part))]
    fn data_part(
        &self,
        at: Place,
        b: ReadBase,
        begin: Place,
        stars: u32,
        n: Token,
        tokens: &mut Cursor<'_>,
    ) -> Result<(AdtPart, u32), ParseError>
        requires nests { MemberNests self.now.context.turns self.now.context.depth (F.pre self.now.nested) (F.post self.now.nested) }
        requires turns { self.now.context.turns < 2 ^ 32 }
        requires depth { self.now.context.depth < 999 }
        requires base { b.height ≤ self.now.context.depth }
        ensures reads { Reads (spec.data_part (leaves_of self.now.context.text.now) self.now.context.types.now self.now.context.turns self.now.context.depth (spec.member (leaves_of self.now.context.text.now) self.now.context.types.now self.now.context.turns self.now.context.depth) at b begin stars n tokens.old) result tokens.new }
        ensures low { IfOk result (λ y. y.1 ≤ self.now.context.depth + 1) }
    {
        let context = &self.context;
        let found = Items::new(context.alloc);
        let (bounds, high) = bounds_from(
            context.alloc,
            context.text,
            context.types,
            context.turns,
            context.depth,
            found,
            0,
            tokens,
        )?;
        let dcl = Dcl {
            at: begin,
            stars,
            name: name_at(n),
            bounds,
        };
        let (member, height) = context.fields_after(at, b, (dcl, high), tokens)?;
        Ok((AdtPart::Data(member), height))
    }

    /// Stars and a name, and then what a function or a declarator goes on with.
    #[tactic(auto, unfolding(crate::specs::Members::declared_part))]
    fn declared_part(
        &self,
        at: Place,
        b: ReadBase,
        tokens: &mut Cursor<'_>,
    ) -> Result<(AdtPart, u32), ParseError>
        requires nests { MemberNests self.now.context.turns self.now.context.depth (F.pre self.now.nested) (F.post self.now.nested) }
        requires turns { self.now.context.turns < 2 ^ 32 }
        requires depth { self.now.context.depth < 999 }
        requires base { b.height ≤ self.now.context.depth }
        ensures reads { Reads (spec.declared_part (leaves_of self.now.context.text.now) self.now.context.types.now self.now.context.turns self.now.context.depth (spec.member (leaves_of self.now.context.text.now) self.now.context.types.now self.now.context.turns self.now.context.depth) at b tokens.old) result tokens.new }
        ensures low { IfOk result (λ y. y.1 ≤ self.now.context.depth + 1) }
    {
        let begin = tokens.here();
        let stars = stars_from(self.context.turns, tokens)?;
        let n = other_name(self.context.types, tokens)?;
        if tokens.next_is(TokenKind::LeftParen) {
            self.context.part_parameters(b, stars, n, tokens)
        } else {
            self.data_part(at, b, begin, stars, n, tokens)
        }
    }

    #[tactic(auto, unfolding(crate::specs::Members::part_after))]
    fn part_after(
        &self,
        is_name: bool,
        at: Place,
        b: ReadBase,
        tokens: &mut Cursor<'_>,
    ) -> Result<(AdtPart, u32), ParseError>
        requires nests { MemberNests self.now.context.turns self.now.context.depth (F.pre self.now.nested) (F.post self.now.nested) }
        requires turns { self.now.context.turns < 2 ^ 32 }
        requires depth { self.now.context.depth < 999 }
        requires base { b.height ≤ self.now.context.depth }
        ensures reads { Reads (spec.part_after (leaves_of self.now.context.text.now) self.now.context.types.now self.now.context.turns self.now.context.depth (spec.member (leaves_of self.now.context.text.now) self.now.context.types.now self.now.context.turns self.now.context.depth) is_name at b tokens.old) result tokens.new }
        ensures low { IfOk result (λ y. y.1 ≤ self.now.context.depth + 1) }
    {
        if is_name && tokens.next_is(TokenKind::Semicolon) {
            tokens.take_if(true)?;
            let height = b.height + 1;
            let member = Member::Unnamed { at, of: b.tree };
            return Ok((AdtPart::Data(member), height));
        }
        self.declared_part(at, b, tokens)
    }

    #[tactic(auto, unfolding(crate::specs::Members::based_part))]
    fn based_part(&self, tokens: &mut Cursor<'_>) -> Result<(AdtPart, u32), ParseError>
        requires nests { MemberNests self.now.context.turns self.now.context.depth (F.pre self.now.nested) (F.post self.now.nested) }
        requires turns { self.now.context.turns < 2 ^ 32 }
        requires depth { self.now.context.depth < 999 }
        ensures reads { Reads (spec.based_part (leaves_of self.now.context.text.now) self.now.context.types.now self.now.context.turns self.now.context.depth (spec.member (leaves_of self.now.context.text.now) self.now.context.types.now self.now.context.turns self.now.context.depth) tokens.old) result tokens.new }
        ensures low { IfOk result (λ y. y.1 ≤ self.now.context.depth + 1) }
    {
        let at = tokens.here();
        let context = &self.context;
        let is_name = sees_type_name(context.types, tokens);
        let b = base_within(
            context.alloc,
            context.text,
            context.types,
            context.turns,
            context.depth,
            tokens,
        )?;
        self.part_after(is_name, at, b, tokens)
    }

    #[tactic(auto, unfolding(crate::specs::Members::adt_part))]
    fn adt_part(&self, tokens: &mut Cursor<'_>) -> Result<(AdtPart, u32), ParseError>
        requires nests { MemberNests self.now.context.turns self.now.context.depth (F.pre self.now.nested) (F.post self.now.nested) }
        requires turns { self.now.context.turns < 2 ^ 32 }
        requires depth { self.now.context.depth < 999 }
        ensures reads { Reads (spec.adt_part (leaves_of self.now.context.text.now) self.now.context.types.now self.now.context.turns self.now.context.depth (spec.member (leaves_of self.now.context.text.now) self.now.context.types.now self.now.context.turns self.now.context.depth) tokens.old) result tokens.new }
        ensures low { IfOk result (λ y. y.1 ≤ self.now.context.depth + 1) }
    {
        match plain_aggregate(tokens.peek()) {
            Some(kind) => {
                let (member, height) = self.inner(kind, tokens)?;
                Ok((AdtPart::Data(member), height))
            }
            None => self.based_part(tokens),
        }
    }

    /// A member of an adt, with the word before it or none.
    #[tactic(auto, unfolding(crate::specs::Members::adt_member, crate::specs::Members::marked, crate::specs::Members::unmarked))]
    fn adt_member(&self, tokens: &mut Cursor<'_>) -> Result<(AdtMember, u32), ParseError>
        requires nests { MemberNests self.now.context.turns self.now.context.depth (F.pre self.now.nested) (F.post self.now.nested) }
        requires turns { self.now.context.turns < 2 ^ 32 }
        requires depth { self.now.context.depth < 999 }
        ensures reads { Reads (spec.adt_member (leaves_of self.now.context.text.now) self.now.context.types.now self.now.context.turns self.now.context.depth (spec.member (leaves_of self.now.context.text.now) self.now.context.types.now self.now.context.turns self.now.context.depth) tokens.old) result tokens.new }
        ensures low { IfOk result (λ y. y.1 ≤ self.now.context.depth + 1) }
    {
        match member_scope(tokens.peek()) {
            Some(word) => {
                let w = tokens.take_if(true)?;
                let (part, height) = self.adt_part(tokens)?;
                let member = AdtMember {
                    at: w.place,
                    scope: Some(word),
                    part,
                };
                Ok((member, height))
            }
            None => {
                let at = tokens.here();
                let (part, height) = self.adt_part(tokens)?;
                let member = AdtMember {
                    at,
                    scope: None,
                    part,
                };
                Ok((member, height))
            }
        }
    }

    fn adt_members_from(
        &self,
        mut found: Items<AdtMember>,
        mut height: u32,
        tokens: &mut Cursor<'_>,
    ) -> Result<(Items<AdtMember>, u32), ParseError>
        requires nests { MemberNests self.now.context.turns self.now.context.depth (F.pre self.now.nested) (F.post self.now.nested) }
        requires turns { self.now.context.turns < 2 ^ 32 }
        requires depth { self.now.context.depth < 999 }
        requires height { height ≤ self.now.context.depth + 1 }
        ensures reads { Reads (spec.adt_members_from (leaves_of self.now.context.text.now) self.now.context.types.now self.now.context.turns self.now.context.depth (spec.member (leaves_of self.now.context.text.now) self.now.context.types.now self.now.context.turns self.now.context.depth) self.now.context.turns found height tokens.old) result tokens.new }
        ensures low { IfOk result (λ y. y.1 ≤ self.now.context.depth + 1) }
    {
        for _turn in 0..self.context.turns {
            if !begins_adt_member(self.context.types, tokens) {
                return Ok((found, height));
            }
            let x = self.adt_member(tokens)?;
            found.push(x.0)?;
            height = height.max(x.1);
        }
        Err(tokens.refuse())
    }

    /// The members of an adt behind the first one, and the brace that closes.
    fn adt_members_after(
        &self,
        x: (AdtMember, u32),
        tokens: &mut Cursor<'_>,
    ) -> Result<(Items<AdtMember>, u32), ParseError>
        requires nests { MemberNests self.now.context.turns self.now.context.depth (F.pre self.now.nested) (F.post self.now.nested) }
        requires turns { self.now.context.turns < 2 ^ 32 }
        requires depth { self.now.context.depth < 999 }
        requires height { x.1 ≤ self.now.context.depth + 1 }
        ensures reads { Reads (spec.adt_members_after (leaves_of self.now.context.text.now) self.now.context.types.now self.now.context.turns self.now.context.depth (spec.member (leaves_of self.now.context.text.now) self.now.context.types.now self.now.context.turns self.now.context.depth) x tokens.old) result tokens.new }
        ensures low { IfOk result (λ y. y.1 ≤ self.now.context.depth + 1) }
    {
        let found = only_adt_member(self.context.alloc, x.0)?;
        let xs = self.adt_members_from(found, x.1, tokens)?;
        tokens.expect(TokenKind::RightBrace)?;
        Ok(xs)
    }

    /// Members of an adt, and the brace that closes.
    #[tactic(auto, unfolding(crate::specs::Members::adt_members))]
    fn adt_members(&self, tokens: &mut Cursor<'_>) -> Result<(Items<AdtMember>, u32), ParseError>
        requires nests { MemberNests self.now.context.turns self.now.context.depth (F.pre self.now.nested) (F.post self.now.nested) }
        requires turns { self.now.context.turns < 2 ^ 32 }
        requires depth { self.now.context.depth < 999 }
        ensures reads { Reads (spec.adt_members (leaves_of self.now.context.text.now) self.now.context.types.now self.now.context.turns self.now.context.depth (spec.member (leaves_of self.now.context.text.now) self.now.context.types.now self.now.context.turns self.now.context.depth) tokens.old) result tokens.new }
        ensures low { IfOk result (λ y. y.1 ≤ self.now.context.depth + 1) }
    {
        let x = self.adt_member(tokens)?;
        self.adt_members_after(x, tokens)
    }
}

/// A member with at most `depth` levels.
fn member(
    alloc: Global,
    text: &[u8],
    types: &TypeNames,
    turns: usize,
    depth: u32,
    tokens: &mut Cursor<'_>,
) -> Result<(Member, u32), ParseError>
    requires turns { turns < 2 ^ 32 }
    requires depth { depth < 999 }
    ensures reads { Reads (spec.member (leaves_of text.now) types.now turns depth tokens.old) result tokens.new }
    ensures low { IfOk result (λ y. y.1 ≤ depth) }
{
    if depth == 0 {
        return Err(ParseError::Deep(0));
    }
    let context = Context {
        alloc,
        text,
        types,
        turns,
        depth: depth - 1,
    };
    let rules = Rules {
        context,
        nested: member,
    };
    rules.member_at(tokens)
}

impl<'t> Context<'t> {
    /// Members in braces, at least one, with their height.
    pub fn members_within(
        &self,
        tokens: &mut Cursor<'_>,
    ) -> Result<(Items<Member>, u32), ParseError>
        requires turns { self.now.turns < 2 ^ 32 }
        requires depth { self.now.depth < 999 }
        ensures reads { Reads (spec.members_within (leaves_of self.now.text.now) self.now.types.now self.now.turns self.now.depth tokens.old) result tokens.new }
        ensures low { IfOk result (λ y. y.1 ≤ self.now.depth) }
    {
        let rules = Rules {
            context: *self,
            nested: member,
        };
        rules.members(tokens)
    }

    /// Members of an adt in braces, at least one, with their height.
    #[tactic(auto, unfolding(crate::specs::Members::adt_body))]
    pub fn adt_body(&self, tokens: &mut Cursor<'_>) -> Result<(Items<AdtMember>, u32), ParseError>
        requires turns { self.now.turns < 2 ^ 32 }
        requires depth { self.now.depth < 999 }
        ensures reads { Reads (spec.adt_body (leaves_of self.now.text.now) self.now.types.now self.now.turns self.now.depth tokens.old) result tokens.new }
        ensures low { IfOk result (λ y. y.1 ≤ self.now.depth) }
    {
        open_brace(0 < self.depth, tokens)?;
        let mut context = *self;
        context.depth = self.depth - 1;
        let rules = Rules {
            context,
            nested: member,
        };
        rules.adt_members(tokens)
    }
}
