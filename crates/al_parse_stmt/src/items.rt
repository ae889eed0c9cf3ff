//! Items at file level, with what they declare.
ghost use Rattle.std.specs.Prelude.{◌≡◌, ◌+◌, ◌-◌, ◌<◌, ◌≤◌, ◌^◌, ℕ, max, [], ◌∷◌, ◌++◌, Some, None, IfOk, OnOk};
ghost use Rattle.al_tree.specs.Leaves.{leaves_of};
ghost use Rattle.al_tree.specs.Reading.{Reads};
ghost use Rattle.al_tree.specs.Types.{with_name, with_names};
ghost use Rattle.al_tree.specs.Items as rules;
ghost use Rattle.al_tree.specs.Words as words;
ghost use Rattle.al_parse_block.specs.Parse as block_spec;
ghost use Rattle.al_parse_member.specs.Members as members;
ghost use Rattle.al_parse_stmt.specs.Heads as heads;
ghost use Rattle.al_parse_stmt.specs.Parse as spec;
ghost use Rattle.al_parse_stmt.specs.Known.{declared_of, ReadsItem};

use crate::adts::{declare_all, numbers_of};
use crate::heads::{
    FirstName, named_after, named_declarator, new_names_from, only_name, owned_head,
    parametrised_head,
};
use crate::known::{Known, add_parameters, declare, nothing_known, owner_of, parameters_of};
use crate::reader::Reader;
use al_base::{NoMemory, Place};
use al_items::Items;
use al_lex::{Token, TokenKind};
use al_parse_block::block_within;
use al_parse_member::{name_at, type_name};
use al_parse_type::{
    ReadBase, bounds_from, other_name, sees_other_name, sees_type_name, stars_from,
};
use al_tree::{
    AdtMember, AggregateKind, Cursor, Dcl, Declarator, Head, Item, Name, Owner, Parameter,
    ParseError, Scope, Stmt, TypeNames,
};
use std::alloc::Global;

/// A list with one element.
fn only(alloc: Global, x: Declarator) -> Result<Items<Declarator>, NoMemory>
    ensures { IfOk result (λ all. all ≡ x ∷ []) }
{
    let mut all = Items::new(alloc);
    all.push(x)?;
    Ok(all)
}

/// The word before a declaration.
fn scope_word(kind: TokenKind) -> Option<Scope>
    ensures { result ≡ words.scope_word kind }
{
    match kind {
        TokenKind::Intern => Some(Scope::Intern),
        TokenKind::Extern => Some(Scope::Extern),
        TokenKind::Private => Some(Scope::Private),
        _ => None,
    }
}

/// A semicolon or none.
#[tactic(auto, unfolding(crate::specs::Parse::semicolon))]
fn semicolon(tokens: &mut Cursor<'_>) -> Result<u32, ParseError>
    ensures { Reads (spec.semicolon tokens.old) result tokens.new }
{
    if tokens.next_is(TokenKind::Semicolon) {
        tokens.take_if(true)?;
    }
    Ok(0)
}

impl Reader {
    // ---- typedef

    /// The parameters of a function type, and the semicolon.
    #[tactic(auto, unfolding(crate::specs::Parse::typed_parameters))]
    fn typed_parameters(
        &self,
        text: &[u8],
        known: &Known,
        tokens: &mut Cursor<'_>,
    ) -> Result<(Items<Parameter>, u32), ParseError>
        requires turns { self.now.turns < 2 ^ 32 }
        requires depth { self.now.depth < 999 }
        ensures reads { Reads (spec.typed_parameters (leaves_of text.now) self.now.turns self.now.depth (declared_of known.now) tokens.old) result tokens.new }
        ensures low { IfOk result (λ y. y.1 ≤ self.now.depth) }
    {
        tokens.take_if(true)?;
        let read = self.parameters(text, known, tokens)?;
        tokens.expect(TokenKind::Semicolon)?;
        Ok(read)
    }

    #[tactic(auto, unfolding(crate::specs::Parse::function_type))]
    fn function_type(
        &self,
        text: &[u8],
        at: Place,
        b: ReadBase,
        stars: u32,
        n: Token,
        known: &mut Known,
        tokens: &mut Cursor<'_>,
    ) -> Result<(Item, u32), ParseError>
        requires turns { self.now.turns < 2 ^ 32 }
        requires depth { self.now.depth < 999 }
        requires base { b.height ≤ self.now.depth }
        ensures reads { ReadsItem (spec.function_type (leaves_of text.now) self.now.turns self.now.depth (declared_of known.old) at b stars n tokens.old) result known.new tokens.new }
        ensures low { IfOk result (λ y. y.1 ≤ self.now.depth + 1) }
    {
        let (parameters, high) = self.typed_parameters(text, known, tokens)?;
        declare(known, n.name)?;
        let height = b.height.max(high) + 1;
        let item = Item::FunctionType {
            at,
            base: b.tree,
            stars,
            name: name_at(n),
            parameters,
        };
        Ok((item, height))
    }

    /// Bounds behind the name that a typedef declares, and the semicolon.
    #[tactic(auto, unfolding(crate::specs::Parse::defined))]
    fn defined(
        &self,
        text: &[u8],
        at: Place,
        b: ReadBase,
        begin: Place,
        stars: u32,
        n: Token,
        known: &mut Known,
        tokens: &mut Cursor<'_>,
    ) -> Result<(Item, u32), ParseError>
        requires depth { self.now.depth < 999 }
        requires base { b.height ≤ self.now.depth }
        ensures reads { ReadsItem (spec.defined (leaves_of text.now) self.now.turns self.now.depth (declared_of known.old) at b begin stars n tokens.old) result known.new tokens.new }
        ensures low { IfOk result (λ y. y.1 ≤ self.now.depth + 1) }
    {
        let found = Items::new(self.alloc);
        let (bounds, high) = bounds_from(
            self.alloc,
            text,
            &known.types,
            self.turns,
            self.depth,
            found,
            0,
            tokens,
        )?;
        tokens.expect(TokenKind::Semicolon)?;
        declare(known, n.name)?;
        let height = b.height.max(high) + 1;
        let dcl = Dcl {
            at: begin,
            stars,
            name: name_at(n),
            bounds,
        };
        let item = Item::Typedef {
            at,
            base: b.tree,
            dcl,
        };
        Ok((item, height))
    }

    #[tactic(auto, unfolding(crate::specs::Parse::defined_after))]
    fn defined_after(
        &self,
        text: &[u8],
        at: Place,
        b: ReadBase,
        known: &mut Known,
        tokens: &mut Cursor<'_>,
    ) -> Result<(Item, u32), ParseError>
        requires turns { self.now.turns < 2 ^ 32 }
        requires depth { self.now.depth < 999 }
        requires base { b.height ≤ self.now.depth }
        ensures reads { ReadsItem (spec.defined_after (leaves_of text.now) self.now.turns self.now.depth (declared_of known.old) at b tokens.old) result known.new tokens.new }
        ensures low { IfOk result (λ y. y.1 ≤ self.now.depth + 1) }
    {
        let begin = tokens.here();
        let stars = stars_from(self.turns, tokens)?;
        let n = other_name(&known.types, tokens)?;
        if tokens.next_is(TokenKind::LeftParen) {
            self.function_type(text, at, b, stars, n, known, tokens)
        } else {
            self.defined(text, at, b, begin, stars, n, known, tokens)
        }
    }

    #[tactic(auto, unfolding(crate::specs::Parse::typedef))]
    fn typedef(
        &self,
        text: &[u8],
        known: &mut Known,
        tokens: &mut Cursor<'_>,
    ) -> Result<(Item, u32), ParseError>
        requires turns { self.now.turns < 2 ^ 32 }
        requires depth { self.now.depth < 999 }
        ensures reads { ReadsItem (spec.typedef (leaves_of text.now) self.now.turns self.now.depth (declared_of known.old) tokens.old) result known.new tokens.new }
        ensures low { IfOk result (λ y. y.1 ≤ self.now.depth + 1) }
    {
        let w = tokens.take_if(true)?;
        let b = self.base(text, &known.types, tokens)?;
        self.defined_after(text, w.place, b, known, tokens)
    }

    // ---- aggr, union and adt

    #[tactic(auto, unfolding(crate::specs::Parse::forward))]
    fn forward(
        &self,
        text: &[u8],
        kind: AggregateKind,
        at: Place,
        n: Token,
        known: &mut Known,
        tokens: &mut Cursor<'_>,
    ) -> Result<(Item, u32), ParseError>
        ensures reads { ReadsItem (spec.forward (leaves_of text.now) self.now.turns self.now.depth (declared_of known.old) kind at n tokens.old) result known.new tokens.new }
        ensures low { IfOk result (λ y. y.1 ≤ self.now.depth + 1) }
    {
        tokens.take_if(true)?;
        declare(known, n.name)?;
        let item = Item::Forward {
            at,
            kind,
            name: name_at(n),
        };
        Ok((item, 1))
    }

    #[tactic(auto, unfolding(crate::specs::Parse::plain_of))]
    fn plain_of(
        &self,
        text: &[u8],
        kind: AggregateKind,
        at: Place,
        n: Token,
        known: &mut Known,
        tokens: &mut Cursor<'_>,
    ) -> Result<(Item, u32), ParseError>
        requires turns { self.now.turns < 2 ^ 32 }
        requires depth { self.now.depth < 999 }
        ensures reads { ReadsItem (spec.plain_of (leaves_of text.now) self.now.turns self.now.depth (declared_of known.old) kind at n tokens.old) result known.new tokens.new }
        ensures low { IfOk result (λ y. y.1 ≤ self.now.depth + 1) }
    {
        declare(known, n.name)?;
        let (members, height) = self.context(text, &known.types).members_within(tokens)?;
        semicolon(tokens)?;
        let item = Item::Aggregate {
            at,
            kind,
            name: name_at(n),
            members,
        };
        Ok((item, height + 1))
    }

    #[tactic(auto, unfolding(crate::specs::Parse::adt_of))]
    fn adt_of(
        &self,
        text: &[u8],
        at: Place,
        n: Token,
        known: &mut Known,
        tokens: &mut Cursor<'_>,
    ) -> Result<(Item, u32), ParseError>
        requires turns { self.now.turns < 2 ^ 32 }
        requires depth { self.now.depth < 999 }
        ensures reads { ReadsItem (spec.adt_of (leaves_of text.now) self.now.turns self.now.depth (declared_of known.old) at n tokens.old) result known.new tokens.new }
        ensures low { IfOk result (λ y. y.1 ≤ self.now.depth + 1) }
    {
        declare(known, n.name)?;
        let (members, height) = self.context(text, &known.types).adt_body(tokens)?;
        semicolon(tokens)?;
        let item = Item::Adt {
            at,
            name: name_at(n),
            parameters: Items::new(self.alloc),
            members,
        };
        Ok((item, height + 1))
    }

    /// The parameters of an adt, behind the bracket that opens.
    #[tactic(auto, unfolding(crate::specs::Parse::new_names))]
    fn new_names(
        &self,
        types: &TypeNames,
        tokens: &mut Cursor<'_>,
    ) -> Result<Items<Name>, ParseError>
        ensures { Reads (spec.new_names self.now.turns types.now tokens.old) result tokens.new }
    {
        let first = other_name(types, tokens)?;
        let found = only_name(self.alloc, first)?;
        let names = new_names_from(types, self.turns, found, tokens)?;
        tokens.expect(TokenKind::RightBracket)?;
        Ok(names)
    }

    /// The members of an adt, among which these names are types too.
    fn body_among(
        &self,
        text: &[u8],
        names: &Items<u32>,
        known: &mut Known,
        tokens: &mut Cursor<'_>,
    ) -> Result<(Items<AdtMember>, u32), ParseError>
        requires turns { self.now.turns < 2 ^ 32 }
        requires depth { self.now.depth < 999 }
        ensures reads { Reads (members.adt_body (leaves_of text.now) (with_names known.old.types names.now) self.now.turns self.now.depth tokens.old) result tokens.new }
        ensures low { IfOk result (λ y. y.1 ≤ self.now.depth) }
        ensures same { OnOk result (declared_of known.new ≡ declared_of known.old) }
    {
        let count = known.types.len();
        declare_all(&mut known.types, names)?;
        let read = self.context(text, &known.types).adt_body(tokens)?;
        known.types.truncate(count);
        Ok(read)
    }

    /// The members of an adt with these parameters, whose name is declared.
    #[tactic(auto, unfolding(crate::specs::Parse::parametrised_body))]
    fn parametrised_body(
        &self,
        text: &[u8],
        at: Place,
        n: Token,
        names: Items<Name>,
        known: &mut Known,
        tokens: &mut Cursor<'_>,
    ) -> Result<(Item, u32), ParseError>
        requires turns { self.now.turns < 2 ^ 32 }
        requires depth { self.now.depth < 999 }
        ensures reads { ReadsItem (spec.parametrised_body (leaves_of text.now) self.now.turns self.now.depth (declared_of known.old) at n names tokens.old) result known.new tokens.new }
        ensures low { IfOk result (λ y. y.1 ≤ self.now.depth + 1) }
    {
        let parameters = numbers_of(self.alloc, &names)?;
        let (members, height) = self.body_among(text, &parameters, known, tokens)?;
        semicolon(tokens)?;
        add_parameters(known, n.name, parameters)?;
        let item = Item::Adt {
            at,
            name: name_at(n),
            parameters: names,
            members,
        };
        Ok((item, height + 1))
    }

    #[tactic(auto, unfolding(crate::specs::Parse::parametrised_of))]
    fn parametrised_of(
        &self,
        text: &[u8],
        at: Place,
        n: Token,
        known: &mut Known,
        tokens: &mut Cursor<'_>,
    ) -> Result<(Item, u32), ParseError>
        requires turns { self.now.turns < 2 ^ 32 }
        requires depth { self.now.depth < 999 }
        ensures reads { ReadsItem (spec.parametrised_of (leaves_of text.now) self.now.turns self.now.depth (declared_of known.old) at n tokens.old) result known.new tokens.new }
        ensures low { IfOk result (λ y. y.1 ≤ self.now.depth + 1) }
    {
        tokens.take_if(0 < self.depth)?;
        declare(known, n.name)?;
        let names = self.new_names(&known.types, tokens)?;
        self.parametrised_body(text, at, n, names, known, tokens)
    }

    #[tactic(auto, unfolding(crate::specs::Parse::bodied))]
    fn bodied(
        &self,
        text: &[u8],
        kind: AggregateKind,
        at: Place,
        n: Token,
        known: &mut Known,
        tokens: &mut Cursor<'_>,
    ) -> Result<(Item, u32), ParseError>
        requires turns { self.now.turns < 2 ^ 32 }
        requires depth { self.now.depth < 999 }
        ensures reads { ReadsItem (spec.bodied (leaves_of text.now) self.now.turns self.now.depth (declared_of known.old) kind at n tokens.old) result known.new tokens.new }
        ensures low { IfOk result (λ y. y.1 ≤ self.now.depth + 1) }
    {
        match kind {
            AggregateKind::Adt => {
                if tokens.next_is(TokenKind::LeftBracket) {
                    self.parametrised_of(text, at, n, known, tokens)
                } else {
                    self.adt_of(text, at, n, known, tokens)
                }
            }
            AggregateKind::Aggr | AggregateKind::Union => {
                self.plain_of(text, kind, at, n, known, tokens)
            }
        }
    }

    #[tactic(auto, unfolding(crate::specs::Parse::aggregated))]
    fn aggregated(
        &self,
        text: &[u8],
        kind: AggregateKind,
        known: &mut Known,
        tokens: &mut Cursor<'_>,
    ) -> Result<(Item, u32), ParseError>
        requires turns { self.now.turns < 2 ^ 32 }
        requires depth { self.now.depth < 999 }
        ensures reads { ReadsItem (spec.aggregated (leaves_of text.now) self.now.turns self.now.depth (declared_of known.old) kind tokens.old) result known.new tokens.new }
        ensures low { IfOk result (λ y. y.1 ≤ self.now.depth + 1) }
    {
        let w = tokens.take_if(true)?;
        let n = tokens.expect(TokenKind::Name)?;
        if tokens.next_is(TokenKind::Semicolon) {
            self.forward(text, kind, w.place, n, known, tokens)
        } else {
            self.bodied(text, kind, w.place, n, known, tokens)
        }
    }

    // ---- enum

    #[tactic(auto, unfolding(crate::specs::Parse::named_enum))]
    fn named_enum(
        &self,
        text: &[u8],
        at: Place,
        known: &mut Known,
        tokens: &mut Cursor<'_>,
    ) -> Result<(Item, u32), ParseError>
        requires depth { self.now.depth < 999 }
        ensures reads { ReadsItem (spec.named_enum (leaves_of text.now) self.now.turns self.now.depth (declared_of known.old) at tokens.old) result known.new tokens.new }
        ensures low { IfOk result (λ y. y.1 ≤ self.now.depth + 1) }
    {
        let n = tokens.take_if(true)?;
        declare(known, n.name)?;
        let (constants, height) = self.context(text, &known.types).enum_body(tokens)?;
        semicolon(tokens)?;
        let item = Item::Enum {
            at,
            name: Some(name_at(n)),
            constants,
        };
        Ok((item, height + 1))
    }

    #[tactic(auto, unfolding(crate::specs::Parse::unnamed_enum))]
    fn unnamed_enum(
        &self,
        text: &[u8],
        at: Place,
        known: &mut Known,
        tokens: &mut Cursor<'_>,
    ) -> Result<(Item, u32), ParseError>
        requires depth { self.now.depth < 999 }
        ensures reads { ReadsItem (spec.unnamed_enum (leaves_of text.now) self.now.turns self.now.depth (declared_of known.old) at tokens.old) result known.new tokens.new }
        ensures low { IfOk result (λ y. y.1 ≤ self.now.depth + 1) }
    {
        let (constants, height) = self.context(text, &known.types).enum_body(tokens)?;
        semicolon(tokens)?;
        let item = Item::Enum {
            at,
            name: None,
            constants,
        };
        Ok((item, height + 1))
    }

    #[tactic(auto, unfolding(crate::specs::Parse::enumerated))]
    fn enumerated(
        &self,
        text: &[u8],
        known: &mut Known,
        tokens: &mut Cursor<'_>,
    ) -> Result<(Item, u32), ParseError>
        requires depth { self.now.depth < 999 }
        ensures reads { ReadsItem (spec.enumerated (leaves_of text.now) self.now.turns self.now.depth (declared_of known.old) tokens.old) result known.new tokens.new }
        ensures low { IfOk result (λ y. y.1 ≤ self.now.depth + 1) }
    {
        let w = tokens.take_if(true)?;
        if sees_other_name(&known.types, tokens) {
            self.named_enum(text, w.place, known, tokens)
        } else {
            self.unnamed_enum(text, w.place, known, tokens)
        }
    }

    // ---- declarations and functions

    /// A dot and what goes on behind it, behind the name of an adt.
    #[tactic(auto, unfolding(crate::specs::Heads::dotted))]
    fn dotted(
        &self,
        text: &[u8],
        at: Place,
        stars: u32,
        a: Token,
        known: &Known,
        tokens: &mut Cursor<'_>,
    ) -> Result<(Declarator, u32), ParseError>
        requires turns { self.now.turns < 2 ^ 32 }
        requires depth { self.now.depth < 999 }
        ensures reads { Reads (heads.dotted (leaves_of text.now) self.now.turns self.now.depth (declared_of known.now) at stars a tokens.old) result tokens.new }
        ensures low { IfOk result (λ y. y.1 ≤ self.now.depth) }
    {
        tokens.expect(TokenKind::Dot)?;
        let owner = Owner {
            adt: name_at(a),
            parameters: Items::new(self.alloc),
        };
        owned_head(&self.context(text, &known.types), at, stars, owner, tokens)
    }

    /// A bracket and what goes on in it and behind it, behind the name of an adt.
    #[tactic(auto, unfolding(crate::specs::Heads::bracketed))]
    fn bracketed(
        &self,
        text: &[u8],
        at: Place,
        stars: u32,
        a: Token,
        known: &mut Known,
        tokens: &mut Cursor<'_>,
    ) -> Result<(Declarator, u32), ParseError>
        requires turns { self.now.turns < 2 ^ 32 }
        requires depth { self.now.depth < 999 }
        ensures reads { Reads (heads.bracketed (leaves_of text.now) self.now.turns self.now.depth (declared_of known.old) at stars a tokens.old) result tokens.new }
        ensures low { IfOk result (λ y. y.1 ≤ self.now.depth) }
        ensures same { OnOk result (declared_of known.new ≡ declared_of known.old) }
    {
        tokens.take_if(true)?;
        let inside = parameters_of(self.alloc, &known.adts, a.name)?;
        let count = known.types.len();
        declare_all(&mut known.types, &inside)?;
        let read = parametrised_head(&self.context(text, &known.types), at, stars, a, tokens)?;
        known.types.truncate(count);
        Ok(read)
    }

    /// What goes on behind the adt's name in the head of a function of it.
    #[tactic(auto, unfolding(crate::specs::Heads::owned_after))]
    fn owned_after(
        &self,
        text: &[u8],
        at: Place,
        stars: u32,
        a: Token,
        known: &mut Known,
        tokens: &mut Cursor<'_>,
    ) -> Result<(Declarator, u32), ParseError>
        requires turns { self.now.turns < 2 ^ 32 }
        requires depth { self.now.depth < 999 }
        ensures reads { Reads (heads.owned_after (leaves_of text.now) self.now.turns self.now.depth (declared_of known.old) at stars a tokens.old) result tokens.new }
        ensures low { IfOk result (λ y. y.1 ≤ self.now.depth) }
        ensures same { OnOk result (declared_of known.new ≡ declared_of known.old) }
    {
        if tokens.next_is(TokenKind::LeftBracket) {
            self.bracketed(text, at, stars, a, known, tokens)
        } else {
            self.dotted(text, at, stars, a, known, tokens)
        }
    }

    /// The head of a function of an adt, behind its stars.
    #[tactic(auto, unfolding(crate::specs::Heads::owned_declarator))]
    fn owned_declarator(
        &self,
        text: &[u8],
        at: Place,
        stars: u32,
        known: &mut Known,
        tokens: &mut Cursor<'_>,
    ) -> Result<(Declarator, u32), ParseError>
        requires turns { self.now.turns < 2 ^ 32 }
        requires depth { self.now.depth < 999 }
        ensures reads { Reads (heads.owned_declarator (leaves_of text.now) self.now.turns self.now.depth (declared_of known.old) at stars tokens.old) result tokens.new }
        ensures low { IfOk result (λ y. y.1 ≤ self.now.depth) }
        ensures same { OnOk result (declared_of known.new ≡ declared_of known.old) }
    {
        let a = type_name(&known.types, tokens)?;
        self.owned_after(text, at, stars, a, known, tokens)
    }

    #[tactic(auto, unfolding(crate::specs::Heads::declarator))]
    fn declarator(
        &self,
        text: &[u8],
        known: &mut Known,
        tokens: &mut Cursor<'_>,
    ) -> Result<(Declarator, u32), ParseError>
        requires turns { self.now.turns < 2 ^ 32 }
        requires depth { self.now.depth < 999 }
        ensures reads { Reads (heads.declarator (leaves_of text.now) self.now.turns self.now.depth (declared_of known.old) tokens.old) result tokens.new }
        ensures low { IfOk result (λ y. y.1 ≤ self.now.depth) }
        ensures same { OnOk result (declared_of known.new ≡ declared_of known.old) }
    {
        let at = tokens.here();
        let stars = stars_from(self.turns, tokens)?;
        if sees_type_name(&known.types, tokens) {
            self.owned_declarator(text, at, stars, known, tokens)
        } else {
            named_declarator(&self.context(text, &known.types), at, stars, tokens)
        }
    }

    /// The first declarator, behind the name that it has.
    #[tactic(auto, unfolding(crate::specs::Heads::declarator_after))]
    fn declarator_after(
        &self,
        text: &[u8],
        y: FirstName,
        known: &mut Known,
        tokens: &mut Cursor<'_>,
    ) -> Result<(Declarator, u32), ParseError>
        requires turns { self.now.turns < 2 ^ 32 }
        requires depth { self.now.depth < 999 }
        ensures reads { Reads (heads.declarator_after (leaves_of text.now) self.now.turns self.now.depth (declared_of known.old) y tokens.old) result tokens.new }
        ensures low { IfOk result (λ y. y.1 ≤ self.now.depth) }
        ensures same { OnOk result (declared_of known.new ≡ declared_of known.old) }
    {
        if y.owned {
            self.owned_after(text, y.at, y.stars, y.name, known, tokens)
        } else {
            named_after(
                &self.context(text, &known.types),
                y.at,
                y.stars,
                y.name,
                tokens,
            )
        }
    }

    /// More declarators, with a comma before each.
    fn declarators_from(
        &self,
        text: &[u8],
        mut found: Items<Declarator>,
        mut height: u32,
        known: &mut Known,
        tokens: &mut Cursor<'_>,
    ) -> Result<(Items<Declarator>, u32), ParseError>
        requires turns { self.now.turns < 2 ^ 32 }
        requires depth { self.now.depth < 999 }
        requires height { height ≤ self.now.depth }
        ensures reads { Reads (heads.declarators_from (leaves_of text.now) self.now.turns self.now.depth (declared_of known.old) self.now.turns found height tokens.old) result tokens.new }
        ensures low { IfOk result (λ y. y.1 ≤ self.now.depth) }
        ensures same { OnOk result (declared_of known.new ≡ declared_of known.old) }
    {
        for _turn in 0..self.turns {
            if !tokens.next_is(TokenKind::Comma) {
                return Ok((found, height));
            }
            tokens.take_if(true)?;
            let x = self.declarator(text, known, tokens)?;
            found.push(x.0)?;
            height = height.max(x.1);
        }
        Err(tokens.refuse())
    }

    #[tactic(auto, unfolding(crate::specs::Parse::declared_more))]
    fn declared_more(
        &self,
        text: &[u8],
        at: Place,
        scope: Option<Scope>,
        b: ReadBase,
        x: (Declarator, u32),
        known: &mut Known,
        tokens: &mut Cursor<'_>,
    ) -> Result<(Item, u32), ParseError>
        requires turns { self.now.turns < 2 ^ 32 }
        requires depth { self.now.depth < 999 }
        requires base { b.height + 1 < 2 ^ 32 }
        requires height { x.1 ≤ self.now.depth }
        ensures reads { ReadsItem (spec.declared_more (leaves_of text.now) self.now.turns self.now.depth (declared_of known.old) at scope b x tokens.old) result known.new tokens.new }
        ensures low { b.height ≤ self.now.depth → IfOk result (λ y. y.1 ≤ self.now.depth + 1) }
    {
        let found = only(self.alloc, x.0)?;
        let (declarators, high) = self.declarators_from(text, found, x.1, known, tokens)?;
        tokens.expect(TokenKind::Semicolon)?;
        let height = b.height.max(high) + 1;
        let item = Item::Declare {
            at,
            scope,
            base: b.tree,
            declarators,
        };
        Ok((item, height))
    }

    /// The body of a function, in which the parameters of its adt are types.
    fn body(
        &self,
        text: &[u8],
        owner: &Option<Owner>,
        known: &mut Known,
        tokens: &mut Cursor<'_>,
    ) -> Result<(Stmt, u32), ParseError>
        requires turns { self.now.turns < 2 ^ 32 }
        requires depth { self.now.depth < 999 }
        requires some { 0 < self.now.depth }
        ensures reads { Reads (block_spec.block_within (leaves_of text.now) (rules.body_types (leaves_of text.now) (declared_of known.old) owner.now) self.now.turns self.now.depth tokens.old) result tokens.new }
        ensures low { IfOk result (λ y. y.1 ≤ self.now.depth) }
        ensures same { OnOk result (declared_of known.new ≡ declared_of known.old) }
    {
        let inside = match owner {
            None => Items::new(self.alloc),
            Some(owner) => parameters_of(self.alloc, &known.adts, owner.adt.name)?,
        };
        let count = known.types.len();
        declare_all(&mut known.types, &inside)?;
        let read = block_within(
            self.alloc,
            text,
            &known.types,
            self.turns,
            self.depth,
            tokens,
        )?;
        known.types.truncate(count);
        Ok(read)
    }

    #[tactic(auto, unfolding(crate::specs::Parse::with_body))]
    fn with_body(
        &self,
        text: &[u8],
        at: Place,
        scope: Option<Scope>,
        b: ReadBase,
        h: u32,
        head: Head,
        known: &mut Known,
        tokens: &mut Cursor<'_>,
    ) -> Result<(Item, u32), ParseError>
        requires turns { self.now.turns < 2 ^ 32 }
        requires depth { self.now.depth < 999 }
        requires some { 0 < self.now.depth }
        requires base { b.height + 1 < 2 ^ 32 }
        requires height { h ≤ self.now.depth }
        ensures reads { ReadsItem (spec.with_body (leaves_of text.now) self.now.turns self.now.depth (declared_of known.old) at scope b h head tokens.old) result known.new tokens.new }
        ensures low { b.height ≤ self.now.depth → IfOk result (λ y. y.1 ≤ self.now.depth + 1) }
    {
        let (body, high) = self.body(text, &head.owner, known, tokens)?;
        let height = b.height.max(h.max(high)) + 1;
        let item = Item::Function {
            at,
            scope,
            base: b.tree,
            head,
            body,
        };
        Ok((item, height))
    }

    /// What goes on behind the first declarator. Only a function has a body.
    fn behind_first(
        &self,
        text: &[u8],
        at: Place,
        scope: Option<Scope>,
        b: ReadBase,
        x: (Declarator, u32),
        known: &mut Known,
        tokens: &mut Cursor<'_>,
    ) -> Result<(Item, u32), ParseError>
        requires turns { self.now.turns < 2 ^ 32 }
        requires depth { self.now.depth < 999 }
        requires some { 0 < self.now.depth }
        requires base { b.height + 1 < 2 ^ 32 }
        requires height { x.1 ≤ self.now.depth }
        ensures reads { ReadsItem (spec.behind_first (leaves_of text.now) self.now.turns self.now.depth (declared_of known.old) at scope b x.0 x.1 tokens.old) result known.new tokens.new }
        ensures low { b.height ≤ self.now.depth → IfOk result (λ y. y.1 ≤ self.now.depth + 1) }
    {
        let (first, h) = x;
        match first {
            Declarator::Function(head) => {
                if tokens.next_is(TokenKind::LeftBrace) {
                    self.with_body(text, at, scope, b, h, head, known, tokens)
                } else {
                    self.declared_more(
                        text,
                        at,
                        scope,
                        b,
                        (Declarator::Function(head), h),
                        known,
                        tokens,
                    )
                }
            }
            Declarator::Global { dcl, value } => self.declared_more(
                text,
                at,
                scope,
                b,
                (Declarator::Global { dcl, value }, h),
                known,
                tokens,
            ),
        }
    }

    /// What follows what a declaration begins with.
    #[tactic(auto, unfolding(crate::specs::Parse::behind_begun))]
    pub(crate) fn behind_begun(
        &self,
        text: &[u8],
        at: Place,
        scope: Option<Scope>,
        begun: (ReadBase, FirstName),
        known: &mut Known,
        tokens: &mut Cursor<'_>,
    ) -> Result<(Item, u32), ParseError>
        requires turns { self.now.turns < 2 ^ 32 }
        requires depth { self.now.depth < 999 }
        requires some { 0 < self.now.depth }
        requires base { begun.0.height + 1 < 2 ^ 32 }
        ensures reads { ReadsItem (spec.behind_begun (leaves_of text.now) self.now.turns self.now.depth (declared_of known.old) at scope begun tokens.old) result known.new tokens.new }
        ensures low { begun.0.height ≤ self.now.depth → IfOk result (λ y. y.1 ≤ self.now.depth + 1) }
    {
        let (b, y) = begun;
        let x = self.declarator_after(text, y, known, tokens)?;
        self.behind_first(text, at, scope, b, x, known, tokens)
    }

    #[tactic(auto, unfolding(crate::specs::Parse::declared))]
    fn declared(
        &self,
        text: &[u8],
        at: Place,
        scope: Option<Scope>,
        known: &mut Known,
        tokens: &mut Cursor<'_>,
    ) -> Result<(Item, u32), ParseError>
        requires turns { self.now.turns < 2 ^ 32 }
        requires depth { self.now.depth < 999 }
        requires some { 0 < self.now.depth }
        ensures reads { ReadsItem (spec.declared (leaves_of text.now) self.now.turns self.now.depth (declared_of known.old) at scope tokens.old) result known.new tokens.new }
        ensures low { IfOk result (λ y. y.1 ≤ self.now.depth + 1) }
    {
        let owner = owner_of(self.alloc, known, self.turns, tokens)?;
        let start = tokens.fork();
        match self.begun_as(text, owner, known, tokens) {
            Ok(begun) => self.behind_begun(text, at, scope, begun, known, tokens),
            Err(ParseError::NoMemory) => Err(ParseError::NoMemory),
            Err(error) => Err(self.fault_of(text, at, scope, owner, error, known, &start)?),
        }
    }

    #[tactic(auto, unfolding(crate::specs::Parse::scoped, crate::specs::Parse::unscoped))]
    fn scoped_by(
        &self,
        text: &[u8],
        word: Option<Scope>,
        known: &mut Known,
        tokens: &mut Cursor<'_>,
    ) -> Result<(Item, u32), ParseError>
        requires turns { self.now.turns < 2 ^ 32 }
        requires depth { self.now.depth < 999 }
        requires some { 0 < self.now.depth }
        ensures reads { ReadsItem (spec.scoped_by (leaves_of text.now) self.now.turns self.now.depth (declared_of known.old) word tokens.old) result known.new tokens.new }
        ensures low { IfOk result (λ y. y.1 ≤ self.now.depth + 1) }
    {
        match word {
            Some(word) => {
                let w = tokens.take_if(true)?;
                self.declared(text, w.place, Some(word), known, tokens)
            }
            None => {
                let at = tokens.here();
                self.declared(text, at, None, known, tokens)
            }
        }
    }

    fn item_by(
        &self,
        text: &[u8],
        next: TokenKind,
        known: &mut Known,
        tokens: &mut Cursor<'_>,
    ) -> Result<(Item, u32), ParseError>
        requires turns { self.now.turns < 2 ^ 32 }
        requires depth { self.now.depth < 999 }
        requires some { 0 < self.now.depth }
        ensures reads { ReadsItem (spec.item_by (leaves_of text.now) self.now.turns self.now.depth (declared_of known.old) next tokens.old) result known.new tokens.new }
        ensures low { IfOk result (λ y. y.1 ≤ self.now.depth + 1) }
    {
        match next {
            TokenKind::Typedef => self.typedef(text, known, tokens),
            TokenKind::Enum => self.enumerated(text, known, tokens),
            TokenKind::Aggr => self.aggregated(text, AggregateKind::Aggr, known, tokens),
            TokenKind::Union => self.aggregated(text, AggregateKind::Union, known, tokens),
            TokenKind::Adt => self.aggregated(text, AggregateKind::Adt, known, tokens),
            _ => self.scoped_by(text, scope_word(next), known, tokens),
        }
    }

    #[tactic(auto, unfolding(crate::specs::Parse::one_item))]
    fn one_item(
        &self,
        text: &[u8],
        known: &mut Known,
        tokens: &mut Cursor<'_>,
    ) -> Result<(Item, u32), ParseError>
        requires turns { self.now.turns < 2 ^ 32 }
        requires depth { self.now.depth < 999 }
        requires some { 0 < self.now.depth }
        ensures reads { ReadsItem (spec.one_item (leaves_of text.now) self.now.turns self.now.depth (declared_of known.old) tokens.old) result known.new tokens.new }
        ensures low { IfOk result (λ y. y.1 ≤ self.now.depth + 1) }
    {
        let next = tokens.peek();
        self.item_by(text, next, known, tokens)
    }

    /// The items of a text, up to its end.
    pub(crate) fn text_items(
        &self,
        text: &[u8],
        tokens: &mut Cursor<'_>,
    ) -> Result<(Items<Item>, u32), ParseError>
        requires turns { self.now.turns < 2 ^ 32 }
        requires depth { self.now.depth < 999 }
        requires some { 0 < self.now.depth }
        ensures reads { Reads (spec.text_items (leaves_of text.now) self.now.turns self.now.depth tokens.old) result tokens.new }
        ensures low { IfOk result (λ y. y.1 ≤ self.now.depth + 1) }
    {
        let mut known = nothing_known(self.alloc);
        let mut found = Items::new(self.alloc);
        let mut height = 0u32;
        for _turn in 0..self.turns {
            if tokens.left() == 0 {
                return Ok((found, height));
            }
            let x = self.one_item(text, &mut known, tokens)?;
            found.push(x.0)?;
            height = height.max(x.1);
        }
        Err(tokens.refuse())
    }
}
