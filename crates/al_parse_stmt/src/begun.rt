//! What a declaration begins with: a base type, and the stars and the name of its first declarator.
ghost use Rattle.std.specs.Prelude.{◌≡◌, ◌≢◌, ◌+◌, ◌<◌, ◌≤◌, ◌^◌, ℕ, Option, Some, None, IfOk};
ghost use Rattle.al_tree.specs.Leaves.{leaves_of};
ghost use Rattle.al_tree.specs.Reading.{Reads, kind};
ghost use Rattle.al_tree.specs.Types.{with_names};
ghost use Rattle.al_parse_type.specs.Within as type_spec;
ghost use Rattle.al_parse_stmt.specs.Ahead as ahead;
ghost use Rattle.al_parse_stmt.specs.Begun as spec;
ghost use Rattle.al_parse_stmt.specs.Known.{declared_of, Restores};

use crate::adts::declare_all;
use crate::heads::FirstName;
use crate::known::{Known, inside_of, parameters_of, some_parameters};
use crate::reader::Reader;
use al_base::{NoMemory, Place};
use al_items::Items;
use al_lex::{Token, TokenKind};
use al_parse_type::{ReadBase, other_name, sees_type_name, stars_from};
use al_tree::{Cursor, ParseError};

/// Whether an adt of that name may be the one whose parameters are types before it.
fn may_be(owner: Option<u32>, name: u32) -> bool
    ensures { result ≡ spec.may_be owner name }
{
    match owner {
        None => true,
        Some(owner) => name == owner,
    }
}

fn agrees(owner: Option<u32>, lent: bool) -> bool
    ensures { result ≡ spec.agrees owner lent }
{
    match owner {
        None => !lent,
        Some(_) => lent,
    }
}

impl Reader {
    /// Whether the parameters of the adt of that name are types from the next token on, since it is a bracket.
    fn lends(&self, known: &Known, name: u32, tokens: &Cursor<'_>) -> Result<bool, NoMemory>
        ensures { IfOk result (λ lent. lent ≡ spec.lends (declared_of known.now) name (kind tokens.now)) }
    {
        if !tokens.next_is(TokenKind::LeftBracket) {
            return Ok(false);
        }
        let parameters = parameters_of(self.alloc, &known.adts, name)?;
        Ok(some_parameters(&parameters))
    }

    #[tactic(auto, unfolding(crate::specs::Begun::lender))]
    fn lender(
        &self,
        owner: Option<u32>,
        at: Place,
        stars: u32,
        known: &Known,
        tokens: &mut Cursor<'_>,
    ) -> Result<FirstName, ParseError>
        ensures { Reads (spec.lender (declared_of known.now) self.now.turns owner at stars tokens.old) result tokens.new }
    {
        let a = tokens.take_if(true)?;
        let lent = self.lends(known, a.name, tokens)?;
        if agrees(owner, lent) {
            Ok(FirstName {
                at,
                stars,
                name: a,
                owned: true,
            })
        } else {
            Err(tokens.refuse())
        }
    }

    /// The name of an adt, which is that one if there is one.
    #[tactic(auto, unfolding(crate::specs::Begun::adt_name))]
    fn adt_name(
        &self,
        owner: Option<u32>,
        at: Place,
        stars: u32,
        known: &Known,
        tokens: &mut Cursor<'_>,
    ) -> Result<FirstName, ParseError>
        ensures { Reads (spec.adt_name (declared_of known.now) self.now.turns owner at stars tokens.old) result tokens.new }
    {
        if may_be(owner, tokens.name()) {
            self.lender(owner, at, stars, known, tokens)
        } else {
            Err(tokens.refuse())
        }
    }

    /// The name of a global, or of a function of no adt.
    fn new_name(
        &self,
        owner: Option<u32>,
        at: Place,
        stars: u32,
        known: &Known,
        tokens: &mut Cursor<'_>,
    ) -> Result<FirstName, ParseError>
        ensures { Reads (spec.new_name (declared_of known.now) self.now.turns owner owner at stars tokens.old) result tokens.new }
    {
        match owner {
            None => {
                let name = other_name(&known.types, tokens)?;
                Ok(FirstName {
                    at,
                    stars,
                    name,
                    owned: false,
                })
            }
            Some(_) => Err(tokens.refuse()),
        }
    }

    /// The stars and the name of the first declarator, where the parameters of that adt are types before it.
    #[tactic(auto, unfolding(crate::specs::Begun::begins))]
    fn begins(
        &self,
        owner: Option<u32>,
        known: &Known,
        tokens: &mut Cursor<'_>,
    ) -> Result<FirstName, ParseError>
        requires turns { self.now.turns < 2 ^ 32 }
        ensures { Reads (spec.begins (declared_of known.now) self.now.turns owner tokens.old) result tokens.new }
    {
        let at = tokens.here();
        let stars = stars_from(self.turns, tokens)?;
        if sees_type_name(&known.types, tokens) {
            self.adt_name(owner, at, stars, known, tokens)
        } else {
            self.new_name(owner, at, stars, known, tokens)
        }
    }

    /// The type of a result, in which these names are types too.
    fn base_among(
        &self,
        text: &[u8],
        inside: &Items<u32>,
        known: &mut Known,
        tokens: &mut Cursor<'_>,
    ) -> Result<ReadBase, ParseError>
        requires depth { self.now.depth + 1 < 2 ^ 32 }
        ensures reads { Reads (type_spec.base_within (leaves_of text.now) (with_names known.old.types inside.now) self.now.turns self.now.depth tokens.old) result tokens.new }
        ensures low { IfOk result (λ y. y.height ≤ self.now.depth) }
        ensures same { Restores result (declared_of known.old) (declared_of known.new) }
    {
        let count = known.types.len();
        declare_all(&mut known.types, inside)?;
        let read = self.base(text, &known.types, tokens);
        known.types.truncate(count);
        read
    }

    /// A base type and what follows it, where the parameters of that adt are types.
    #[tactic(auto, unfolding(crate::specs::Begun::begun_as))]
    pub(crate) fn begun_as(
        &self,
        text: &[u8],
        owner: Option<u32>,
        known: &mut Known,
        tokens: &mut Cursor<'_>,
    ) -> Result<(ReadBase, FirstName), ParseError>
        requires turns { self.now.turns < 2 ^ 32 }
        requires depth { self.now.depth + 1 < 2 ^ 32 }
        ensures reads { Reads (spec.begun_as (leaves_of text.now) self.now.turns self.now.depth (declared_of known.old) owner tokens.old) result tokens.new }
        ensures low { IfOk result (λ y. y.0.height ≤ self.now.depth) }
        ensures same { Restores result (declared_of known.old) (declared_of known.new) }
    {
        let inside = inside_of(self.alloc, known, owner)?;
        let b = self.base_among(text, &inside, known, tokens)?;
        let y = self.begins(owner, known, tokens)?;
        Ok((b, y))
    }
}
