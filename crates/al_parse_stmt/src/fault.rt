//! The fault of a declaration that is read in no way.
ghost use Rattle.std.specs.Prelude.{◌≡◌, ◌+◌, ◌-◌, ◌==◌, ◌<◌, ◌≤◌, ◌^◌, ℕ, take, length, [], ◌∷◌, Option, Some, None, IfOk, OnOk};
ghost use Rattle.al_tree.specs.Leaves.{leaves_of};
ghost use Rattle.al_parse_stmt.specs.Begun as spec;
ghost use Rattle.al_parse_stmt.specs.Parse as parse;
ghost use Rattle.al_parse_stmt.specs.Known.{declared_of};

use crate::heads::FirstName;
use crate::known::{Known, owners};
use crate::reader::Reader;
use al_base::{NoMemory, Place};
use al_items::Items;
use al_lex::Token;
use al_parse_type::ReadBase;
use al_tree::{Cursor, ParseError, Scope};
use std::alloc::Global;

/// The less of that and how many tokens are left with the one that the fault names.
fn nearer(error: ParseError, left: usize) -> usize
    ensures { result ≡ spec.nearer error left }
{
    match error {
        ParseError::NoMemory => 0,
        ParseError::Stuck(n) => n.min(left),
        ParseError::Deep(n) => { if n < left { n + 1 } else { left } }
    }
}

/// Whether the token that leaves so many is the one behind which that many are left.
fn is_at(behind: usize, left: usize) -> bool
    ensures { result ≡ (behind + 1 == left) }
{
    behind < left && left - behind == 1
}

/// How many tokens there are up to and with the one that leaves so many.
fn count_to(left: usize, tokens: &Cursor<'_>) -> usize
    ensures { result ≡ length tokens.now - (left - 1) }
{
    tokens.left().saturating_sub(left.saturating_sub(1))
}

/// The first tokens, that many or all.
fn first_tokens(alloc: Global, count: usize, tokens: &Cursor<'_>) -> Result<Items<Token>, NoMemory>
    ensures { IfOk result (λ all. all ≡ take count tokens.now) }
{
    let mut all = Items::new(alloc);
    let mut rest = tokens.fork();
    for _turn in 0..count {
        match rest.take_if(true) {
            Ok(t) => all.push(t)?,
            Err(ParseError::NoMemory) => return Err(NoMemory),
            Err(ParseError::Stuck(_)) => return Ok(all),
            Err(ParseError::Deep(_)) => return Ok(all),
        }
    }
    Ok(all)
}

/// The tokens up to and with the one that leaves so many.
fn up_to(alloc: Global, left: usize, tokens: &Cursor<'_>) -> Result<Items<Token>, NoMemory>
    ensures { IfOk result (λ all. all ≡ spec.up_to left tokens.now) }
{
    first_tokens(alloc, count_to(left, tokens), tokens)
}

/// The fault at the token that leaves so many.
fn fault_at(left: usize, alive: bool) -> ParseError
    ensures { result ≡ spec.fault_at left alive }
{
    if left == 0 {
        return ParseError::Stuck(0);
    }
    if alive {
        ParseError::Deep(left - 1)
    } else {
        ParseError::Stuck(left)
    }
}

/// The fault at a token that leaves so many, behind the name of a declaration: it is refused there or goes too deep.
fn fault_behind(left: usize, refused: bool) -> ParseError
    ensures { result ≡ parse.fault_behind left refused }
{
    if refused {
        ParseError::Stuck(left)
    } else {
        ParseError::Deep(left.saturating_sub(1))
    }
}

/// A list with one token.
fn only(alloc: Global, t: Token) -> Result<Items<Token>, NoMemory>
    ensures { IfOk result (λ all. all ≡ t ∷ []) }
{
    let mut all = Items::new(alloc);
    all.push(t)?;
    Ok(all)
}

/// How many of all tokens are left where that many of the first ones are.
fn left_of(all: usize, first: usize, left: usize) -> usize
    ensures { result ≡ all - (first - left) }
{
    all.saturating_sub(first.saturating_sub(left))
}

impl Reader {
    /// The same with as many levels as tokens may be left.
    fn deeper(&self) -> Reader
        requires turns { self.now.turns < 2 ^ 32 }
        ensures turns { result.turns ≡ self.now.turns }
        ensures depth { result.depth ≡ self.now.turns - 1 }
    {
        Reader {
            alloc: self.alloc,
            turns: self.turns,
            depth: self.turns.saturating_sub(1) as u32,
        }
    }

    /// The less of that and how many tokens are left with the fault of this way to read them.
    fn less_left(
        &self,
        text: &[u8],
        owner: Option<u32>,
        left: usize,
        known: &mut Known,
        tokens: &Cursor<'_>,
    ) -> Result<usize, NoMemory>
        requires turns { self.now.turns < 2 ^ 32 }
        requires depth { self.now.depth < 999 }
        ensures value { IfOk result (λ n. n ≡ spec.less_left (spec.begun_as (leaves_of text.now) self.now.turns self.now.depth (declared_of known.old) owner tokens.now) left) }
        ensures same { OnOk result (declared_of known.new ≡ declared_of known.old) }
    {
        let mut further = tokens.fork();
        match self.begun_as(text, owner, known, &mut further) {
            Ok(_) => Ok(left),
            Err(ParseError::NoMemory) => Err(NoMemory),
            Err(error) => Ok(nearer(error, left)),
        }
    }

    /// The least of that and what the ways of these adts leave.
    fn least_of(
        &self,
        text: &[u8],
        names: &Items<u32>,
        mut left: usize,
        known: &mut Known,
        tokens: &Cursor<'_>,
    ) -> Result<usize, NoMemory>
        requires turns { self.now.turns < 2 ^ 32 }
        requires depth { self.now.depth < 999 }
        ensures value { IfOk result (λ n. n ≡ spec.least_left (λ owner. spec.begun_as (leaves_of text.now) self.now.turns self.now.depth (declared_of known.old) owner tokens.now) names.now left) }
        ensures same { OnOk result (declared_of known.new ≡ declared_of known.old) }
    {
        for name in names.as_slice() {
            left = self.less_left(text, Some(*name), left, known, tokens)?;
        }
        Ok(left)
    }

    /// How many tokens the fault furthest on leaves, where some way has that fault.
    #[tactic(auto, unfolding(crate::specs::Begun::least))]
    fn least(
        &self,
        text: &[u8],
        names: &Items<u32>,
        error: ParseError,
        known: &mut Known,
        tokens: &Cursor<'_>,
    ) -> Result<usize, NoMemory>
        requires turns { self.now.turns < 2 ^ 32 }
        requires depth { self.now.depth < 999 }
        requires names { names.now ≡ spec.owners (declared_of known.old).adts }
        ensures value { IfOk result (λ n. n ≡ spec.least (leaves_of text.now) self.now.turns self.now.depth (declared_of known.old) tokens.now error) }
        ensures same { OnOk result (declared_of known.new ≡ declared_of known.old) }
    {
        let left = nearer(error, tokens.left());
        let left = self.less_left(text, None, left, known, tokens)?;
        self.least_of(text, names, left, known, tokens)
    }

    /// Whether these first tokens are read in that way or can go on, with any levels.
    fn can_go_on(
        &self,
        text: &[u8],
        owner: Option<u32>,
        known: &mut Known,
        first: &[Token],
    ) -> Result<bool, NoMemory>
        requires turns { self.now.turns < 2 ^ 32 }
        ensures value { IfOk result (λ yes. yes ≡ spec.can_go_on (spec.deeper_as (leaves_of text.now) self.now.turns (declared_of known.old) owner first.now)) }
        ensures same { OnOk result (declared_of known.new ≡ declared_of known.old) }
    {
        let mut tokens = Cursor::new(first);
        match self.deeper().begun_as(text, owner, known, &mut tokens) {
            Ok(_) => Ok(true),
            Err(ParseError::NoMemory) => Err(NoMemory),
            Err(ParseError::Stuck(n)) => Ok(n == 0),
            Err(ParseError::Deep(_)) => Ok(false),
        }
    }

    /// Whether a way to read the tokens goes on with the one that leaves so many. The first ones are those up to it.
    fn alive(
        &self,
        text: &[u8],
        left: usize,
        owner: Option<u32>,
        known: &mut Known,
        tokens: &Cursor<'_>,
        first: &[Token],
    ) -> Result<bool, NoMemory>
        requires turns { self.now.turns < 2 ^ 32 }
        requires depth { self.now.depth < 999 }
        requires first { first.now ≡ spec.up_to left tokens.now }
        ensures value { IfOk result (λ yes. yes ≡ spec.alive (leaves_of text.now) self.now.turns self.now.depth (declared_of known.old) tokens.now left owner) }
        ensures same { OnOk result (declared_of known.new ≡ declared_of known.old) }
    {
        let mut further = tokens.fork();
        match self.begun_as(text, owner, known, &mut further) {
            Err(ParseError::NoMemory) => Err(NoMemory),
            Err(ParseError::Deep(behind)) => {
                if is_at(behind, left) {
                    Ok(true)
                } else {
                    self.can_go_on(text, owner, known, first)
                }
            }
            _ => Ok(false),
        }
    }

    /// Whether the way of some of these adts does.
    fn some_alive(
        &self,
        text: &[u8],
        left: usize,
        names: &Items<u32>,
        known: &mut Known,
        tokens: &Cursor<'_>,
        first: &[Token],
    ) -> Result<bool, NoMemory>
        requires turns { self.now.turns < 2 ^ 32 }
        requires depth { self.now.depth < 999 }
        requires first { first.now ≡ spec.up_to left tokens.now }
        ensures value { IfOk result (λ yes. yes ≡ spec.some_alive (spec.alive (leaves_of text.now) self.now.turns self.now.depth (declared_of known.old) tokens.now left) names.now) }
        ensures same { OnOk result (declared_of known.new ≡ declared_of known.old) }
    {
        for name in names.as_slice() {
            if self.alive(text, left, Some(*name), known, tokens, first)? {
                return Ok(true);
            }
        }
        Ok(false)
    }

    /// Whether some way goes on with the token that leaves so many.
    #[tactic(auto, unfolding(crate::specs::Begun::any_alive))]
    fn any_alive(
        &self,
        text: &[u8],
        left: usize,
        names: &Items<u32>,
        known: &mut Known,
        tokens: &Cursor<'_>,
        first: &[Token],
    ) -> Result<bool, NoMemory>
        requires turns { self.now.turns < 2 ^ 32 }
        requires depth { self.now.depth < 999 }
        requires first { first.now ≡ spec.up_to left tokens.now }
        requires names { names.now ≡ spec.owners (declared_of known.old).adts }
        ensures value { IfOk result (λ yes. yes ≡ spec.any_alive (leaves_of text.now) self.now.turns self.now.depth (declared_of known.old) tokens.now left) }
        ensures same { OnOk result (declared_of known.new ≡ declared_of known.old) }
    {
        if self.alive(text, left, None, known, tokens, first)? {
            return Ok(true);
        }
        self.some_alive(text, left, names, known, tokens, first)
    }

    /// Whether the token is refused behind a name that was read with more levels.
    fn refuses(
        &self,
        text: &[u8],
        at: Place,
        scope: Option<Scope>,
        begun: (ReadBase, FirstName),
        known: &mut Known,
        token: Token,
    ) -> Result<bool, NoMemory>
        requires turns { self.now.turns < 2 ^ 32 }
        requires depth { self.now.depth < 999 }
        requires some { 0 < self.now.depth }
        requires base { begun.0.height + 1 < 2 ^ 32 }
        ensures { IfOk result (λ yes. yes ≡ parse.refuses (parse.behind_begun (leaves_of text.now) self.now.turns self.now.depth (declared_of known.old) at scope begun (token ∷ []))) }
    {
        let one = only(self.alloc, token)?;
        let mut next = Cursor::new(one.as_slice());
        match self.behind_begun(text, at, scope, begun, known, &mut next) {
            Ok(_) => Ok(false),
            Err(ParseError::NoMemory) => Err(NoMemory),
            Err(ParseError::Stuck(n)) => Ok(n != 0),
            Err(ParseError::Deep(_)) => Ok(false),
        }
    }

    /// The fault at the next token, which stands behind a name that was read with more levels. It is one of the first ones of all.
    #[tactic(auto, using(crate::proofs::NextToken::some_next, crate::proofs::NextToken::no_next))]
    fn decided_at(
        &self,
        text: &[u8],
        at: Place,
        scope: Option<Scope>,
        all: &Cursor<'_>,
        first: &[Token],
        begun: (ReadBase, FirstName),
        known: &mut Known,
        tokens: &Cursor<'_>,
    ) -> Result<Option<ParseError>, NoMemory>
        requires turns { self.now.turns < 2 ^ 32 }
        requires depth { self.now.depth < 999 }
        requires some { 0 < self.now.depth }
        requires base { begun.0.height + 1 < 2 ^ 32 }
        ensures { IfOk result (λ x. x ≡ parse.decided_at (leaves_of text.now) self.now.turns self.now.depth (declared_of known.old) at scope all.now first.now begun tokens.now) }
    {
        let left = left_of(all.left(), first.len(), tokens.left());
        let mut rest = tokens.fork();
        match rest.take_if(true) {
            Ok(t) => {
                let refused = self.refuses(text, at, scope, begun, known, t)?;
                Ok(Some(fault_behind(left, refused)))
            }
            Err(ParseError::NoMemory) => Err(NoMemory),
            Err(ParseError::Stuck(_)) => Ok(None),
            Err(ParseError::Deep(_)) => Ok(None),
        }
    }

    /// The fault of the way that the brackets tell, where it is read with more levels.
    fn decided_by(
        &self,
        text: &[u8],
        at: Place,
        scope: Option<Scope>,
        owner: Option<u32>,
        known: &mut Known,
        all: &Cursor<'_>,
        first: &[Token],
    ) -> Result<Option<ParseError>, NoMemory>
        requires turns { self.now.turns < 2 ^ 32 }
        requires depth { self.now.depth < 999 }
        requires some { 0 < self.now.depth }
        ensures { IfOk result (λ x. x ≡ parse.decided_by (leaves_of text.now) self.now.turns self.now.depth (declared_of known.old) at scope all.now first.now (spec.deeper_as (leaves_of text.now) self.now.turns (declared_of known.old) owner first.now)) }
    {
        let mut tokens = Cursor::new(first);
        match self.deeper().begun_as(text, owner, known, &mut tokens) {
            Ok(begun) => self.decided_at(text, at, scope, all, first, begun, known, &tokens),
            Err(ParseError::NoMemory) => Err(NoMemory),
            Err(_) => Ok(None),
        }
    }

    /// The same, where it goes too deep before the token that leaves so many.
    fn decided(
        &self,
        text: &[u8],
        at: Place,
        scope: Option<Scope>,
        owner: Option<u32>,
        left: usize,
        error: ParseError,
        known: &mut Known,
        all: &Cursor<'_>,
        first: &[Token],
    ) -> Result<Option<ParseError>, NoMemory>
        requires turns { self.now.turns < 2 ^ 32 }
        requires depth { self.now.depth < 999 }
        requires some { 0 < self.now.depth }
        ensures { IfOk result (λ x. x ≡ parse.decided (leaves_of text.now) self.now.turns self.now.depth (declared_of known.old) at scope all.now first.now left error (spec.deeper_as (leaves_of text.now) self.now.turns (declared_of known.old) owner first.now)) }
    {
        match error {
            ParseError::Deep(behind) => {
                if is_at(behind, left) {
                    Ok(None)
                } else {
                    self.decided_by(text, at, scope, owner, known, all, first)
                }
            }
            _ => Ok(None),
        }
    }

    /// The fault of tokens that are refused so in the way that the brackets tell.
    #[tactic(auto, unfolding(crate::specs::Parse::fault_with))]
    pub(crate) fn fault_of(
        &self,
        text: &[u8],
        at: Place,
        scope: Option<Scope>,
        owner: Option<u32>,
        error: ParseError,
        known: &mut Known,
        tokens: &Cursor<'_>,
    ) -> Result<ParseError, NoMemory>
        requires turns { self.now.turns < 2 ^ 32 }
        requires depth { self.now.depth < 999 }
        requires some { 0 < self.now.depth }
        ensures { IfOk result (λ e. e ≡ parse.fault_with (leaves_of text.now) self.now.turns self.now.depth (declared_of known.old) at scope tokens.now owner error (spec.least (leaves_of text.now) self.now.turns self.now.depth (declared_of known.old) tokens.now error)) }
    {
        let names = owners(self.alloc, &known.adts)?;
        let left = self.least(text, &names, error, known, tokens)?;
        let first = up_to(self.alloc, left, tokens)?;
        let alive = self.any_alive(text, left, &names, known, tokens, first.as_slice())?;
        let decided = self.decided(
            text,
            at,
            scope,
            owner,
            left,
            error,
            known,
            tokens,
            first.as_slice(),
        )?;
        match decided {
            Some(found) => Ok(found),
            None => Ok(fault_at(left, alive)),
        }
    }
}
