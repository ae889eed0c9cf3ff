//! A cursor over the tokens of a text, and the steps that every rule of a parser is made of.
ghost use Rattle.std.specs.Prelude.{◌≡◌, ◌≢◌, ◌≤◌, ℕ, true, false, length, OnOk};
ghost use Rattle.al_tree.specs.Words.{start};
ghost use Rattle.al_tree.specs.Reading as spec;
ghost use Rattle.al_tree.specs.Reading.{Reads};

use al_base::{NoMemory, Place};
use al_lex::{Token, TokenKind};
use std::marker::Model;

/// Why a rule has read nothing.
#[derive(Clone, Copy, Debug, PartialEq, Eq)]
pub enum ParseError {
    NoMemory,
    /// No tree goes on with the token before which this many tokens are left, that one included.
    Stuck(usize),
    /// This many tokens are left after the one that goes too deep.
    Deep(usize),
}

impl From<NoMemory> for ParseError {
    ghost use Rattle.std.specs.Prelude.{◌≡◌};
    ghost use Rattle.al_tree.specs.declared.cursor.ParseError.TheVariants as error;

    ghost from_gives = { λ _ e. e ≡ error.NoMemory };

    fn from(_: NoMemory) -> ParseError {
        ParseError::NoMemory
    }
}

/// Whether two kinds are the same.
#[tactic(auto, unfolding(crate::specs::Reading::same_kind))]
pub fn same_kind(a: TokenKind, b: TokenKind) -> bool
    ensures value { result ≡ spec.same_kind a b }
    ensures same { result ≡ true → a ≡ b }
    ensures other { result ≡ false → a ≢ b }
{
    a == b
}

/// The tokens that are still to be read. Contracts see their list, without the End token.
#[derive(Drop)]
pub struct Cursor<'a> {
    rest: &'a [Token],
}

impl<'a> Model for Cursor<'a> {
    ghost use Rattle.std.specs.Prelude.{List};
    ghost use Rattle.al_lex.specs.declared.token.Token.{Token as SpecToken};

    ghost Value = { List SpecToken };

    ghost view = { λ t. t.rest.now };
}

impl<'a> Cursor<'a> {
    /// A cursor over tokens, of which none is the End token.
    pub fn new(rest: &'a [Token]) -> Cursor<'a>
        ensures { result ≡ rest.now }
    {
        Cursor { rest }
    }

    /// Another cursor over the same tokens.
    pub fn fork(&self) -> Cursor<'a>
        ensures { result ≡ self.now }
    {
        Cursor { rest: self.rest }
    }

    /// How many tokens are left.
    pub fn left(&self) -> usize
        ensures { result ≡ length self.now }
    {
        self.rest.len()
    }

    /// The kind of the next token, End where none is left.
    #[tactic(auto, unfolding(crate::specs::Reading::kind))]
    pub fn peek(&self) -> TokenKind
        ensures { result ≡ spec.kind self.now }
    {
        match self.rest.split_first() {
            None => TokenKind::End,
            Some((first, _)) => first.kind,
        }
    }

    /// Whether the next token is of that kind.
    pub fn next_is(&self, kind: TokenKind) -> bool
        ensures { result ≡ spec.same_kind (spec.kind self.now) kind }
    {
        same_kind(self.peek(), kind)
    }

    /// The number of the name that comes next.
    #[tactic(auto, unfolding(crate::specs::Reading::name_number))]
    pub fn name(&self) -> u32
        ensures { result ≡ spec.name_number self.now }
    {
        match self.rest.split_first() {
            None => 0,
            Some((first, _)) => first.name,
        }
    }

    /// The place of the next token.
    pub fn here(&self) -> Place
        ensures { result ≡ start self.now }
    {
        match self.rest.split_first() {
            None => Place { line: 1, col: 1 },
            Some((first, _)) => first.place,
        }
    }

    /// That the next token is wrong.
    pub fn refuse(&self) -> ParseError
        ensures { result ≡ spec.refusal self.now }
    {
        ParseError::Stuck(self.left())
    }

    /// The next token, which goes too deep unless it fits.
    #[tactic(auto, unfolding(crate::specs::Reading::take_if))]
    pub fn take_if(&mut self, fits: bool) -> Result<Token, ParseError>
        ensures reads { Reads (spec.take_if fits self.old) result self.new }
        ensures fits { OnOk result (fits ≡ true) }
    {
        match self.rest.split_first() {
            None => Err(ParseError::Stuck(0)),
            Some((first, rest)) => {
                if !fits {
                    return Err(ParseError::Deep(rest.len()));
                }
                let first = *first;
                self.rest = rest;
                Ok(first)
            }
        }
    }

    /// The next token, of that kind, which goes too deep unless it fits.
    #[tactic(auto, unfolding(crate::specs::Reading::expect_if, crate::specs::Reading::take_if))]
    pub fn expect_if(&mut self, fits: bool, kind: TokenKind) -> Result<Token, ParseError>
        ensures { Reads (spec.expect_if fits kind self.old) result self.new }
    {
        if self.next_is(kind) {
            self.take_if(fits)
        } else {
            Err(self.refuse())
        }
    }

    /// The next token, of that kind.
    pub fn expect(&mut self, kind: TokenKind) -> Result<Token, ParseError>
        ensures { Reads (spec.expect kind self.old) result self.new }
    {
        self.expect_if(true, kind)
    }
}
