//! What the rules of parameters and members share.
ghost use Rattle.std.specs.Prelude.{◌≡◌, ◌≤◌, ◌<◌, ◌+◌, ◌^◌, pred, true, OnOk, IfOk};
ghost use Rattle.al_tree.specs.Reading.{Reads, expect_if};
ghost use Rattle.al_tree.specs.Types as grammar;
ghost use Rattle.al_parse_type.specs.Parse as type_spec;
ghost use Rattle.al_parse_member.specs.Parameters as spec;

use al_base::Place;
use al_lex::{Token, TokenKind};
use al_parse_type::{ReadBase, sees_type_name};
use al_tree::{Cursor, Name, ParseError, TypeNames, TypeTree};
use std::alloc::Global;

/// Where parts of items are parsed.
#[derive(Clone, Copy)]
pub struct Context<'t> {
    pub alloc: Global,
    /// The text that the tokens were cut from.
    pub text: &'t [u8],
    /// The names that stand for types here.
    pub types: &'t TypeNames,
    /// How many turns a loop makes at most: more than there are tokens.
    pub turns: usize,
    /// How many levels what is read may have.
    pub depth: u32,
}

/// A name where its token stands.
pub fn name_at(t: Token) -> Name
    ensures { result ≡ grammar.name_at t }
{
    Name {
        at: t.place,
        name: t.name,
    }
}

/// A base type that is read whole, with no levels in it.
pub(crate) fn flat_base(tree: TypeTree) -> ReadBase
    ensures { result ≡ type_spec.sized_base tree 0 }
{
    ReadBase {
        tree,
        height: 0,
        takes_bracket: false,
    }
}

/// The token of a type's name, which comes next.
#[tactic(auto, unfolding(crate::specs::Parameters::type_name))]
pub fn type_name(types: &TypeNames, tokens: &mut Cursor<'_>) -> Result<Token, ParseError>
    ensures { Reads (spec.type_name types.now tokens.old) result tokens.new }
{
    if sees_type_name(types, tokens) {
        tokens.take_if(true)
    } else {
        Err(tokens.refuse())
    }
}

/// A brace that opens, which goes too deep unless it fits.
#[tactic(auto, unfolding(al_tree::specs::Reading::expect_if))]
pub(crate) fn open_brace(fits: bool, tokens: &mut Cursor<'_>) -> Result<Token, ParseError>
    ensures reads { Reads (expect_if fits TokenKind.LeftBrace tokens.old) result tokens.new }
    ensures fits { OnOk result (fits ≡ true) }
{
    if !tokens.next_is(TokenKind::LeftBrace) {
        return Err(tokens.refuse());
    }
    tokens.take_if(fits)
}
