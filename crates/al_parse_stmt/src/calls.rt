//! The tree of a text.
ghost use Rattle.std.specs.Prelude.{◌≡◌, ◌≢◌, Ok, Err, IfOk};
ghost use Rattle.al_tree.specs.declared.fault.ParseFault.{ParseFault as SpecFault};
ghost use Rattle.al_tree.specs.declared.item.Tree.{Tree as SpecTree};
ghost use Rattle.al_tree.specs.Tree.{IsParseFault};
ghost use Rattle.al_parse_stmt.specs.Calls.{IsText};

use crate::names::names_of;
use crate::reader::Reader;
use al_lex::Tokens;
use al_tree::{Cursor, ParseStop, Tree, tokens_from};
use std::alloc::Global;

/// How many levels a tree may have.
const LIMIT: u32 = 200;

/// The tree of these tokens. A fault is told where the text has no tree of at most 200 levels. It names a token and its place. Where that is
/// unexpected, no tree of any height begins with the tokens up to and with it; a text that ends too early begins some tree and has none; and
/// where the token goes too deep, some tree begins with the tokens up to and with it, and every such tree has more than 200 levels.
pub fn parse(alloc: Global, toks: &Tokens) -> Result<Tree, ParseStop>
    ensures tree { IfOk result (IsText toks.now) }
    ensures whole { (tree : SpecTree) → IsText toks.now tree → result ≢ Err ParseStop.NoMemory → result ≡ Ok tree }
    ensures fault { (fault : SpecFault) → result ≡ Err (ParseStop.Fault fault) → IsParseFault toks.now fault }
{
    let turns = toks.len();
    let list = tokens_from(toks, 0);
    let reader = Reader {
        alloc,
        turns,
        depth: LIMIT - 1,
    };
    let mut tokens = Cursor::new(list);
    match reader.text_items(toks.text(), &mut tokens) {
        Ok((items, _)) => match names_of(alloc, toks.text(), list) {
            Ok(names) => Ok(Tree { items, names }),
            Err(_) => Err(ParseStop::NoMemory),
        },
        Err(error) => Err(ParseStop::of(toks, error)),
    }
}
