ghost use Rattle.std.specs.Prelude.{◌≡◌, ◌≢◌, ℕ, List, Result, IfOk, Err};
ghost use Rattle.al_link_lists.specs.Lists.{IsList, IsWrongLine, IsReading};
ghost use Rattle.al_link_lists.specs.declared.stop.ListStop.{ListStop as SpecStop};

use crate::line::first_line;
use crate::stop::ListStop;
use al_items::Items;
use al_words::Name;
use std::alloc::Global;

/// The most names of a list.
const MOST: usize = 64;

#[tactic(auto, using(crate::proofs::Texts::text_push))]
fn names_of(alloc: Global, text: &[u8]) -> Result<Items<Name>, ListStop>
    ensures list { IfOk result (IsList text.now) }
    ensures wrong { (k : ℕ) → result ≡ Err (ListStop.Line k) → IsWrongLine text.now k }
{
    let mut names = Items::new(alloc);
    let mut rest = text;
    while !rest.is_empty() || names.is_empty() {
        let wrong = ListStop::Line(names.len() as u32 + 1);
        if names.len() == MOST {
            return Err(wrong);
        }
        let Some((name, more)) = first_line(rest) else {
            return Err(wrong);
        };
        names.push(Name::new(String::from_str(alloc, name)?))?;
        rest = more;
    }
    Ok(names)
}

/// The names of a list, or the first line that is wrong, each exactly where it is so.
pub fn read_list(alloc: Global, text: &[u8]) -> Result<Items<Name>, ListStop>
    ensures reading { IsReading text.now result }
    ensures only { (r : Result (List (List ℕ)) SpecStop) → IsReading text.now r → r ≢ Err ListStop.NoMemory → result ≢ Err ListStop.NoMemory → result ≡ r }
{
    names_of(alloc, text)
}
