//! Where items are parsed, and the parts of other crates that they begin with.
ghost use Rattle.std.specs.Prelude.{◌≡◌, ◌+◌, ◌<◌, ◌≤◌, ◌^◌, IfOk};
ghost use Rattle.al_tree.specs.Leaves.{leaves_of};
ghost use Rattle.al_tree.specs.Reading.{Reads};
ghost use Rattle.al_parse_type.specs.Within as type_spec;
ghost use Rattle.al_parse_member.specs.Parameters as parameters;

use crate::known::Known;
use al_items::Items;
use al_parse_member::Context;
use al_parse_type::{ReadBase, base_within};
use al_tree::{Cursor, Parameter, ParseError, TypeNames};
use std::alloc::Global;

/// Where items are parsed, of at most `depth + 1` levels.
#[derive(Clone, Copy)]
pub(crate) struct Reader {
    pub(crate) alloc: Global,
    /// How many turns a loop makes at most: more than there are tokens.
    pub(crate) turns: usize,
    /// How many levels what stands inside an item may have.
    pub(crate) depth: u32,
}

impl Reader {
    /// The same, where these names are types.
    pub(crate) fn context<'a>(&self, text: &'a [u8], types: &'a TypeNames) -> Context<'a>
        ensures text { result.text.now ≡ text.now }
        ensures types { result.types.now ≡ types.now }
        ensures turns { result.turns ≡ self.now.turns }
        ensures depth { result.depth ≡ self.now.depth }
    {
        Context {
            alloc: self.alloc,
            text,
            types,
            turns: self.turns,
            depth: self.depth,
        }
    }

    pub(crate) fn base(
        &self,
        text: &[u8],
        types: &TypeNames,
        tokens: &mut Cursor<'_>,
    ) -> Result<ReadBase, ParseError>
        requires depth { self.now.depth + 1 < 2 ^ 32 }
        ensures reads { Reads (type_spec.base_within (leaves_of text.now) types.now self.now.turns self.now.depth tokens.old) result tokens.new }
        ensures low { IfOk result (λ y. y.height ≤ self.now.depth) }
    {
        base_within(self.alloc, text, types, self.turns, self.depth, tokens)
    }

    pub(crate) fn parameters(
        &self,
        text: &[u8],
        known: &Known,
        tokens: &mut Cursor<'_>,
    ) -> Result<(Items<Parameter>, u32), ParseError>
        requires turns { self.now.turns < 2 ^ 32 }
        requires depth { self.now.depth < 999 }
        ensures reads { Reads (parameters.parameter_list (leaves_of text.now) known.now.types self.now.turns self.now.depth tokens.old) result tokens.new }
        ensures low { IfOk result (λ y. y.1 ≤ self.now.depth) }
    {
        self.context(text, &known.types).parameter_list(tokens)
    }
}
