use indexmap::IndexSet;
use std::alloc::{AllocError, Global};
use std::marker::Model;

/// The names of a text, each once, in the order first seen. Contracts see the list of their bytes.
#[derive(Drop)]
pub(crate) struct Names<'t> {
    set: IndexSet<&'t [u8]>,
}

impl<'t> Model for Names<'t> {
    ghost use Rattle.std.specs.Prelude.{List, ℕ, map};

    ghost Value = { List (List ℕ) };

    ghost view = { λ n. map (λ name. name.now) n.set.keys };
}

impl<'t> Names<'t> {
    ghost use Rattle.std.specs.Prelude.{◌≡◌, ◌<◌, ◌≤◌, ◌^◌, [], length, IfOk, OnOk};
    ghost use Rattle.std.specs.List.{position_or_len};
    ghost use Rattle.al_lex.specs.Written.{noted, same_bytes};

    pub(crate) fn new(alloc: Global) -> Names<'t>
        ensures { result ≡ [] }
    {
        Names {
            set: IndexSet::new(alloc),
        }
    }

    /// The number of the name, which goes last if it is new.
    pub(crate) fn number(&mut self, name: &'t [u8]) -> Result<u32, AllocError>
        requires { length self.old ≤ 2 ^ 20 }
        ensures names { OnOk result (self.new ≡ noted self.old name.now) }
        ensures number { IfOk result (λ n. n ≡ position_or_len (same_bytes name.now) self.old) }
    {
        let (number, _) = self.set.insert_full(name)?;
        Ok(number as u32)
    }
}
