ghost use Rattle.std.specs.Prelude.{◌≡◌};

use al_base::NoMemory;
use al_tree::TypeTree;
use std::alloc::Global;
use std::marker::Model;

/// Types that a text writes, in text order. Contracts see their list.
#[derive(Drop)]
pub(crate) struct Types<'t> {
    list: Vec<&'t TypeTree>,
}

impl<'t> Model for Types<'t> {
    ghost use Rattle.std.specs.Prelude.{List, map};
    ghost use Rattle.std.specs.Coded.{codes};
    ghost use Rattle.al_tree.specs.contracts.type_tree.TypeTree as tree;
    ghost use Rattle.al_tree.specs.declared.type_tree.TypeTree.{TypeTree};

    ghost Value = { List TypeTree };

    ghost coded = { Prim.hlevel (codes, tree.the_row.coded) };

    ghost view = { λ t. map (λ type. type.now) t.list.items };
}

impl<'t> Types<'t> {
    ghost use Rattle.std.specs.Prelude.{◌≡◌, ◌++◌, ◌∷◌, [], map, OnOk};

    /// None.
    pub(crate) fn new(alloc: Global) -> Types<'t>
        ensures { result ≡ [] }
    {
        Types {
            list: Vec::new(alloc),
        }
    }

    /// One more.
    pub(crate) fn push(&mut self, ty: &'t TypeTree) -> Result<(), NoMemory>
        ensures { OnOk result (self.new ≡ self.old ++ ty.now ∷ []) }
    {
        self.list.push(ty)?;
        Ok(())
    }

    /// Each where it stands.
    pub(crate) fn as_slice(&self) -> &[&'t TypeTree]
        ensures { map (λ type. type.now) result.now ≡ self.now }
    {
        self.list.as_slice()
    }
}
