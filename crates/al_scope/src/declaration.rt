use crate::names::Names;
use al_base::Place;
use al_items::Items;
use al_tree::{Constants, Name};

/// What a name in an expression stands for. Numbers count from 0.
#[derive(Clone, Copy, Debug, PartialEq, Eq)]
pub enum Declaration {
    /// A global by its number among the text's, in the order of their first declarations.
    Global(usize),
    /// A function outside of adts by its number among these, in the order of their first declarations.
    Function(usize),
    /// An enum constant by its number in text order.
    Constant(usize),
    /// A parameter or local of the function at hand by its number there: parameters first, those without a name too, then
    /// the others in text order. A branch of a par is a function of its own.
    Local(usize),
    /// A parameter or local of a function round the par branch at hand. `around` counts these functions from the outermost.
    Outer { around: usize, number: usize },
    /// The function that writes.
    Print,
    /// The function that ends the program.
    Terminate,
}

/// What the name at a place stands for: one in an expression, or one that a declaration gives to a global, a function, an
/// enum constant, a parameter or a local.
#[derive(Clone, Copy, Debug, PartialEq, Eq)]
pub struct Resolved {
    pub at: Place,
    pub declaration: Declaration,
}

/// What the names of a text stand for.
#[derive(Drop)]
pub struct Scopes {
    /// The enum constants in text order with their values. A bound's value is `bound_value` of these.
    pub constants: Constants,
    /// The globals, where they are first declared.
    pub globals: Items<Name>,
    /// The functions outside of adts, where they are first declared.
    pub functions: Items<Name>,
    pub names: Names,
}

impl Scopes {
    ghost use Rattle.std.specs.Prelude.{◌≡◌};
    ghost use Rattle.al_scope.specs.Firsts as spec;

    /// What the name at a place stands for.
    pub fn declaration(&self, at: Place) -> Option<Declaration>
        ensures { result ≡ spec.declaration_at self.now.names at }
    {
        self.names.declaration(at)
    }
}
