ghost use Rattle.std.specs.Prelude.{◌≡◌};
ghost use Rattle.al_type_function.specs.Branches as spec;

use al_items::Items;
use al_typed::{Function, Local, TStmt, Ty};

/// A function or par branch without its body.
#[derive(Drop)]
pub(crate) struct Outline {
    pub(crate) name: Items<u8>,
    pub(crate) line: u32,
    pub(crate) returns: Ty,
    /// How many of the locals are parameters.
    pub(crate) parameters: u32,
    pub(crate) locals: Items<Local>,
    /// The functions round it, the outermost first.
    pub(crate) around: Items<u32>,
    pub(crate) labels: u32,
}

/// It with its body.
pub(crate) fn with_body(o: Outline, body: TStmt) -> Function
    ensures { result ≡ spec.with_body o body }
{
    let Outline {
        name,
        line,
        returns,
        parameters,
        locals,
        around,
        labels,
    } = o;
    Function {
        name,
        line,
        returns,
        parameters,
        locals,
        around,
        labels,
        body,
    }
}
