use al_items::{Boxed, Items};
use al_typed::{TExpr, TReceiver, Ty};

/// What is called.
#[derive(Drop)]
pub enum Callee {
    Print,
    Terminate,
    /// A function by its name.
    Function {
        returns: Ty,
        number: u32,
        /// The object before the name of a function of an adt.
        receiver: Option<Boxed<TReceiver>>,
        /// The types of the arguments that are written.
        parameters: Items<Ty>,
    },
    /// A pointer to a function.
    Pointer {
        returns: Ty,
        pointer: Boxed<TExpr>,
        parameters: Items<Ty>,
    },
}
