use crate::expression::{TExpr, TPlace, TTarget};
use crate::ty::Ty;
use al_items::{Boxed, Items};

/// The bounds of an iterator: ints, the second of which it does not come to.
#[derive(Drop)]
pub struct TBounds {
    pub from: TExpr,
    pub to: TExpr,
}

/// A local that a declaration gives a value.
#[derive(Drop)]
pub struct TInitializer {
    /// The local's number in the function.
    pub local: u32,
    pub value: TExpr,
}

/// The communication of a case of an alt.
#[derive(Drop)]
pub enum TCommunication {
    /// `<-chan`, of a value of that type
    Receive {
        ty: Ty,
        chan: TExpr,
    },
    /// `target = <-chan`: the value is converted to the type of the target.
    ReceiveInto {
        ty: Ty,
        target: TTarget,
        chan: TExpr,
    },
    /// `chan <-= value`
    Send {
        chan: TExpr,
        value: TExpr,
    },
}

/// A statement, a local declaration, or the label of a case.
///
/// The line is that of the first token. Labels and rescues are numbered together, from 0 in each function.
#[derive(Drop)]
pub enum TStmt {
    Empty {
        line: u32,
    },
    Block {
        line: u32,
        body: Items<TStmt>,
    },
    /// A list of locals, of which these are given values.
    Declare {
        line: u32,
        initializers: Items<TInitializer>,
    },
    /// An expression, repeated for each turn of its iterators, the first of which is the outermost.
    Value {
        line: u32,
        iterators: Items<TBounds>,
        value: TExpr,
    },
    Label {
        line: u32,
        number: u32,
        body: Boxed<TStmt>,
    },
    If {
        line: u32,
        condition: TExpr,
        then: Boxed<TStmt>,
        other: Option<Boxed<TStmt>>,
    },
    While {
        line: u32,
        condition: TExpr,
        body: Boxed<TStmt>,
    },
    Do {
        line: u32,
        body: Boxed<TStmt>,
        condition: TExpr,
    },
    For {
        line: u32,
        start: Option<TExpr>,
        condition: Option<TExpr>,
        step: Option<TExpr>,
        body: Boxed<TStmt>,
    },
    /// The body has the labels of cases, each before the statements of its case. It begins with a label or is empty.
    Switch {
        line: u32,
        value: TExpr,
        body: Items<TStmt>,
    },
    /// `case label:`, by the bits of its value in the kind of the switch. It is no statement of its own.
    Case {
        label: TExpr,
        bits: u64,
    },
    Default,
    /// As the body of a switch, where each label has one communication.
    Alt {
        line: u32,
        body: Items<TStmt>,
    },
    AltCase {
        communication: TCommunication,
    },
    /// Each branch is a function, by its number.
    Par {
        line: u32,
        branches: Items<u32>,
    },
    Rescue {
        line: u32,
        number: u32,
        body: Boxed<TStmt>,
    },
    /// To the rescue of that number.
    Raise {
        line: u32,
        rescue: u32,
    },
    /// To the label of that number.
    Goto {
        line: u32,
        label: u32,
    },
    Return {
        line: u32,
        value: Option<TExpr>,
    },
    /// The call of a function by its name. A become of another value is a return.
    Become {
        line: u32,
        call: TExpr,
    },
    /// Leaves so many enclosing loops, switches and alts.
    Break {
        line: u32,
        levels: u32,
    },
    /// Goes on with the enclosing loop of that number, the innermost being 1.
    Continue {
        line: u32,
        levels: u32,
    },
    Alloc {
        line: u32,
        places: Items<TPlace>,
    },
    Unalloc {
        line: u32,
        values: Items<TExpr>,
    },
    Check {
        line: u32,
        value: TExpr,
    },
    /// Calls of functions by their names.
    Proc {
        line: u32,
        calls: Items<TExpr>,
    },
    Task {
        line: u32,
        calls: Items<TExpr>,
    },
}
