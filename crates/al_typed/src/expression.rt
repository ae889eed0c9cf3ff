use crate::ty::Ty;
use al_base::Kind;
use al_items::{Boxed, Items};

/// Operators on one integer.
#[derive(Clone, Copy)]
pub enum UnaryOp {
    Plus,
    Minus,
    /// `~`
    Complement,
}

/// Operators on two integers of one kind. The last six give an int, 0 or 1.
#[derive(Clone, Copy)]
pub enum BinaryOp {
    Multiply,
    Divide,
    Remainder,
    Add,
    Subtract,
    /// A shift by a count that is taken modulo the width.
    ShiftLeft,
    ShiftRight,
    BitAnd,
    BitXor,
    BitOr,
    Less,
    Greater,
    LessEqual,
    GreaterEqual,
    Equal,
    NotEqual,
}

/// Operators that evaluate their right side only where it decides.
#[derive(Clone, Copy)]
pub enum Logic {
    /// `&&`
    And,
    /// `||`
    Or,
}

/// A pointer and an integer with `+` or `-` between them.
#[derive(Clone, Copy)]
pub enum Movement {
    /// `pointer + count`
    Forward,
    /// `count + pointer`: the count is evaluated first.
    CountFirst,
    /// `pointer - count`
    Back,
}

/// `++` and `--`. Before its operand it gives the new value, behind it the old one.
#[derive(Clone, Copy)]
pub enum StepOp {
    PreIncrement,
    PreDecrement,
    PostIncrement,
    PostDecrement,
}

/// What `place op= value` makes of the place's value.
#[derive(Clone, Copy)]
pub enum Change {
    /// The operator's result on it, converted to that kind, and the value; the result is converted back.
    Apply { op: BinaryOp, kind: Kind },
    /// It is a pointer, and the value says by how many elements it moves forward or back.
    Move { back: bool },
}

/// A part of the format of a print. Each but the first two takes the next argument.
#[derive(Clone, Copy)]
pub enum PrintPiece {
    Byte(u8),
    /// `%%`
    Percent,
    /// `%d`
    Signed,
    /// `%u`
    Unsigned,
    /// `%x`
    Hexadecimal,
    /// `%c`
    Character,
    /// `%s`
    Text,
}

/// What a function of an adt gets of the object that stands before its name.
#[derive(Clone, Copy)]
pub enum Passed {
    /// Its address is the first argument.
    Address,
    /// Its value is the first argument.
    Value,
    /// It is found or evaluated, and dropped.
    Nothing,
}

/// A place: a private variable, or what has an address in shared storage.
///
/// A path leads from an aggregate to a member of it, by the members' numbers, through members without a name.
#[cycle(typed)]
#[derive(Drop)]
pub enum TPlace {
    /// A parameter or local of the function at hand, by its number there.
    Local {
        ty: Ty,
        number: u32,
    },
    /// A shared local of a function round the par branch at hand. `around` counts these functions from the outermost.
    Outer {
        ty: Ty,
        around: u32,
        number: u32,
    },
    Global {
        ty: Ty,
        number: u32,
    },
    /// `*pointer`
    Pointed {
        ty: Ty,
        pointer: Boxed<TExpr>,
    },
    /// `base[index]`: the base is a pointer to the first element, the index an int.
    Element {
        ty: Ty,
        base: Boxed<TExpr>,
        index: Boxed<TExpr>,
    },
    /// `of.name`
    Member {
        ty: Ty,
        of: Boxed<TPlace>,
        path: Items<u32>,
    },
    /// `pointer->name`
    PointedMember {
        ty: Ty,
        pointer: Boxed<TExpr>,
        path: Items<u32>,
    },
}

/// What stands on the left of `=`.
#[cycle(typed)]
#[derive(Drop)]
pub enum TTarget {
    Into(Boxed<TPlace>),
    /// `nil`, which drops a part of that type.
    Dropped(Ty),
    /// Two or more targets in parentheses.
    Parts { ty: Ty, parts: Items<TTarget> },
}

/// The object before the name of a function of an adt. The path leads from it to what is passed.
#[cycle(typed)]
#[derive(Drop)]
pub enum TReceiver {
    /// `place.f(..)`
    Place {
        place: Boxed<TPlace>,
        path: Items<u32>,
        passed: Passed,
    },
    /// `value.f(..)`, where a call or a receive gives the value
    Value {
        value: Boxed<TExpr>,
        path: Items<u32>,
        passed: Passed,
    },
    /// `pointer->f(..)`
    Pointer {
        pointer: Boxed<TExpr>,
        path: Items<u32>,
        passed: Passed,
    },
}

/// An expression. Its parts stand in the order in which they are evaluated, except where it is said otherwise.
#[cycle(typed)]
#[derive(Drop)]
pub enum TExpr {
    /// A number, a character or an enum constant, by the bits of its kind.
    Constant {
        ty: Ty,
        bits: u64,
    },
    /// A string constant: the address of its block.
    Text {
        ty: Ty,
        number: u32,
    },
    Nil {
        ty: Ty,
    },
    /// A function's name as a value.
    Function {
        ty: Ty,
        number: u32,
    },
    /// The value of a place that is no array.
    Load {
        ty: Ty,
        place: Boxed<TPlace>,
    },
    /// An array as a value: the address of its first element.
    Decay {
        ty: Ty,
        place: Boxed<TPlace>,
    },
    /// `&place`
    Address {
        ty: Ty,
        place: Boxed<TPlace>,
    },
    SizeofType {
        ty: Ty,
        of: Ty,
    },
    SizeofPlace {
        ty: Ty,
        place: Boxed<TPlace>,
    },
    SizeofValue {
        ty: Ty,
        value: Boxed<TExpr>,
    },
    Unary {
        ty: Ty,
        op: UnaryOp,
        of: Boxed<TExpr>,
    },
    /// `!of`
    Not {
        ty: Ty,
        of: Boxed<TExpr>,
    },
    /// Both operands are of that kind. Pointers and channels are compared as uints.
    Binary {
        ty: Ty,
        op: BinaryOp,
        kind: Kind,
        left: Boxed<TExpr>,
        right: Boxed<TExpr>,
    },
    Logical {
        ty: Ty,
        op: Logic,
        left: Boxed<TExpr>,
        right: Boxed<TExpr>,
    },
    /// The count is an int.
    Move {
        ty: Ty,
        movement: Movement,
        pointer: Boxed<TExpr>,
        count: Boxed<TExpr>,
    },
    /// How many elements one pointer is behind the other.
    Difference {
        ty: Ty,
        left: Boxed<TExpr>,
        right: Boxed<TExpr>,
    },
    Assign {
        ty: Ty,
        target: Boxed<TTarget>,
        value: Boxed<TExpr>,
    },
    /// `place op= value`: the place's value is read before the right side is evaluated.
    Update {
        ty: Ty,
        place: Boxed<TPlace>,
        change: Change,
        value: Boxed<TExpr>,
    },
    Step {
        ty: Ty,
        op: StepOp,
        place: Boxed<TPlace>,
    },
    Zerox {
        ty: Ty,
        place: Boxed<TPlace>,
    },
    Tuple {
        ty: Ty,
        parts: Items<TExpr>,
    },
    Call {
        ty: Ty,
        function: u32,
        receiver: Option<Boxed<TReceiver>>,
        arguments: Items<TExpr>,
    },
    CallPointer {
        ty: Ty,
        pointer: Boxed<TExpr>,
        arguments: Items<TExpr>,
    },
    Print {
        ty: Ty,
        format: Items<PrintPiece>,
        arguments: Items<TExpr>,
    },
    Terminate {
        ty: Ty,
        status: Boxed<TExpr>,
    },
    Receive {
        ty: Ty,
        chan: Boxed<TExpr>,
    },
    /// `chan <-= value`
    Send {
        ty: Ty,
        chan: Boxed<TExpr>,
        value: Boxed<TExpr>,
    },
    /// `?chan`
    CanReceive {
        ty: Ty,
        chan: Boxed<TExpr>,
    },
    /// `chan?`
    CanSend {
        ty: Ty,
        chan: Boxed<TExpr>,
    },
    /// A member of the value of a call or a receive.
    MemberOf {
        ty: Ty,
        value: Boxed<TExpr>,
        path: Items<u32>,
    },
    /// A conversion that the text asks for.
    Cast {
        ty: Ty,
        of: Boxed<TExpr>,
    },
    /// A conversion that the typing rules made.
    Convert {
        ty: Ty,
        of: Boxed<TExpr>,
    },
    /// Expressions with commas between them; the value is the last one's.
    Sequence {
        ty: Ty,
        first: Items<TExpr>,
        last: Boxed<TExpr>,
    },
    /// The turn at hand of an iterator, by its number in the statement.
    Iterator {
        ty: Ty,
        number: u32,
    },
}

impl TExpr {
    ghost use Rattle.std.specs.Prelude.{◌≡◌};
    ghost use Rattle.al_typed.specs.Typed.{type_of, callee_of};

    /// The number of the function that it calls by its name, where it does.
    pub fn callee(&self) -> Option<u32>
        ensures { result ≡ callee_of self.now }
    {
        match self {
            TExpr::Call { function, .. } => Some(*function),
            _ => None,
        }
    }

    /// The type of its value.
    pub fn ty(&self) -> &Ty
        ensures { result.now ≡ type_of self.now }
    {
        match self {
            TExpr::Constant { ty, .. }
            | TExpr::Text { ty, .. }
            | TExpr::Nil { ty, .. }
            | TExpr::Function { ty, .. }
            | TExpr::Load { ty, .. }
            | TExpr::Decay { ty, .. }
            | TExpr::Address { ty, .. }
            | TExpr::SizeofType { ty, .. }
            | TExpr::SizeofPlace { ty, .. }
            | TExpr::SizeofValue { ty, .. }
            | TExpr::Unary { ty, .. }
            | TExpr::Not { ty, .. }
            | TExpr::Binary { ty, .. }
            | TExpr::Logical { ty, .. }
            | TExpr::Move { ty, .. }
            | TExpr::Difference { ty, .. }
            | TExpr::Assign { ty, .. }
            | TExpr::Update { ty, .. }
            | TExpr::Step { ty, .. }
            | TExpr::Zerox { ty, .. }
            | TExpr::Tuple { ty, .. }
            | TExpr::Call { ty, .. }
            | TExpr::CallPointer { ty, .. }
            | TExpr::Print { ty, .. }
            | TExpr::Terminate { ty, .. }
            | TExpr::Receive { ty, .. }
            | TExpr::Send { ty, .. }
            | TExpr::CanReceive { ty, .. }
            | TExpr::CanSend { ty, .. }
            | TExpr::MemberOf { ty, .. }
            | TExpr::Cast { ty, .. }
            | TExpr::Convert { ty, .. }
            | TExpr::Sequence { ty, .. }
            | TExpr::Iterator { ty, .. } => ty,
        }
    }
}

impl TPlace {
    ghost use Rattle.std.specs.Prelude.{◌≡◌};
    ghost use Rattle.al_typed.specs.Typed.{place_type};

    /// The type of what stands there.
    pub fn ty(&self) -> &Ty
        ensures { result.now ≡ place_type self.now }
    {
        match self {
            TPlace::Local { ty, .. }
            | TPlace::Outer { ty, .. }
            | TPlace::Global { ty, .. }
            | TPlace::Pointed { ty, .. }
            | TPlace::Element { ty, .. }
            | TPlace::Member { ty, .. }
            | TPlace::PointedMember { ty, .. } => ty,
        }
    }
}

impl TTarget {
    ghost use Rattle.std.specs.Prelude.{◌≡◌};
    ghost use Rattle.al_typed.specs.Typed.{target_type};

    /// The type of what it takes.
    #[tactic(auto, using(crate::proofs::Typing::target_types))]
    pub fn ty(&self) -> &Ty
        ensures { result.now ≡ target_type self.now }
    {
        match self {
            TTarget::Into(place) => place.get().ty(),
            TTarget::Dropped(ty) | TTarget::Parts { ty, .. } => ty,
        }
    }
}
