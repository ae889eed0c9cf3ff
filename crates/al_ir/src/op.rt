// Operations. A slot is one word of a function's frame; a value of several words stands in as many slots, one behind the
// other, and operands name the first of them.

use al_base::{Kind, Op as Arith, Trap};
use al_event::Block;
use al_items::Items;

/// Slots, by their numbers.
pub type Slots = Items<u32>;

/// A branch of a talk: the slot of its channel, its number of words, and the slots of those that it sends, if it sends.
#[derive(Clone, Copy)]
pub struct TalkBranch {
    pub chan: u32,
    pub words: u32,
    pub send: Option<u32>,
}

/// What is done with slots. Each operation that may go back, call or return counts a turn; all other jumps go forward.
#[derive(Drop)]
pub enum Op {
    Constant {
        to: u32,
        word: u32,
    },
    Copy {
        to: u32,
        from: u32,
    },
    /// So many words of 0.
    Zero {
        to: u32,
        count: u32,
    },
    /// A word of what the function gave that returned last.
    Result {
        to: u32,
        word: u32,
    },
    /// An operation on words of 32 bits, which traps Divide where it divides by 0.
    Word {
        op: Arith,
        signed: bool,
        to: u32,
        left: u32,
        right: u32,
    },
    /// The same with a constant of 12 bits, extended with its sign, on the right.
    WordBy {
        op: Arith,
        signed: bool,
        to: u32,
        left: u32,
        word: u32,
    },
    /// The same on pairs of words; a comparison gives one word.
    Long {
        op: Arith,
        signed: bool,
        to: u32,
        left: u32,
        right: u32,
    },
    Complement {
        to: u32,
        from: u32,
    },
    /// 1 where the word is 0, else 0.
    IsZero {
        to: u32,
        from: u32,
    },
    /// 1 where the pair is not 0, else 0.
    IsLongSet {
        to: u32,
        from: u32,
    },
    /// An integer of one kind as one of another.
    Convert {
        from: Kind,
        into: Kind,
        to: u32,
        of: u32,
    },
    /// So many bytes of a word, behind so many others of it.
    Extract {
        to: u32,
        from: u32,
        skip: u8,
        size: u8,
    },
    /// A word and a constant added up.
    Offset {
        to: u32,
        from: u32,
        bytes: u32,
    },
    /// A pointer that moves by a count of elements.
    Advance {
        back: bool,
        size: u32,
        to: u32,
        pointer: u32,
        count: u32,
    },
    /// How many elements there are between two pointers.
    Between {
        size: u32,
        to: u32,
        left: u32,
        right: u32,
    },
    /// A word of the proc's private globals.
    GetPrivate {
        to: u32,
        place: u32,
    },
    PutPrivate {
        place: u32,
        from: u32,
    },
    /// Leaves so many operations out.
    Skip {
        count: u32,
    },
    SkipIfZero {
        slot: u32,
        count: u32,
    },
    SkipIfSet {
        slot: u32,
        count: u32,
    },
    /// Leaves them out unless a comparison of words holds.
    SkipUnless {
        op: Arith,
        signed: bool,
        left: u32,
        right: u32,
        count: u32,
    },
    /// Goes forward to the operation of that number.
    GoTo {
        to: u32,
    },
    /// A turn, and then back by so many operations.
    Back {
        count: u32,
    },
    /// A turn, and then to the operation of that number, wherever it stands.
    Turn {
        to: u32,
    },
    /// A call; the arguments stand in slots from `arguments` on.
    Invoke {
        function: u32,
        arguments: u32,
    },
    /// A call of the function of a class whose name has the value in `pointer`, which traps Call where there is none.
    InvokePointer {
        class: u32,
        pointer: u32,
        arguments: u32,
    },
    /// A call in the place of the function at hand.
    Become {
        function: u32,
        arguments: u32,
    },
    /// Ends the function: what it gives are so many words, in slots from 0 on.
    Leave {
        words: u32,
    },
    /// Loads a unit at an address and so many bytes further on.
    Load {
        to: u32,
        at: u32,
        offset: u32,
        size: u8,
    },
    Store {
        at: u32,
        offset: u32,
        size: u8,
        from: u32,
    },
    /// Loads the units of a value one by one, as the layout of that number has them, into as many slots.
    LoadUnits {
        to: u32,
        at: u32,
        offset: u32,
        layout: u32,
    },
    StoreUnits {
        at: u32,
        offset: u32,
        layout: u32,
        from: u32,
    },
    /// Stores 0 in each unit.
    ClearUnits {
        at: u32,
        offset: u32,
        layout: u32,
    },
    Alloc {
        to: u32,
        bytes: u32,
        kind: Block,
    },
    Free {
        at: u32,
        kind: Block,
    },
    NewChan {
        to: u32,
        capacity: u32,
        words: u32,
    },
    FreeChan {
        chan: u32,
    },
    CanRecv {
        to: u32,
        chan: u32,
    },
    CanSend {
        to: u32,
        chan: u32,
    },
    /// A send, a receive or an alt: gives the branch that went, and from `got` on the words that it received. Four slots for
    /// each branch, from `records` on, lose what they had.
    Talk {
        branches: Items<TalkBranch>,
        records: u32,
        to: u32,
        got: u32,
    },
    Proc {
        function: u32,
        arguments: u32,
        words: u32,
    },
    Task {
        function: u32,
        arguments: u32,
        words: u32,
    },
    /// Starts a proc for each function, all with the same words. Three slots for each, from `records` on, lose what they had.
    Par {
        functions: Slots,
        arguments: u32,
        words: u32,
        records: u32,
    },
    /// Composes a text, which traps Print where it would be too long.
    PutByte {
        byte: u8,
    },
    PutCharacter {
        from: u32,
    },
    PutDecimal {
        signed: bool,
        from: u32,
    },
    PutLongDecimal {
        signed: bool,
        from: u32,
    },
    PutHex {
        from: u32,
    },
    PutLongHex {
        from: u32,
    },
    /// Loads bytes one by one up to a 0; the slot holds the place of the next one.
    PutText {
        at: u32,
    },
    /// Puts the text out that was composed.
    Print,
    Terminate {
        status: u32,
    },
    Trap {
        trap: Trap,
    },
}
