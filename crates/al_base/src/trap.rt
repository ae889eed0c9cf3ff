/// What a task did wrong. The variants are numbered from 1, in this order.
#[derive(Clone, Copy, Debug, PartialEq, Eq)]
pub enum Trap {
    /// An access that lies in no one live block.
    Fault = 1,
    /// An access at an address that is no multiple of its size.
    Align = 2,
    /// A division by 0.
    Divide = 3,
    /// No place for a block.
    Memory = 4,
    /// A block given back where none begins.
    Unalloc = 5,
    /// A channel that is nil, was given up or has other words.
    Chan = 6,
    /// A channel given up while a blocked task has a branch on it.
    Busy = 7,
    /// A `check` of zero.
    Check = 8,
    /// A task's stack is full.
    Stack = 9,
    /// Too many live tasks.
    Tasks = 10,
    /// A printed text that is too long.
    Print = 11,
    /// A word that is no instruction, or an instruction used where it may not be.
    Illegal = 12,
    /// A call through a pointer that is no function of its type.
    Call = 13,
}

impl Trap {
    ghost use Rattle.std.specs.Prelude.{◌≡◌, ◌≤◌, length, IfSome, IsSome, ◌↔◌};
    ghost use Rattle.al_base.specs.Trap.{trap_of, number_of};
    ghost use Rattle.al_base.specs.Line.{name_of};

    /// The trap of a number.
    pub fn of_number(n: u32) -> Option<Trap>
        ensures value { result ≡ trap_of n }
        ensures number { IfSome result (λ t. number_of t ≡ n) }
        ensures found { IsSome result ↔ ((1 ≤ n) × (n ≤ 13)) }
    {
        match n {
            1 => Some(Trap::Fault),
            2 => Some(Trap::Align),
            3 => Some(Trap::Divide),
            4 => Some(Trap::Memory),
            5 => Some(Trap::Unalloc),
            6 => Some(Trap::Chan),
            7 => Some(Trap::Busy),
            8 => Some(Trap::Check),
            9 => Some(Trap::Stack),
            10 => Some(Trap::Tasks),
            11 => Some(Trap::Print),
            12 => Some(Trap::Illegal),
            13 => Some(Trap::Call),
            _ => None,
        }
    }

    /// The trap's name, as the log shows it.
    pub fn name(self) -> &'static [u8]
        ensures value { result.now ≡ name_of self }
        ensures short { length result.now ≤ 7 }
    {
        match self {
            Trap::Fault => b"Fault",
            Trap::Align => b"Align",
            Trap::Divide => b"Divide",
            Trap::Memory => b"Memory",
            Trap::Unalloc => b"Unalloc",
            Trap::Chan => b"Chan",
            Trap::Busy => b"Busy",
            Trap::Check => b"Check",
            Trap::Stack => b"Stack",
            Trap::Tasks => b"Tasks",
            Trap::Print => b"Print",
            Trap::Illegal => b"Illegal",
            Trap::Call => b"Call",
        }
    }
}
