ghost use Rattle.std.specs.Prelude.{◌≡◌, ◌≢◌, ◌↔◌, ◌%◌, ◌^◌, ◌<◌, IsTrue, IsNone, IfSome};
ghost use Rattle.al_base.specs.Arith.{applied, exact_of, divides, bits_in, wrapped, width_of, integer_of};

/// An operation on two integers of one kind.
#[derive(Clone, Copy, Debug, PartialEq, Eq)]
pub enum Op {
    Add,
    Sub,
    Mul,
    /// The quotient, rounded towards zero.
    Div,
    /// What division leaves, with the sign of the left operand.
    Rem,
    And,
    Or,
    Xor,
    /// A shift to the left, by a count that is taken modulo the width.
    Shl,
    /// A shift to the right, by a count that is taken modulo the width. It keeps the sign of a signed kind.
    Shr,
    Lt,
    Le,
    Eq,
    Ne,
}

/// The kinds of integers: unsigned of 8 bits; signed and unsigned of 16, of 32 and of 64 bits.
#[derive(Clone, Copy, Debug, PartialEq, Eq)]
pub enum Kind {
    Byte,
    Sint,
    Usint,
    Int,
    Uint,
    Lint,
    Ulint,
}

impl Kind {
    ghost use Rattle.std.specs.Prelude.{◌≡◌, pos, ◌^◌, ◌<◌, unsigned_abs};
    ghost use Rattle.al_base.specs.Arith.{width_of, is_signed, integer_of, wrapped, bits_in};

    /// The number of bits of a kind.
    pub fn width(self) -> u32
        ensures { result ≡ width_of self }
    {
        match self {
            Kind::Byte => 8,
            Kind::Sint | Kind::Usint => 16,
            Kind::Int | Kind::Uint => 32,
            Kind::Lint | Kind::Ulint => 64,
        }
    }

    /// Whether a kind has numbers below 0.
    pub fn is_signed(self) -> bool
        ensures { result ≡ is_signed self }
    {
        match self {
            Kind::Sint | Kind::Int | Kind::Lint => true,
            Kind::Byte | Kind::Usint | Kind::Uint | Kind::Ulint => false,
        }
    }

    /// How many numbers a kind has: 2 to the power of its width.
    fn count(self) -> i128
        ensures { result ≡ pos (2 ^ width_of self) }
    {
        match self {
            Kind::Byte => 0x100,
            Kind::Sint | Kind::Usint => 0x1_0000,
            Kind::Int | Kind::Uint => 0x1_0000_0000,
            Kind::Lint | Kind::Ulint => 0x1_0000_0000_0000_0000,
        }
    }

    /// The integer that the bits of `bits` in a kind stand for.
    fn value(self, bits: u64) -> i128
        ensures value { result ≡ integer_of self bits }
        ensures small { unsigned_abs result < 2 ^ 64 }
    {
        let count = self.count();
        let low = bits as i128 % count;
        if self.is_signed() && low >= count / 2 {
            low - count
        } else {
            low
        }
    }

    /// The bits of an integer in a kind: what is left of it modulo 2 to the power of the width.
    fn wrap(self, value: i128) -> u64
        ensures value { result ≡ wrapped (width_of self) value }
        ensures bits { result < 2 ^ width_of self }
    {
        value.rem_euclid(self.count()) as u64
    }

    /// The bits of `bits` in a kind.
    fn low(self, bits: u64) -> u64
        ensures value { result ≡ bits_in (width_of self) bits }
        ensures bound { result < 2 ^ width_of self }
    {
        (bits as i128 % self.count()) as u64
    }
}

/// What an operation gives in the integers, or a number with the same bits in the kind.
fn compute(op: Op, kind: Kind, a: u64, b: u64) -> i128
    requires { IsTrue (divides op) → bits_in (width_of kind) b ≢ 0 }
    ensures { wrapped (width_of kind) result ≡ wrapped (width_of kind) (exact_of op kind a b) }
{
    let (x, y) = (kind.value(a), kind.value(b));
    let (m, n) = (kind.low(a), kind.low(b));
    let count = n % kind.width() as u64;
    match op {
        Op::Add => x + y,
        Op::Sub => x - y,
        Op::Mul => a.wrapping_mul(b) as i128,
        Op::Div => x / y,
        Op::Rem => x % y,
        Op::And => (m & n) as i128,
        Op::Or => (m | n) as i128,
        Op::Xor => (m ^ n) as i128,
        Op::Shl => a.wrapping_mul(1 << count) as i128,
        Op::Shr => x >> count,
        Op::Lt => (x < y) as i128,
        Op::Le => (x <= y) as i128,
        Op::Eq => (m == n) as i128,
        Op::Ne => (m != n) as i128,
    }
}

/// What an operation gives on the bits of two numbers of a kind, in the bits of that kind. A comparison gives
/// 0 or 1. There is no answer exactly where a division's right operand is 0.
pub fn apply(op: Op, kind: Kind, a: u64, b: u64) -> Option<u64>
    ensures value { result ≡ applied op kind a b }
    ensures none { IsNone result ↔ (IsTrue (divides op) × (b % 2 ^ width_of kind ≡ 0)) }
    ensures bits { IfSome result (λ n. n < 2 ^ width_of kind) }
{
    let divides = matches!(op, Op::Div | Op::Rem);
    if divides && kind.low(b) == 0 {
        return None;
    }
    Some(kind.wrap(compute(op, kind, a, b)))
}

/// The bits in one kind of the integer that bits of another stand for.
pub fn convert(from: Kind, to: Kind, a: u64) -> u64
    ensures value { result ≡ wrapped (width_of to) (integer_of from a) }
    ensures bits { result < 2 ^ width_of to }
{
    to.wrap(from.value(a))
}
