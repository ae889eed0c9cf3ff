//! Sizes of types.
ghost use Rattle.std.specs.Prelude.{◌≡◌, ◌<◌, ◌^◌};
ghost use Rattle.al_type_limits.specs.Sizes as spec;

/// One more than the most levels of a type.
pub(crate) const PAST_LEVELS: u32 = 1001;

/// One more than the most parts that the types of a text have together.
pub(crate) const PAST_PARTS: u32 = (1 << 20) + 1;

/// How large a type is, or several together: the levels of the highest, and the parts of all. Both are counted no further
/// than one past the limits.
#[derive(Clone, Copy, Debug, PartialEq, Eq)]
pub struct Size {
    pub levels: u32,
    pub parts: u32,
}

fn counted(past: u32, n: u64) -> u32
    ensures { result ≡ spec.counted past n }
{
    n.min(past as u64) as u32
}

fn sized(levels: u64, parts: u64) -> Size
    ensures { result ≡ spec.sized levels parts }
{
    Size {
        levels: counted(PAST_LEVELS, levels),
        parts: counted(PAST_PARTS, parts),
    }
}

/// No type.
pub(crate) fn nothing() -> Size
    ensures { result ≡ spec.nothing }
{
    Size {
        levels: 0,
        parts: 0,
    }
}

/// A type that is one part.
pub(crate) fn one() -> Size
    ensures { result ≡ spec.one }
{
    Size {
        levels: 1,
        parts: 1,
    }
}

/// Two types beside one another.
#[tactic(auto, unfolding(crate::specs::Sizes::beside))]
pub(crate) fn beside(a: Size, b: Size) -> Size
    ensures { result ≡ spec.beside a b }
{
    sized(
        a.levels.max(b.levels) as u64,
        a.parts as u64 + b.parts as u64,
    )
}

/// A type with `count` levels above it.
#[tactic(auto, unfolding(crate::specs::Sizes::above))]
pub(crate) fn above(count: u32, a: Size) -> Size
    ensures { result ≡ spec.above count a }
{
    sized(
        a.levels as u64 + count as u64,
        a.parts as u64 + count as u64,
    )
}
