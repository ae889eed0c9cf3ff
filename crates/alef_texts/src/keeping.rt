//! Letting go of what is large.

ghost use Rattle.std.specs.Prelude.{◌≡◌};

/// What is kept, where something else is let go, whose type is not looked into here.
pub fn kept<T, U: Drop>(it: T, _other: U) -> T
    ensures { result ≡ it }
{
    it
}
