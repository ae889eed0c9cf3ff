ghost use Rattle.std.specs.Prelude.{◌≡◌};
ghost use Rattle.al_type_function.specs.Numbers as spec;

/// The numbers that a function of a text has.
#[derive(Clone, Copy, Debug, PartialEq, Eq)]
pub struct FunctionNumbers {
    /// Its own in the program, from 0.
    pub number: usize,
    /// For a function of an instance of an adt, the number of the instance.
    pub instance: Option<usize>,
    /// How many string constants with blocks stand before those in it.
    pub texts: usize,
}

/// A program numbers by 32 bits.
pub(crate) fn capped(n: usize) -> u32
    ensures { result ≡ spec.capped n }
{
    if n <= 4_294_967_295 {
        n as u32
    } else {
        u32::MAX
    }
}
