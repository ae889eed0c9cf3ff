//! Values that are held while others are found.
ghost use Rattle.std.specs.Prelude.{◌≡◌, IfOk, IfErr, Ok, Err};
ghost use Rattle.al_rules.specs.Outcome.{Outcome, Answers, pair};

use al_base::NoMemory;
use al_items::Boxed;
use al_rules::TypeStop;
use std::alloc::Global;

/// A value that was kept, and what was found meanwhile. Where nothing was, the value is let go.
pub fn beside<T: Drop, U: Drop, E: Drop>(kept: T, found: Result<U, E>) -> Result<(T, U), E>
    ensures both { IfOk result (λ p. (p.0 ≡ kept) × (found ≡ Ok p.1)) }
    ensures stop { IfErr result (λ s. found ≡ Err s) }
{
    match found {
        Ok(found) => Ok((kept, found)),
        Err(stop) => Err(stop),
    }
}

/// Two that were found, where both were.
pub fn both<T: Drop, U: Drop>(
    first: Result<T, NoMemory>,
    second: Result<U, NoMemory>,
) -> Result<(T, U), NoMemory>
    ensures { IfOk result (λ p. (first ≡ Ok p.0) × (second ≡ Ok p.1)) }
{
    match first {
        Ok(first) => match second {
            Ok(second) => Ok((first, second)),
            Err(stop) => Err(stop),
        },
        Err(stop) => Err(stop),
    }
}

/// Two values, each in a box of its own.
pub fn boxes<T: Drop, U: Drop>(
    alloc: Global,
    first: T,
    second: U,
) -> Result<(Boxed<T>, Boxed<U>), NoMemory>
    ensures { IfOk result (λ p. p ≡ (first, second)) }
{
    let first = Boxed::new(alloc, first)?;
    let second = Boxed::new(alloc, second)?;
    Ok((first, second))
}

/// Two parts of a node, with the faults of both.
#[tactic(auto, using(al_rules::proofs::Permits::permitted))]
pub fn parts<T: Drop, U: Drop>(
    first: Result<T, TypeStop>,
    second: Result<U, TypeStop>,
) -> Result<(T, U), TypeStop>
    ensures { (x : Outcome T) (y : Outcome U) → Answers first x → Answers second y → Answers result (pair x y) }
{
    match first {
        Ok(first) => match second {
            Ok(second) => Ok((first, second)),
            Err(stop) => Err(stop),
        },
        Err(stop) => Err(stop),
    }
}
