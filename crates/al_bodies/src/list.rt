//! Lists by value.
ghost use Rattle.std.specs.Prelude.{◌≡◌, ◌++◌, ◌∷◌, [], reverse, IfOk};

use al_base::NoMemory;
use al_items::Items;

/// A list with one more at its end.
pub(crate) fn with_one<T: Drop>(list: Items<T>, item: T) -> Result<Items<T>, NoMemory>
    ensures { IfOk result (λ l. l ≡ list ++ item ∷ []) }
{
    let mut list = list;
    list.push(item)?;
    Ok(list)
}

/// One list behind another.
pub(crate) fn joined<T: Drop>(list: Items<T>, more: Items<T>) -> Result<Items<T>, NoMemory>
    ensures { IfOk result (λ l. l ≡ list ++ more) }
{
    let mut list = list;
    list.append(more)?;
    Ok(list)
}

/// The last first.
pub(crate) fn reversed<T: Drop>(list: Items<T>) -> Items<T>
    ensures { result ≡ reverse list }
{
    let mut list = list.into_vec();
    list.reverse();
    Items::from_vec(list)
}

/// A list that is done with.
pub(crate) fn let_go<T: Drop>(_list: Items<T>) {}
