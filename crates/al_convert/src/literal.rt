use al_base::Place;
use al_items::Items;

/// What a value is written as, as far as conversions ask for it.
#[derive(Drop)]
pub enum Literal {
    /// The number 0 of type int, in parentheses or not. No character, enum constant or cast is it.
    Zero,
    Nil { at: Place },
    /// A tuple of such.
    Tuple(Items<Literal>),
    Other,
}
