use al_base::Place;
use al_items::Items;

/// What the numbers of branches are made of, by items.
#[derive(Drop)]
pub(crate) struct Tables {
    /// Where the branches in each stand.
    pub places: Items<Items<Place>>,
    /// How many functions each is.
    pub uses: Items<usize>,
    /// The number of the first branch of each, or 2^64 - 1 where it is greater.
    pub firsts: Items<u64>,
}
