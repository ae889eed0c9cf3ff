use al_base::Place;

/// The number that belongs to a statement of a function, by the statement's place.
///
/// For a label or a rescue it is its own number, and for a goto or a raise the number of the label or rescue to which it
/// goes. Labels and rescues are numbered together from 0 in text order, in each function, where a branch of a par is a
/// function of its own. For a break it is how many enclosing loops, switches and alts it leaves, and for a continue which
/// enclosing loop it goes on with, the innermost being 1.
#[derive(Clone, Copy, Debug, PartialEq, Eq)]
pub struct Target {
    pub at: Place,
    pub number: u64,
}
