use al_base::Place;
use al_items::Items;
use al_rules::TypeFault;
use al_typed::Ty;

/// A local that a body declares.
#[derive(Drop)]
pub struct DeclaredLocal {
    /// Its name by its number.
    pub name: u32,
    /// Where the name stands.
    pub at: Place,
    /// Void where what is written has no meaning, which is a fault.
    pub ty: Ty,
}

/// A string constant that has a block.
#[derive(Drop)]
pub struct WrittenText {
    pub at: Place,
    /// Without the final 0.
    pub bytes: Items<u8>,
}

/// What a body declares and writes, in text order.
#[derive(Drop)]
pub struct Parts {
    /// Its own locals, without those of par branches in it.
    pub locals: Items<DeclaredLocal>,
    /// The string constants in it that have blocks: the format of a print has none.
    pub texts: Items<WrittenText>,
    /// The types of casts and sizeof, and of the locals of par branches in it.
    pub types: Items<Ty>,
    /// Where its labels and rescues stand, without those in par branches.
    pub labels: Items<Place>,
    /// The breaks of typing rules 7, 16, 18 and 20 of the types that are written in it.
    pub faults: Items<TypeFault>,
}
