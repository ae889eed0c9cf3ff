use al_base::Place;

/// A place in a file. Files are numbered from 1.
#[derive(Clone, Copy, Debug, PartialEq, Eq)]
pub struct At {
    pub file: u32,
    pub place: Place,
}
