use al_operands::Operand;
use al_typed::TPlace;

/// What an expression is, before it is known how it is used.
#[derive(Drop)]
pub enum Found {
    /// A place, and whether it is a private global.
    Place { place: TPlace, is_private: bool },
    /// A value; where it is a call, also none.
    Value(Operand),
}
