//! No program's meaning asks the trap Illegal, which stands for what has no meaning. The definition is in specs/; the function here
//! does nothing, and its contract is the law.
#![tactic(auto)]

mod laws;

pub use laws::meanings_never_trap_illegal;
