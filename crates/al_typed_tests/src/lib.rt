//! Tests of al_typed, apart from it so that it is proved once.
#![tactic(auto)]

#[cfg(test)]
mod programs;
