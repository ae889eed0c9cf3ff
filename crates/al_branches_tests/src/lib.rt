//! Tests of al_branches, apart from it so that it is proved once.
#![tactic(auto)]

#[cfg(test)]
mod numbers;
