//! Tests of al_parse_member, apart from it so that it is proved once.
#![tactic(auto)]

#[cfg(test)]
mod members;
