//! Tests of al_parse_block, apart from it so that it is proved once.
#![tactic(auto)]

#[cfg(test)]
mod blocks;
