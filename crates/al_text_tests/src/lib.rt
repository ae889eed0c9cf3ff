//! Tests of al_parse_stmt, apart from it so that it is proved once.
#![tactic(auto)]

#[cfg(test)]
mod texts;
#[cfg(test)]
mod trees;
