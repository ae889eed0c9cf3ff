//! Tests of al_script, apart from it so that it is proved once.
#![tactic(auto)]

#[cfg(test)]
mod lines;
#[cfg(test)]
mod runs;
#[cfg(test)]
mod tables;
