//! Tests of rv_gen: images of programs of operations are made and run.
#![tactic(auto)]

#[cfg(test)]
mod images;
#[cfg(test)]
mod programs;
