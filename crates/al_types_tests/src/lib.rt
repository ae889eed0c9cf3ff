//! Tests of al_convert, apart from it so that it is proved once.
#![tactic(auto)]

#[cfg(test)]
mod conversions;
