//! Tests of al_lex, apart from it so that it is proved once.
#![tactic(auto)]

#[cfg(test)]
mod large;
#[cfg(test)]
mod parts;
#[cfg(test)]
mod tables;
#[cfg(test)]
mod texts;
