//! Tests of the machine (rv_isa, rv_asm, rv_exec, rv_long, rv_image), apart from these so that each is proved once.
#![tactic(auto)]

#[cfg(test)]
mod asks;
#[cfg(test)]
mod calls;
#[cfg(test)]
mod encodings;
#[cfg(test)]
mod images;
#[cfg(test)]
mod numbers;
#[cfg(test)]
mod routines;
#[cfg(test)]
mod stretches;
#[cfg(test)]
mod texts;
