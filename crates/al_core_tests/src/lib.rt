//! Tests of al_core, chan_book and alt_select, apart from them so that these are proved once.
#![tactic(auto)]

#[cfg(test)]
mod programs;
#[cfg(test)]
mod talks;
#[cfg(test)]
mod texts;
#[cfg(test)]
mod worlds;
