//! Tests of crates that would be proved twice if they stood there.
#![tactic(auto)]

#[cfg(test)]
mod channels;
#[cfg(test)]
mod crossing;
#[cfg(test)]
mod hosts;
#[cfg(test)]
mod samples;
#[cfg(test)]
mod schedules;
#[cfg(test)]
mod words;
