//! Texts that are walked along schedules, with what is to come of them; apart from al_step, so that it is proved once.
#![tactic(auto)]

#[cfg(test)]
mod constructs;
#[cfg(test)]
mod shown;
#[cfg(test)]
mod walks;
#[cfg(test)]
mod worked;
