//! Tests of al_workers on threads, and the loads that `bench/workers` times.
#![tactic(auto)]

#[cfg(test)]
mod loads;
#[cfg(test)]
mod meeting;
#[cfg(test)]
mod programs;
#[cfg(test)]
mod rounds;
#[cfg(test)]
mod running;
