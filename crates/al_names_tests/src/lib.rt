//! Tests of al_scope, al_flow, al_declare and al_poly on whole texts, apart from these so that each is proved once.
#![tactic(auto)]

#[cfg(test)]
mod instances;
#[cfg(test)]
mod names;
#[cfg(test)]
mod targets;
#[cfg(test)]
mod text;
