//! Tests of al_tree, al_parse_type and al_parse_expr, apart from these so that each is proved once.
#![tactic(auto)]

#[cfg(test)]
mod constants;
#[cfg(test)]
mod expressions;
#[cfg(test)]
mod types;
