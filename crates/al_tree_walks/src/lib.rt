//! What stands in a tree of a statement or an expression, in text order: the statements and expressions in it, the branches of its pars, and the
//! places of its names. `specs/` has the definitions. Nothing here runs.
#![tactic(auto)]
