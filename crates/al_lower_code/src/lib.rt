//! How typed programs become operations. `specs/` has the definition, construct by construct: where variables stand in slots,
//! the operations of expressions, statements, functions and programs. Nothing here runs.
#![tactic(auto)]
