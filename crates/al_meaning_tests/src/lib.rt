//! Worked runs of small programs as theorems: `specs/Worked.antt` has those of programs by the source meaning, and
//! `specs/Operations.antt` those of programs of operations. Nothing here runs.
#![tactic(auto)]
