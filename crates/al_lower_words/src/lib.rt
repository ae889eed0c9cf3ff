//! The words of values: each value of a type has a word for each unit of it, which keeps the bytes of the unit. So do what
//! operators, conversions and members give. All is in specs/ and proofs/.
#![tactic(auto)]
