//! The code that operations become: the instructions of each operation, and how an image of them is laid out. All of it is
//! definitions, in specs/.
#![tactic(auto)]
