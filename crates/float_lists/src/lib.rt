// What the functions over lists of floats and of vectors answer is written whole, for every operation: theorems over crates/given, which needs no
// function of this crate.

#![tactic(auto)]
