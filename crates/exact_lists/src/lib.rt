// What the functions for C and Rust over lists of whole numbers share: a single number into the list lent, which has just the length that is due.

#![tactic(auto)]

pub mod deliver;
