// Calls as another crate writes them, by public names alone, run as tests: of functions that no program here calls, and of traits with types of a
// crate's own, which have what a trait asks and no more.
#![tactic(auto)]

mod jets;
#[cfg(test)]
mod lists;
mod recipes;
