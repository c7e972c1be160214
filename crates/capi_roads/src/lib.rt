// Recipes of exact jets and the two roads for C and Rust, over numbers and slices: `sugamdely_NAME`, as `capi_exact` has the operations on exact
// jets.

#![tactic(auto)]

mod checks;
pub mod curve_recipes;
mod jets;
mod lists;
mod recipe_steps;
pub mod recipes;
