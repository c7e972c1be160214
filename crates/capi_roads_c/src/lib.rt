// Recipes of exact jets and the two roads for C: each function of `capi_roads` under its own name, with the same clauses. See there.

#![tactic(auto)]

mod curve_recipes;
mod recipes;
