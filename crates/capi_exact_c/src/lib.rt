// Exact numbers for C: each function of `capi_exact` under its own name, with the same clauses. See there.

#![tactic(auto)]

mod carry;
mod exact_curves;
mod exact_surfaces;
mod part_lists;
mod whole_numbers;
