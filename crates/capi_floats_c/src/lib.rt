// Floats, vectors, matrices and jets of floats for C: each function of `capi_floats` under its own name, with the same clauses. See there.

#![tactic(auto)]

mod curves;
mod surfaces;
mod values;
