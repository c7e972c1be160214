// Jets of vectors for C: each function of `capi_vectors` under its own name, with the same clauses. See there.

#![tactic(auto)]

mod vector_curves;
mod vector_surfaces;
