// The operations on jets of vectors for C and Rust, over numbers and slices: `sugamdely_NAME`, as `capi_floats` has them for jets of floats. A
// jet of vectors is the list of its vectors, three floats each.

#![tactic(auto)]

pub mod vector_curves;
pub mod vector_surfaces;
