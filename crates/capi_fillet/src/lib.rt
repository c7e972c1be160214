// The fillet for C and Rust, over numbers and slices: `sugamdely_NAME`, as `capi_floats` and `capi_vectors` have the operations on jets. Where
// several lists are lent for an answer, a refusal leaves all of them as they were.

#![tactic(auto)]

pub mod fillet;
