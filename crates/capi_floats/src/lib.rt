// The operations on floats, vectors, matrices and jets of floats for C and Rust, over numbers and slices: `sugamdely_NAME`. In C a slice is a
// pointer, then a length. Each returns document 01's refusal number: 0, and the answer is in the slice lent last; or another, and that is as it
// was. A curve is a list of its entries by order; a surface of its entries [i][j] by i, then j; a vector is three floats; a curve in the
// parameters of a surface is u0 v0 u1 v1 .. . A jet goes in as its order, then its list. A list lent for an answer has just the length that is due.

#![tactic(auto)]

pub mod curves;
pub mod surfaces;
pub mod values;
