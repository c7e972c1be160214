// Exact numbers for C and Rust, over numbers and slices: `sugamdely_NAME`. In C a slice is a pointer, then a length. Each returns document
// 01's refusal number: 0, and the answer is in the slices lent last; or another, and these are as they were.
// A curve is a list of its entries by order; a surface of its entries [i][j] by i, then j; a curve in the parameters of a surface is
// u0 v0 u1 v1 .. . A jet goes in as its order, then its list. A list lent for an answer has just the length that is due.

#![tactic(auto)]

pub mod carry;
pub mod exact_curves;
pub mod exact_surfaces;
pub mod part_lists;
pub mod whole_numbers;
