// Floats in byte slices, eight bytes each, little-endian. Every NaN pattern is read as the one NaN, and that
// is written as 7FF8000000000000.
#![tactic(auto)]

mod floats;
mod search;

pub use floats::{decode, encode};
pub use search::first_not_finite;
