// f64 by itself: the square root, sign and magnitude, tests for zero and for finite, and the way to
// and from bit patterns.
#![tactic(auto)]

mod bits;
mod class;
mod guess;
mod halves;
mod root;
mod sign;
mod table;

pub use bits::{bits_of, not_a_number, of_bits};
pub use class::{is_finite, is_zero};
pub use root::{sqrt, sqrt_bits};
pub use sign::{Exp, modulus, signum, to_exp};
