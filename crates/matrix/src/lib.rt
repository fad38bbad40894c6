// Sums and building stones on a matrix that lies column by column in one slice. Slice and order go apart, here and in
// the crates above: each public function says what it does where they do not fit, and C calls it so. Loops go by row or
// column, of which places are made.
#![tactic(auto)]

mod blas;
mod block;
mod edition;
mod min_max;
mod norms;
mod scale;
mod vector;

pub use blas::dot;
pub use block::{block_fits, entry, put};
pub use edition::{copy_from, fill};
pub use min_max::camax;
pub use norms::{norm, norm_squared, normalize_mut};
pub use scale::{scale_mut, unscale_mut};
pub use vector::Vector;
