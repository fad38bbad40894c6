// One pass over an open window: the double shift over three rows or more, the rotation of a block of two; and
// order 2 as a whole. A matrix of order n lies column by column in one slice. T is t, Q is q; q is rewritten
// only where it is wanted.
#![tactic(auto)]

mod block;
mod place;
mod setting;
mod shift;

pub use block::{
    Block, Values, compute_2x2_basis, compute_2x2_eigvals, decompose_2x2, discriminant, split,
};
pub use setting::Setting;
pub use shift::double_shift;
