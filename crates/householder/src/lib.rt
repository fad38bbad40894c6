// Householder reflections: the axis of one, a column cleared by one, and Q put together from many.
#![tactic(auto)]

mod assemble;
mod axis;
mod clear;

pub use assemble::assemble_q;
pub use axis::{Axis, reflection_axis_mut, reflection_axis_of_vector};
pub use clear::clear_column;
