// Reflections of the columns and of the rows of a matrix that lies column by column in one slice. The
// Rust's `Reflection` wraps an axis; here the axis travels as a plain slice, or as a vector where the
// type tells how many numbers it has. Its bias is 0 in every use and is left out.
// Each function stands with a sign and without: both are public, and the second calls the first.
#![tactic(auto)]

mod columns;
mod place;
mod rows;
mod vector;

pub use columns::{reflect, reflect_with_sign};
pub use rows::{reflect_rows, reflect_rows_with_sign};
pub use vector::{
    reflect_by_vector, reflect_by_vector_with_sign, reflect_rows_by_vector,
    reflect_rows_by_vector_with_sign,
};
