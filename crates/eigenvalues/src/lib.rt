// Eigenvalues: the readers of a given T.
#![tactic(auto)]

mod block;
mod readers;

pub use block::{BlockAnswer, Parts};
pub use readers::{
    complex_eigenvalues, complex_eigenvalues_of_finite, diagonal_if_real, eigenvalues,
    eigenvalues_of_finite,
};
