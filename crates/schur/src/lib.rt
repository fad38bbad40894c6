// The real Schur decomposition: the run, from the reduction to the last window. A matrix of order n lies
// column by column in one slice.
#![tactic(auto)]

mod run;

pub use run::{State, Stopped, do_decompose};
