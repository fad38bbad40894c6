// What a caller is refused, by the numbers of document 01; the checks that several entries make, and the searches
// for the first entry at fault.
#![tactic(auto)]

mod checks;
mod refusal;
mod search;

pub use checks::{
    check_entries, check_length, check_lent, check_matrices, check_order, check_result, check_shape,
};
pub use refusal::{Place, Refusal, Told};
pub use search::{Finite, first_entry_not_finite, first_not_finite, first_spoiling};
