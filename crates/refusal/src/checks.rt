// The checks that several entries make, each with the refusal that it comes to. Those who make several in turn
// answer the first that does not pass.
ghost use Rattle.std.specs.Prelude.{◌≡◌};
ghost use Rattle.refusal.specs.declared.refusal.Refusal.TheVariants.{WrongLength, ResultNotFinite, ShapeSpoiled};
ghost use Rattle.refusal.specs.Refusal.{refuse_at};
ghost use Rattle.refusal.specs.Search.{first_not_finite, first_spoiling};
ghost use Rattle.refusal.specs.Checks.{order_checks, length_check, lent_lengths, matrix_lengths, entry_checks};

use crate::refusal::Refusal;
use crate::search::{first_not_finite, first_spoiling};

// The order is 0: 1. It is above 64: 2.
#[tactic(auto, using(crate::proofs::ChecksInTurn::in_turn), unfolding(crate::specs::Checks::order_checks))]
pub fn check_order(n: usize) -> Result<(), Refusal>
    ensures { result ≡ order_checks n }
{
    if n == 0 {
        return Err(Refusal::OrderZero);
    }
    if n > 64 {
        return Err(Refusal::OrderTooLarge);
    }
    Ok(())
}

// What is lent has another length than it needs.
#[tactic(auto, using(crate::proofs::ChecksInTurn::in_turn), unfolding(crate::specs::Checks::length_check))]
pub fn check_length(has: usize, needs: usize, fault: Refusal) -> Result<(), Refusal>
    ensures { result ≡ length_check fault has needs }
{
    if has != needs {
        return Err(fault);
    }
    Ok(())
}

// What is lent for T, then for Q if it is wanted.
#[tactic(auto, using(crate::proofs::PassedChecks::asked_in_turn), unfolding(crate::specs::Checks::lent_lengths))]
pub fn check_lent(wanted: bool, needs: usize, tn: usize, qn: usize) -> Result<(), Refusal>
    ensures { result ≡ lent_lengths wanted needs tn qn }
{
    check_length(tn, needs, Refusal::WrongLength)?;
    if !wanted {
        return Ok(());
    }
    check_length(qn, needs, Refusal::WrongLength)
}

// The matrix, then what is lent for T and Q.
#[tactic(auto, using(crate::proofs::ChecksInTurn::in_turn), unfolding(crate::specs::Checks::matrix_lengths))]
pub fn check_matrices(
    wanted: bool,
    needs: usize,
    mn: usize,
    tn: usize,
    qn: usize,
) -> Result<(), Refusal>
    ensures { result ≡ matrix_lengths wanted needs mn tn qn }
{
    check_length(mn, needs, Refusal::WrongLength)?;
    check_lent(wanted, needs, tn, qn)
}

// An entry handed in is NaN or infinite: 6.
#[tactic(auto, using(crate::proofs::ChecksInTurn::in_turn), unfolding(crate::specs::Checks::entry_checks))]
pub fn check_entries(m: &[f64], n: usize) -> Result<(), Refusal>
    ensures { result ≡ entry_checks n m.now }
{
    first_not_finite(m, n)
        .map(Refusal::EntryNotFinite)
        .map_or(Ok(()), Err)
}

// An entry that was worked out is NaN or infinite: 8.
#[tactic(auto, using(crate::proofs::ChecksInTurn::in_turn))]
pub fn check_result(t: &[f64], n: usize) -> Result<(), Refusal>
    ensures { result ≡ refuse_at ResultNotFinite (first_not_finite n t.now) }
{
    first_not_finite(t, n)
        .map(Refusal::ResultNotFinite)
        .map_or(Ok(()), Err)
}

// An entry spoils the quasi-triangular shape: 9.
#[tactic(auto, using(crate::proofs::ChecksInTurn::in_turn))]
pub fn check_shape(t: &[f64], n: usize) -> Result<(), Refusal>
    ensures { result ≡ refuse_at ShapeSpoiled (first_spoiling n t.now) }
{
    first_spoiling(t, n)
        .map(Refusal::ShapeSpoiled)
        .map_or(Ok(()), Err)
}
