// The readers of a given T, a matrix of order n that lies column by column in one slice.
ghost use Rattle.std.specs.Prelude.{◌≡◌, length};
ghost use Rattle.loops.specs.Table.{table};
ghost use Rattle.refusal.specs.declared.refusal.Refusal.TheVariants.{WrongLength};
ghost use Rattle.refusal.specs.Refusal.{◌next◌};
ghost use Rattle.refusal.specs.Search.{first_on_diagonal};
ghost use Rattle.refusal.specs.Checks.{length_check};
ghost use Rattle.eigenvalues.specs.Blocks.{not_complex, eigenvalue_at};
ghost use Rattle.eigenvalues.specs.Inner.{Square};
ghost use Rattle.eigenvalues.specs.Readers.{any_paired, pair_check, diagonal};
ghost use Rattle.eigenvalues.specs.Readers.{read, diagonal_by, real_read, real_finite_of, diagonal_if_real};
ghost use Rattle.eigenvalues.specs.Readers.{not_finite_at, block_checks, complexly, eigenvalues_by, complex_read};
ghost use Rattle.eigenvalues.specs.Readers.{complex_finite_of};
ghost use Rattle.eigenvalues.specs.Real.{RealAnswer};

use crate::block::{BlockAnswer, answer_at, is_not_complex, is_paired};
use refusal::{Place, Refusal};

// Whether some block of two stands.
fn any_paired(t: &[f64], n: usize) -> bool
    requires { Square n (length t.now) }
    ensures { result ≡ any_paired n t.now }
{
    (0..n).any(|k| is_paired(t, n, k))
}

// The diagonal, bit for bit.
#[tactic(auto, unfolding(loops::specs::Table::table, crate::specs::Readers::diagonal))]
fn do_eigenvalues(t: &[f64], n: usize, values: &mut [f64])
    requires { Square n (length t.now) × (length values.old ≡ n) }
    ensures { values.new ≡ diagonal n t.now }
{
    for (k, value) in values.iter_mut().enumerate() {
        *value = matrix::entry(t, n, k, k);
    }
}

// The diagonal, if no block of two stands: else 10, and `values` is left as it was.
#[tactic(auto, using(crate::proofs::Making::made))]
fn diagonal_of(t: &[f64], n: usize, values: &mut [f64]) -> Result<(), Refusal>
    requires { Square n (length t.now) × (length values.old ≡ n) }
    ensures { read result values.new
        ≡ diagonal_by (pair_check n t.now) n t.now values.old }
{
    if any_paired(t, n) {
        return Err(Refusal::ComplexEigenvalues);
    }
    do_eigenvalues(t, n, values);
    Ok(())
}

// The eigenvalues of T, if all are real. A refusal leaves `values` as it was.
#[tactic(auto, using(crate::proofs::Making::made))]
pub fn eigenvalues(t: &[f64], n: usize, values: &mut [f64]) -> Result<(), Refusal>
    ensures values_after { read result values.new ≡ real_read n t.now values.old }
    ensures real_answer { RealAnswer n t.now values.old result values.new }
{
    refusal::check_order(n)?;
    refusal::check_length(t.len(), n * n, Refusal::WrongLength)?;
    refusal::check_length(values.len(), n, Refusal::WrongLength)?;
    refusal::check_entries(t, n)?;
    refusal::check_shape(t, n)?;
    diagonal_of(t, n, values)
}

// The same for entries that are known to be finite: they are not looked at again.
#[tactic(auto, using(crate::proofs::Making::made))]
pub fn eigenvalues_of_finite(t: &[f64], n: usize, values: &mut [f64]) -> Result<(), Refusal>
    ensures { read result values.new ≡ real_finite_of n t.now values.old }
{
    refusal::check_order(n)?;
    refusal::check_length(t.len(), n * n, Refusal::WrongLength)?;
    refusal::check_length(values.len(), n, Refusal::WrongLength)?;
    refusal::check_shape(t, n)?;
    diagonal_of(t, n, values)
}

// The same for a T whose entries and shape are known to be right, as an accepted T's are: they are not looked at
// again.
#[tactic(auto, using(crate::proofs::Making::made))]
pub fn diagonal_if_real(t: &[f64], n: usize, values: &mut [f64]) -> Result<(), Refusal>
    ensures { read result values.new ≡ diagonal_if_real n t.now values.old }
{
    refusal::check_order(n)?;
    refusal::check_length(t.len(), n * n, Refusal::WrongLength)?;
    refusal::check_length(values.len(), n, Refusal::WrongLength)?;
    diagonal_of(t, n, values)
}

// The first block that is not complex.
fn first_not_complex(t: &[f64], n: usize) -> Option<Place>
    requires { Square n (length t.now) }
    ensures { result ≡ first_on_diagonal (not_complex n t.now) n }
{
    (0..n)
        .find(|&k| is_not_complex(t, n, k))
        .map(|k| Place { row: k, col: k })
}

// The first eigenvalue that is not finite. Each pair's root is taken once: `before` is what the row before has
// answered, and nothing stands before row 0.
fn first_value_not_finite(t: &[f64], n: usize) -> Option<Place>
    requires { Square n (length t.now) }
    ensures { result ≡ first_on_diagonal (not_finite_at n t.now) n }
{
    let mut before = BlockAnswer::One(0.0);
    for k in 0..n {
        let here = answer_at(t, n, k);
        if !here.eigenvalue(before).is_finite() {
            return Some(Place { row: k, col: k });
        }
        before = here;
    }
    None
}

// The complex reader's own checks: 11, and 8 last.
#[tactic(auto, using(crate::proofs::Making::made))]
fn check_blocks(t: &[f64], n: usize) -> Result<(), Refusal>
    requires { Square n (length t.now) }
    ensures { result ≡ block_checks n t.now }
{
    if let Some(p) = first_not_complex(t, n) {
        return Err(Refusal::BlockNotComplex(p));
    }
    first_value_not_finite(t, n)
        .map(Refusal::ResultNotFinite)
        .map_or(Ok(()), Err)
}

// One for each row.
fn do_complex_eigenvalues(t: &[f64], n: usize, re: &mut [f64], im: &mut [f64])
    requires { Square n (length t.now) × (length re.old ≡ n) × (length im.old ≡ n) }
    ensures re_after { re.new ≡ table n (λ k. (eigenvalue_at n t.now k).re) }
    ensures im_after { im.new ≡ table n (λ k. (eigenvalue_at n t.now k).im) }
{
    let mut before = BlockAnswer::One(0.0);
    // By index, since each step writes into two lists: over a `zip` of two `iter_mut` an invariant can name neither.
    for k in 0..n {
        let here = answer_at(t, n, k);
        let e = here.eigenvalue(before);
        re[k] = e.re;
        im[k] = e.im;
        before = here;
    }
}

// Each list has one number for each row.
#[tactic(auto, using(refusal::proofs::ChecksInTurn::in_turn))]
fn check_lists(n: usize, re: usize, im: usize) -> Result<(), Refusal>
    ensures { result ≡ (length_check WrongLength re n next length_check WrongLength im n) }
{
    refusal::check_length(re, n, Refusal::WrongLength)?;
    refusal::check_length(im, n, Refusal::WrongLength)
}

// They are written if those checks pass; else both lists are left as they were.
#[tactic(auto, using(crate::proofs::Making::made))]
fn pairs_of(t: &[f64], n: usize, re: &mut [f64], im: &mut [f64]) -> Result<(), Refusal>
    requires { Square n (length t.now) × (length re.old ≡ n) × (length im.old ≡ n) }
    ensures { complexly result re.new im.new
        ≡ eigenvalues_by (block_checks n t.now) n t.now re.old im.old }
{
    check_blocks(t, n)?;
    do_complex_eigenvalues(t, n, re, im);
    Ok(())
}

// The eigenvalues of T, by their real and imaginary parts: two lists, as C lends them. A refusal leaves both as they
// were.
#[tactic(auto, using(crate::proofs::Making::made))]
pub fn complex_eigenvalues(
    t: &[f64],
    n: usize,
    re: &mut [f64],
    im: &mut [f64],
) -> Result<(), Refusal>
    ensures { complexly result re.new im.new
        ≡ complex_read n t.now re.old im.old }
{
    refusal::check_order(n)?;
    refusal::check_length(t.len(), n * n, Refusal::WrongLength)?;
    check_lists(n, re.len(), im.len())?;
    refusal::check_entries(t, n)?;
    refusal::check_shape(t, n)?;
    pairs_of(t, n, re, im)
}

// The same for entries that are known to be finite: they are not looked at again.
#[tactic(auto, using(crate::proofs::Making::made))]
pub fn complex_eigenvalues_of_finite(
    t: &[f64],
    n: usize,
    re: &mut [f64],
    im: &mut [f64],
) -> Result<(), Refusal>
    ensures { complexly result re.new im.new
        ≡ complex_finite_of n t.now re.old im.old }
{
    refusal::check_order(n)?;
    refusal::check_length(t.len(), n * n, Refusal::WrongLength)?;
    check_lists(n, re.len(), im.len())?;
    refusal::check_shape(t, n)?;
    pairs_of(t, n, re, im)
}
