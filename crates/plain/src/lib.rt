// The plain entry: the eigenvalues of a matrix, if all are real. A matrix of order n lies column by column in
// one slice.
#![tactic(auto)]

ghost use Rattle.std.specs.Prelude.{◌≡◌, true, [], length, ◌*◌, ◌≤◌};
ghost use Rattle.pass.specs.Block.{block_at};
ghost use Rattle.pass.specs.Pair.{pair};
ghost use Rattle.schur.specs.Run.{run_fits};
ghost use Rattle.refusal.specs.Refusal.{◌next◌};
ghost use Rattle.refusal.specs.Checks.{order_checks, given_checks};
ghost use Rattle.decomposition.specs.Decomposition.{outcome};
ghost use Rattle.eigenvalues.specs.Readers.{read, left_by};
ghost use Rattle.plain.specs.Plain.{plain_lengths, Sized, plain_two, plain_ran, in_place};
ghost use Rattle.plain.specs.Plain.{plain_placed_of, plain_finite_of, plain, plain_of};

use pass::{Block, Setting, Values};
use refusal::{Place, Refusal};

// The order, then the lengths: of the matrix, of the list of eigenvalues, of the workspace.
#[tactic(auto, using(refusal::proofs::ChecksInTurn::in_turn), unfolding(crate::specs::Plain::plain_lengths))]
fn check_sizes(n: usize, mn: usize, vn: usize, wn: usize) -> Result<(), Refusal>
    ensures { result ≡ (order_checks n next plain_lengths n mn vn wn) }
{
    refusal::check_order(n)?;
    refusal::check_length(mn, n * n, Refusal::WrongLength)?;
    refusal::check_length(vn, n, Refusal::WrongLength)?;
    refusal::check_length(wn, 2 * n, Refusal::WrongLength)
}

// And the entries behind them: all the arguments, in the order of document 01's table.
#[tactic(auto, using(crate::proofs::Plainly::arguments))]
fn check_arguments(m: &[f64], n: usize, vn: usize, wn: usize) -> Result<(), Refusal>
    ensures { result ≡ given_checks (plain_lengths n (length m.now) vn wn) n m.now }
{
    check_sizes(n, m.len(), vn, wn)?;
    refusal::check_entries(m, n)
}

// Two eigenvalues, if both are finite.
#[tactic(auto, using(crate::proofs::Plainly::two))]
fn two_values(v: Values, values: &mut [f64]) -> Result<(), Refusal>
    requires { length values.old ≡ 2 }
    ensures { read result values.new ≡ left_by (plain_two (Some v)) values.old }
{
    if !scalar::is_finite(v.first) {
        return Err(Refusal::ResultNotFinite(Place { row: 0, col: 0 }));
    }
    if !scalar::is_finite(v.second) {
        return Err(Refusal::ResultNotFinite(Place { row: 1, col: 1 }));
    }
    values.copy_from_slice(&[v.first, v.second]);
    Ok(())
}

// A matrix of order 2 as a block. `pass` and `eigenvalues` read a block out of a larger matrix: a function for all
// three would be public, so it would test what they know.
fn block_of(m: &[f64]) -> Block
    requires { length m.now ≡ 4 }
    ensures { result ≡ block_at 2 0 m.now }
{
    Block {
        h00: m[0],
        h10: m[1],
        h01: m[2],
        h11: m[3],
    }
}

// What is lent beside a matrix of order n, once the arguments have passed: the list of eigenvalues, the workspace.
#[derive(Drop)]
struct Loan<'a> {
    n: usize,
    values: &'a mut [f64],
    work: &'a mut [f64],
    ghost sized: { Sized n (n * n) (length values.now) (length work.now) },
}

// The decomposition without Q, in place.
fn decompose(t: &mut [f64], n: usize, work: &mut [f64]) -> Result<u64, Refusal>
    requires { run_fits n (length t.old) (length work.old) ≡ true }
    ensures { outcome result (pair t.new []) work.new
        ≡ plain_ran n t.old work.old }
{
    let asked = Setting {
        order: n,
        wanted: false,
        tolerance: f64::EPSILON,
    };
    let mut q = [];
    let ran = schur::do_decompose(t, &mut q, asked, 10_000, work);
    decomposition::decide(ran, t, &mut q, asked)
}

impl Loan<'_> {
    ghost use Rattle.plain.specs.Inner.{TwoDone, RunDone, Done, KeptDone};

    // Order 2: no run, so that the matrix is only read, and the larger eigenvalue first; the workspace is cleared as a
    // run clears it.
    fn two(&mut self, m: &[f64]) -> Result<(), Refusal>
        requires { (length m.now ≡ self.old.n * self.old.n) × (self.old.n ≡ 2) }
        ensures { TwoDone m.now self.old result self.new }
    {
        matrix::fill(self.work, 0.0);
        let v = pass::compute_2x2_eigvals(block_of(m)).ok_or(Refusal::ComplexEigenvalues)?;
        two_values(v, self.values)
    }

    // Every other order: the diagonal of T, if it is accepted and no block of two stands.
    fn run(&mut self, t: &mut [f64]) -> Result<(), Refusal>
        requires { length t.old ≡ self.old.n * self.old.n }
        ensures { RunDone t.old self.old result t.new self.new }
    {
        decompose(t, self.n, self.work)?;
        eigenvalues::diagonal_if_real(t, self.n, self.values)
    }

    // Every order, in place.
    fn any(&mut self, t: &mut [f64]) -> Result<(), Refusal>
        requires { length t.old ≡ self.old.n * self.old.n }
        ensures { Done t.old self.old result t.new self.new }
    {
        if self.n == 2 {
            self.two(t)
        } else {
            self.run(t)
        }
    }

    // A matrix that is kept: a copy of it is worked on, in room for ROOM numbers: nothing here asks for memory.
    fn copied<const ROOM: usize>(&mut self, m: &[f64]) -> Result<(), Refusal>
        requires { (length m.now ≡ self.old.n * self.old.n) × (self.old.n * self.old.n ≤ ROOM) × (ROOM ≤ 4096) }
        ensures { KeptDone m.now self.old result self.new }
    {
        let mut room = [0.0f64; ROOM];
        let t = &mut room[..self.n * self.n];
        matrix::copy_from(t, m);
        self.any(t)
    }

    // Every order: 2 needs no room, and small ones do not pay for clearing a large room.
    fn kept(&mut self, m: &[f64]) -> Result<(), Refusal>
        requires { length m.now ≡ self.old.n * self.old.n }
        ensures { KeptDone m.now self.old result self.new }
    {
        if self.n == 2 {
            self.two(m)
        } else if self.n <= 8 {
            self.copied::<64>(m)
        } else if self.n <= 32 {
            self.copied::<1024>(m)
        } else {
            self.copied::<4096>(m)
        }
    }
}

// The eigenvalues of the matrix in t, if all are real; t becomes T, unless the order is 2, and the workspace has
// 2n numbers. Refused before the run, nothing is touched; after it, `values` is left as it was.
#[tactic(auto, using(crate::proofs::Plainly::begun), unfolding(crate::specs::Plain::plain_placed_of))]
pub fn plain_eigenvalues_in_place(
    t: &mut [f64],
    n: usize,
    values: &mut [f64],
    work: &mut [f64],
) -> Result<(), Refusal>
    ensures { in_place result t.new values.new work.new
        ≡ plain_placed_of n t.old values.old work.old }
{
    check_arguments(t, n, values.len(), work.len())?;
    Loan { n, values, work }.any(t)
}

// The same for entries that are known to be finite: they are not looked at again.
#[tactic(auto, using(crate::proofs::Plainly::begun), unfolding(crate::specs::Plain::plain_finite_of))]
pub fn plain_eigenvalues_of_finite(
    t: &mut [f64],
    n: usize,
    values: &mut [f64],
    work: &mut [f64],
) -> Result<(), Refusal>
    ensures { in_place result t.new values.new work.new
        ≡ plain_finite_of n t.old values.old work.old }
{
    check_sizes(n, t.len(), values.len(), work.len())?;
    Loan { n, values, work }.any(t)
}

// The same for a matrix that is kept: a copy of it is worked on in place.
#[tactic(auto, using(crate::proofs::Plainly::begun), unfolding(crate::specs::Plain::plain_placed_of))]
pub fn plain_eigenvalues(
    m: &[f64],
    n: usize,
    values: &mut [f64],
    work: &mut [f64],
) -> Result<(), Refusal>
    ensures { plain result values.new work.new
        ≡ plain_of n m.now values.old work.old }
{
    check_arguments(m, n, values.len(), work.len())?;
    Loan { n, values, work }.kept(m)
}
