// The reduction of a matrix of order n to Hessenberg form, and H and Q out of what it leaves. The matrix
// lies column by column in one slice; the workspace has 2n numbers. Each function is a no-op unless the
// slices have these lengths.
#![tactic(auto)]

ghost use Rattle.std.specs.Prelude.{◌≡◌, eqb, length, ◌+◌, ◌*◌, ◌≤◌};
ghost use Rattle.matrix.specs.Entries.{in_block};
ghost use Rattle.hessenberg.specs.Reduced.{reduction, reduce_column, reduced};
ghost use Rattle.hessenberg.specs.Unpacked.{of_h, unpacked_h, unpacked_q};

// Whether the workspace has room for a matrix of order n, at most 64.
fn work_fits(n: usize, len: usize) -> bool
    requires { n ≤ 64 }
    ensures { result ≡ eqb len (2 * n) }
{
    len == 2 * n
}

// Column k: cleared in the first half of the workspace, its norm kept in the second.
fn reduce_column(hess: &mut [f64], n: usize, k: usize, work: &mut [f64])
    requires { (n ≤ 64) × (k + 2 ≤ n) × (length work.old ≡ 2 * n) }
    ensures { reduction hess.new work.new
        ≡ reduce_column n k (reduction hess.old work.old) }
{
    let norm = householder::clear_column(hess, n, k, &mut work[0..n]);
    work[n + k] = norm;
}

// All columns but the last. The axes of the reflections stand below the diagonal afterwards, and the norms
// with their signs in the second half of the workspace.
#[tactic(auto, using(householder::proofs::Bounds::bounds), unfolding(crate::specs::Reduced::reduced))]
pub fn new_with_workspace(hess: &mut [f64], n: usize, work: &mut [f64])
    ensures { reduction hess.new work.new
        ≡ reduced n hess.old work.old }
{
    if !matrix::block_fits(n, hess.len(), 0, n, 0, n) || !work_fits(n, work.len()) {
        return;
    }
    for k in 0..n.saturating_sub(1) {
        reduce_column(hess, n, k, work);
    }
}

// Q, from the reduced matrix and its norms.
#[tactic(auto, using(householder::proofs::Bounds::bounds), unfolding(crate::specs::Unpacked::unpacked_q))]
pub fn q(hess: &[f64], n: usize, work: &[f64], q: &mut [f64])
    ensures { q.new ≡ unpacked_q n hess.now work.now q.old }
{
    if n > 64 || !work_fits(n, work.len()) {
        return;
    }
    householder::assemble_q(hess, n, &work[n..2 * n], q);
}

// Column j of H: the magnitude of its norm just below the diagonal, +0 below that.
#[tactic(auto, using(householder::proofs::Bounds::bounds))]
fn unpack_column(hess: &mut [f64], n: usize, j: usize, work: &[f64])
    requires { (n ≤ 64) × (length hess.old ≡ n * n) × (j + 2 ≤ n) × (length work.now ≡ 2 * n) }
    ensures { hess.new ≡ in_block n 0 n j (j + 1) (of_h n work.now) hess.old }
{
    let p = j * n + (j + 1);
    let e = j * n + n;
    hess[p] = scalar::modulus(work[n + j]);
    matrix::fill(&mut hess[p + 1..e], 0.0);
}

// H: +0 from the second subdiagonal down, magnitudes just below the diagonal.
#[tactic(auto, using(householder::proofs::Bounds::bounds), unfolding(crate::specs::Unpacked::unpacked_h))]
pub fn unpack_h(hess: &mut [f64], n: usize, work: &[f64])
    ensures { hess.new ≡ unpacked_h n work.now hess.old }
{
    let last = n.saturating_sub(1);
    if !matrix::block_fits(n, hess.len(), 0, n, 0, last) || !work_fits(n, work.len()) {
        return;
    }
    for j in 0..last {
        unpack_column(hess, n, j, work);
    }
}
