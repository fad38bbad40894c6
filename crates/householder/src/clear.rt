// One column of the reduction.
ghost use Rattle.std.specs.Prelude.{◌≡◌, length, ◌+◌, ◌*◌, ◌≤◌};
ghost use Rattle.matrix.specs.Vectors.{copied};
ghost use Rattle.householder.specs.Cleared.{below_row, cleared, clear_of, both_sides};

// Both sides of the matrix t of order n by the axis that stands in column k below row k: all rows first,
// then the columns right of column k. The axis is copied into `work` and used there, since the matrix
// is rewritten meanwhile.
#[tactic(auto, using(crate::proofs::Bounds::bounds))]
fn reflect_both_sides(t: &mut [f64], n: usize, k: usize, work: &mut [f64], sign: f64)
    requires { (n ≤ 64) × (length t.old ≡ n * n) × (k + 2 ≤ n) × (n ≤ length work.old) }
    ensures { (t.new ≡ both_sides n k (below_row n k t.old) sign t.old)
        × (work.new ≡ copied (below_row n k t.old) work.old) }
{
    let next = k + 1;
    let a = k * n + next;
    let e = k * n + n;
    let m = e - a;
    matrix::copy_from(work, &t[a..e]);
    reflection::reflect_rows_with_sign(&work[0..m], t, n, n, next, sign);
    reflection::reflect_with_sign(&work[0..m], t, n, next, next, n, sign);
}

// Clears column icol of the matrix t of order n below the entry under its diagonal, by a reflection of
// both sides, and leaves the reflection's axis there. Answers the norm with its sign; a no-op that answers
// NaN unless there is a row below row icol and `work` has n numbers or more.
#[tactic(auto, using(crate::proofs::Bounds::bounds), unfolding(crate::specs::Cleared::clear_of))]
pub fn clear_column(t: &mut [f64], n: usize, icol: usize, work: &mut [f64]) -> f64
    ensures { cleared result t.new work.new
        ≡ clear_of n icol t.old work.old }
{
    if !matrix::block_fits(n, t.len(), icol, 2, icol, 2) {
        return scalar::not_a_number();
    }
    if n > work.len() {
        return scalar::not_a_number();
    }
    let a = icol * n + (icol + 1);
    let e = icol * n + n;
    let axis = crate::axis::reflection_axis_mut(&mut t[a..e]);
    let norm = axis.norm;
    if !axis.reflected {
        return norm;
    }
    reflect_both_sides(t, n, icol, work, scalar::signum(norm));
    norm
}
