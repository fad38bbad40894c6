// Columns and rows reflected by an axis of N numbers, as a pass uses them. Columns: no zero leads the sum. Rows: one
// pass over the rows, and each is read before any of it is rewritten, so that its numbers stay in registers. For an
// axis in a slice, see `columns`, whose sums are others, in eight lanes, and `rows`, which goes eight rows at a time.
ghost use Rattle.std.specs.Prelude.{◌≡◌, ◌+◌, ◌*◌, ◌<◌, ◌≤◌, length};
ghost use Rattle.loops.specs.Constants.{one};
ghost use Rattle.loops.specs.Place.{place};
ghost use Rattle.loops.specs.Rounded.{◌!◌};
ghost use Rattle.loops.specs.Table.{table};
ghost use Rattle.matrix.specs.Sum.{bare};
ghost use Rattle.matrix.specs.Entries.{in_block};
ghost use Rattle.reflection.specs.Reflected.{mirrored_rows, reflected, reflected_rows};

use matrix::Vector;

// The numbers of t from o on.
fn down<const N: usize>(t: &[f64], o: usize) -> Vector<N>
    requires { (o + N ≤ length t.now) × (length t.now ≤ 4096) }
    ensures { result.0 ≡ table N (λ k. t.now ! (o + k)) }
{
    let mut u = Vector([0.0; N]);
    for k in 0..N {
        u.0[k] = t[o + k];
    }
    u
}

// Rows `row` to row + N - 1 of the columns from c0 to below c1.
pub fn reflect_by_vector_with_sign<const N: usize>(
    a: &Vector<N>,
    t: &mut [f64],
    n: usize,
    row: usize,
    c0: usize,
    c1: usize,
    sign: f64,
)
    ensures { t.new ≡ reflected bare a.now.0 sign n row c0 c1 t.old }
{
    // As a slice, whose length the contract speaks of.
    let x: &[f64] = &a.0;
    if !matrix::block_fits(n, t.len(), row, x.len(), 0, c1) {
        return;
    }
    let m_two = sign * -2.0;
    for j in c0..c1 {
        let o = crate::place::first_of(n, row, j, N);
        let factor = a.dot(&down(t, o)) * m_two;
        crate::columns::axpy(t, o, factor, x, sign);
    }
}

// The same without a sign, that is with the sign 1.
pub fn reflect_by_vector<const N: usize>(
    a: &Vector<N>,
    t: &mut [f64],
    n: usize,
    row: usize,
    c0: usize,
    c1: usize,
)
    ensures { t.new ≡ reflected bare a.now.0 one n row c0 c1 t.old }
{
    reflect_by_vector_with_sign(a, t, n, row, c0, c1, 1.0);
}

// Row i of t in the columns from c0 on.
fn across<const N: usize>(t: &[f64], n: usize, i: usize, c0: usize) -> Vector<N>
    requires { (n ≤ 64) × (length t.now ≡ n * n) × (i < n) × (c0 + N ≤ n) }
    ensures { result.0 ≡ table N (λ j. t.now ! place n i (c0 + j)) }
{
    let mut u = Vector([0.0; N]);
    for j in 0..N {
        u.0[j] = t[crate::place::at(n, i, c0 + j)];
    }
    u
}

// Row i in the columns from c0 on.
fn reflect_row<const N: usize>(
    a: &Vector<N>,
    t: &mut [f64],
    n: usize,
    i: usize,
    c0: usize,
    sign: f64,
)
    requires { (n ≤ 64) × (length t.old ≡ n * n) × (i < n) × (c0 + N ≤ n) }
    ensures { t.new ≡ in_block n i (i + 1) c0 (c0 + N) (mirrored_rows a.now.0 sign n c0 t.old)
        t.old }
{
    let x: &[f64] = &a.0;
    let u: Vector<N> = across(t, n, i, c0);
    let w = u.dot(a);
    let m_two = sign * -2.0;
    for j in 0..N {
        let p = crate::place::at(n, i, c0 + j);
        t[p] = m_two * x[j] * w + sign * u.0[j];
    }
}

// Columns c0 to c0 + N - 1 of the first `rows` rows.
pub fn reflect_rows_by_vector_with_sign<const N: usize>(
    a: &Vector<N>,
    t: &mut [f64],
    n: usize,
    rows: usize,
    c0: usize,
    sign: f64,
)
    ensures { t.new ≡ reflected_rows a.now.0 sign n rows c0 t.old }
{
    let x: &[f64] = &a.0;
    if !matrix::block_fits(n, t.len(), 0, rows, c0, x.len()) {
        return;
    }
    for i in 0..rows {
        reflect_row(a, t, n, i, c0, sign);
    }
}

// The same without a sign, that is with the sign 1.
pub fn reflect_rows_by_vector<const N: usize>(
    a: &Vector<N>,
    t: &mut [f64],
    n: usize,
    rows: usize,
    c0: usize,
)
    ensures { t.new ≡ reflected_rows a.now.0 one n rows c0 t.old }
{
    reflect_rows_by_vector_with_sign(a, t, n, rows, c0, 1.0);
}
