// Columns reflected, by an axis of a length known at run time.
ghost use Rattle.std.specs.Prelude.{◌≡◌, ◌+◌, ◌≤◌, length};
ghost use Rattle.loops.specs.Constants.{one};
ghost use Rattle.matrix.specs.Sum.{lanes};
ghost use Rattle.reflection.specs.Reflected.{reflected};
ghost use Rattle.reflection.specs.Inner.{axpy_of};

// The numbers of t from o on, as many as a is long: factor times that of a, plus sign times what stands.
pub(crate) fn axpy(t: &mut [f64], o: usize, factor: f64, a: &[f64], sign: f64)
    requires { (o + length a.now ≤ length t.old) × (length t.old ≤ 4096) }
    ensures { t.new ≡ axpy_of factor a.now sign o t.old }
{
    for i in 0..a.len() {
        let p = o + i;
        t[p] = factor * a[i] + sign * t[p];
    }
}

// Reflects the columns from c0 to below c1 of the matrix t of order n, in the rows from `row` on, as
// many as a is long. Nothing is done where these do not lie in the matrix.
pub fn reflect_with_sign(
    a: &[f64],
    t: &mut [f64],
    n: usize,
    row: usize,
    c0: usize,
    c1: usize,
    sign: f64,
)
    ensures { t.new ≡ reflected lanes a.now sign n row c0 c1 t.old }
{
    if !matrix::block_fits(n, t.len(), row, a.len(), 0, c1) {
        return;
    }
    let m_two = sign * -2.0;
    for j in c0..c1 {
        let o = j * n + row;
        let e = o + a.len();
        let factor = matrix::dot(a, &t[o..e]) * m_two;
        axpy(t, o, factor, a, sign);
    }
}

// The same without a sign, that is with the sign 1.
pub fn reflect(a: &[f64], t: &mut [f64], n: usize, row: usize, c0: usize, c1: usize)
    ensures { t.new ≡ reflected lanes a.now one n row c0 c1 t.old }
{
    reflect_with_sign(a, t, n, row, c0, c1, 1.0);
}
