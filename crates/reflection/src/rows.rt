// Rows reflected, by an axis of a length known at run time: eight rows at a time, so that their sums stay
// in registers, then four where as many are left, then the rest one by one. Every entry's operations are in
// the Rust's order, and no work vector is needed.
ghost use Rattle.std.specs.Prelude.{◌≡◌, ◌+◌, ◌*◌, ◌≤◌, length};
ghost use Rattle.loops.specs.Constants.{one};
ghost use Rattle.matrix.specs.Entries.{in_block};
ghost use Rattle.matrix.specs.Product.{along};
ghost use Rattle.reflection.specs.Reflected.{mirrored_rows, reflected_rows};
ghost use Rattle.reflection.specs.Inner.{RowsFit, four_times, four_plus, four_put, four_along};
ghost use Rattle.reflection.specs.Inner.{eight_times, eight_plus, eight_put, eight_along};

// The sums of four rows. One function for any number of rows, its sums in an array, took 1.03 to 1.05 of the time at
// orders 16 to 64 and 1.3 at 3: so four and eight stay apart, in fields.
#[derive(Clone, Copy)]
struct Four {
    w0: f64,
    w1: f64,
    w2: f64,
    w3: f64,
}

// The four numbers of t from p on, times x.
fn times_four(t: &[f64], p: usize, x: f64) -> Four
    requires { (p + 4 ≤ length t.now) × (length t.now ≤ 4096) }
    ensures { result ≡ four_times t.now p x }
{
    Four {
        w0: t[p] * x,
        w1: t[p + 1] * x,
        w2: t[p + 2] * x,
        w3: t[p + 3] * x,
    }
}

// The same, added to w.
fn plus_four(t: &[f64], p: usize, x: f64, w: Four) -> Four
    requires { (p + 4 ≤ length t.now) × (length t.now ≤ 4096) }
    ensures { result ≡ four_plus t.now p x w }
{
    Four {
        w0: w.w0 + t[p] * x,
        w1: w.w1 + t[p + 1] * x,
        w2: w.w2 + t[p + 2] * x,
        w3: w.w3 + t[p + 3] * x,
    }
}

// The rows from i to i + 3, in the columns from c0 on, times a.
fn sums_of_four(a: &[f64], t: &[f64], n: usize, i: usize, c0: usize) -> Four
    requires { RowsFit n (i + 4) c0 a.now t.now }
    ensures { result ≡ four_along a.now n c0 t.now i }
{
    let o = crate::place::first_of(n, i, c0, 4);
    let mut w = times_four(t, o, a[0]);
    for j in 1..a.len() {
        let p = crate::place::first_of(n, i, c0 + j, 4);
        w = plus_four(t, p, a[j], w);
    }
    w
}

// The sums of eight rows: of the upper four, and of the lower.
#[derive(Clone, Copy)]
struct Eight {
    upper: Four,
    lower: Four,
}

// The eight numbers of t from p on, times x.
fn times_eight(t: &[f64], p: usize, x: f64) -> Eight
    requires { (p + 8 ≤ length t.now) × (length t.now ≤ 4096) }
    ensures { result ≡ eight_times t.now p x }
{
    Eight {
        upper: times_four(t, p, x),
        lower: times_four(t, p + 4, x),
    }
}

// The same, added to w.
fn plus_eight(t: &[f64], p: usize, x: f64, w: Eight) -> Eight
    requires { (p + 8 ≤ length t.now) × (length t.now ≤ 4096) }
    ensures { result ≡ eight_plus t.now p x w }
{
    let upper = w.upper;
    let lower = w.lower;
    Eight {
        upper: plus_four(t, p, x, upper),
        lower: plus_four(t, p + 4, x, lower),
    }
}

// The rows from i to i + 7, in the columns from c0 on, times a.
fn sums_of_eight(a: &[f64], t: &[f64], n: usize, i: usize, c0: usize) -> Eight
    requires { RowsFit n (i + 8) c0 a.now t.now }
    ensures { result ≡ eight_along a.now n c0 t.now i }
{
    let o = crate::place::first_of(n, i, c0, 8);
    let mut w = times_eight(t, o, a[0]);
    for j in 1..a.len() {
        let p = crate::place::first_of(n, i, c0 + j, 8);
        w = plus_eight(t, p, a[j], w);
    }
    w
}

// The four numbers of t from p on: factor times the row's sum, plus sign times what stands.
fn put_four(t: &mut [f64], p: usize, factor: f64, w: Four, sign: f64)
    requires { (p + 4 ≤ length t.old) × (length t.old ≤ 4096) }
    ensures { t.new ≡ four_put factor w sign p t.old }
{
    let e0 = t[p];
    let e1 = t[p + 1];
    let e2 = t[p + 2];
    let e3 = t[p + 3];
    t[p] = factor * w.w0 + sign * e0;
    t[p + 1] = factor * w.w1 + sign * e1;
    t[p + 2] = factor * w.w2 + sign * e2;
    t[p + 3] = factor * w.w3 + sign * e3;
}

// The rows from i to i + 3.
fn four_rows(a: &[f64], t: &mut [f64], n: usize, i: usize, c0: usize, sign: f64)
    requires { RowsFit n (i + 4) c0 a.now t.old }
    ensures { t.new ≡ in_block n i (i + 4) c0 (c0 + length a.now)
        (mirrored_rows a.now sign n c0 t.old) t.old }
{
    let w = sums_of_four(a, t, n, i, c0);
    let m_two = sign * -2.0;
    for j in 0..a.len() {
        let p = crate::place::first_of(n, i, c0 + j, 4);
        put_four(t, p, m_two * a[j], w, sign);
    }
}

// The eight numbers of t from p on, in the same way.
fn put_eight(t: &mut [f64], p: usize, factor: f64, w: Eight, sign: f64)
    requires { (p + 8 ≤ length t.old) × (length t.old ≤ 4096) }
    ensures { t.new ≡ eight_put factor w sign p t.old }
{
    let upper = w.upper;
    let lower = w.lower;
    put_four(t, p, factor, upper, sign);
    put_four(t, p + 4, factor, lower, sign);
}

// The rows from i to i + 7.
fn eight_rows(a: &[f64], t: &mut [f64], n: usize, i: usize, c0: usize, sign: f64)
    requires { RowsFit n (i + 8) c0 a.now t.old }
    ensures { t.new ≡ in_block n i (i + 8) c0 (c0 + length a.now)
        (mirrored_rows a.now sign n c0 t.old) t.old }
{
    let w = sums_of_eight(a, t, n, i, c0);
    let m_two = sign * -2.0;
    for j in 0..a.len() {
        let p = crate::place::first_of(n, i, c0 + j, 8);
        put_eight(t, p, m_two * a[j], w, sign);
    }
}

// Row i, in the columns from c0 on, times a.
fn sum(a: &[f64], t: &[f64], n: usize, i: usize, c0: usize) -> f64
    requires { RowsFit n (i + 1) c0 a.now t.now }
    ensures { result ≡ along a.now n c0 t.now i }
{
    let o = crate::place::at(n, i, c0);
    let mut w = t[o] * a[0];
    for j in 1..a.len() {
        let p = crate::place::at(n, i, c0 + j);
        w = w + t[p] * a[j];
    }
    w
}

// Row i.
fn one_row(a: &[f64], t: &mut [f64], n: usize, i: usize, c0: usize, sign: f64)
    requires { RowsFit n (i + 1) c0 a.now t.old }
    ensures { t.new ≡ in_block n i (i + 1) c0 (c0 + length a.now)
        (mirrored_rows a.now sign n c0 t.old) t.old }
{
    let w = sum(a, t, n, i, c0);
    let m_two = sign * -2.0;
    for j in 0..a.len() {
        let p = crate::place::at(n, i, c0 + j);
        t[p] = m_two * a[j] * w + sign * t[p];
    }
}

// Eight rows at a time, as many times as `eights` says.
fn rows_by_eight(a: &[f64], t: &mut [f64], n: usize, eights: usize, c0: usize, sign: f64)
    requires { RowsFit n (eights * 8) c0 a.now t.old }
    ensures { t.new ≡ in_block n 0 (eights * 8) c0 (c0 + length a.now)
        (mirrored_rows a.now sign n c0 t.old) t.old }
{
    for b in 0..eights {
        eight_rows(a, t, n, b * 8, c0, sign);
    }
}

// The rows from `from` to below `to`, one by one.
fn rows_by_one(a: &[f64], t: &mut [f64], n: usize, from: usize, to: usize, c0: usize, sign: f64)
    requires { RowsFit n to c0 a.now t.old × (from ≤ to) }
    ensures { t.new ≡ in_block n from to c0 (c0 + length a.now)
        (mirrored_rows a.now sign n c0 t.old) t.old }
{
    for i in from..to {
        one_row(a, t, n, i, c0, sign);
    }
}

// The same, four at once where as many are left.
fn rows_left(a: &[f64], t: &mut [f64], n: usize, from: usize, to: usize, c0: usize, sign: f64)
    requires { RowsFit n to c0 a.now t.old × (from ≤ to) }
    ensures { t.new ≡ in_block n from to c0 (c0 + length a.now)
        (mirrored_rows a.now sign n c0 t.old) t.old }
{
    if to - from < 4 {
        rows_by_one(a, t, n, from, to, c0, sign);
        return;
    }
    four_rows(a, t, n, from, c0, sign);
    rows_by_one(a, t, n, from + 4, to, c0, sign);
}

// The first `rows` rows of the matrix t of order n, in the columns from c0 on, as many as a is long.
// Nothing is done where these do not lie in the matrix.
pub fn reflect_rows_with_sign(a: &[f64], t: &mut [f64], n: usize, rows: usize, c0: usize, sign: f64)
    ensures { t.new ≡ reflected_rows a.now sign n rows c0 t.old }
{
    if !matrix::block_fits(n, t.len(), 0, rows, c0, a.len()) {
        return;
    }
    if a.len() == 0 {
        return;
    }
    let eights = rows / 8;
    rows_by_eight(a, t, n, eights, c0, sign);
    rows_left(a, t, n, eights * 8, rows, c0, sign);
}

// The same without a sign, that is with the sign 1.
pub fn reflect_rows(a: &[f64], t: &mut [f64], n: usize, rows: usize, c0: usize)
    ensures { t.new ≡ reflected_rows a.now one n rows c0 t.old }
{
    reflect_rows_with_sign(a, t, n, rows, c0, 1.0);
}
