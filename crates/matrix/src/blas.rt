// The dot product of two slices, with the eight accumulators of the Rust's `dotx`.
ghost use Rattle.std.specs.Prelude.{◌≡◌};
ghost use Rattle.matrix.specs.Vectors.{dot_of};

// NaN where the lengths differ.
pub fn dot(x: &[f64], y: &[f64]) -> f64
    ensures { result ≡ dot_of x.now y.now }
{
    if x.len() != y.len() {
        return scalar::not_a_number();
    }
    let mut acc0 = 0.0;
    let mut acc1 = 0.0;
    let mut acc2 = 0.0;
    let mut acc3 = 0.0;
    let mut acc4 = 0.0;
    let mut acc5 = 0.0;
    let mut acc6 = 0.0;
    let mut acc7 = 0.0;
    // The two parts move on, which the compiler finds cheap enough to put in line wherever this is called. Pairs of
    // chunks would be the same eight lines, with both lengths tested at each turn.
    let mut u = x;
    let mut v = y;
    while u.len() >= 8 {
        acc0 += u[0] * v[0];
        acc1 += u[1] * v[1];
        acc2 += u[2] * v[2];
        acc3 += u[3] * v[3];
        acc4 += u[4] * v[4];
        acc5 += u[5] * v[5];
        acc6 += u[6] * v[6];
        acc7 += u[7] * v[7];
        u = &u[8..];
        v = &v[8..];
    }
    let mut res = 0.0 + (acc0 + acc4);
    res += acc1 + acc5;
    res += acc2 + acc6;
    res += acc3 + acc7;
    for (j, a) in u.iter().enumerate() {
        res += *a * v[j];
    }
    res
}
