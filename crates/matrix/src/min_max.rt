// The largest magnitude.
ghost use Rattle.std.specs.Prelude.{◌≡◌};
ghost use Rattle.matrix.specs.Vectors.{largest, larger};

// The one held unless it is not at least the new one.
fn simd_max(held: f64, new: f64) -> f64
    ensures { result ≡ larger held new }
{
    if held >= new { held } else { new }
}

// 0 for an empty slice.
pub fn camax(t: &[f64]) -> f64
    ensures { result ≡ largest t.now }
{
    let Some((first, rest)) = t.split_first() else {
        return 0.0;
    };
    let mut max = scalar::modulus(*first);
    for v in rest {
        max = simd_max(max, scalar::modulus(*v));
    }
    max
}
