// The norm of a slice of a length known at run time, summed in eight lanes. A vector sums from left to right
// (`vector`), so it has functions of its own.
ghost use Rattle.std.specs.Prelude.{◌≡◌};
ghost use Rattle.matrix.specs.Sum.{lanes};
ghost use Rattle.matrix.specs.Vectors.{norm_squared, norm_of, normalized};

#[tactic(auto, using(crate::proofs::Sums::dot_of_self), unfolding(crate::specs::Vectors::norm_squared))]
pub fn norm_squared(c: &[f64]) -> f64
    ensures { result ≡ norm_squared lanes c.now }
{
    0.0 + crate::blas::dot(c, c)
}

#[tactic(auto, unfolding(crate::specs::Vectors::norm_of))]
pub fn norm(c: &[f64]) -> f64
    ensures { result ≡ norm_of lanes c.now }
{
    scalar::sqrt(norm_squared(c))
}

// Divides by the norm, a zero too.
#[tactic(auto, unfolding(crate::specs::Vectors::normalized))]
pub fn normalize_mut(c: &mut [f64])
    ensures { c.new ≡ normalized lanes c.old }
{
    let n = norm(c);
    crate::scale::unscale_mut(c, n);
}
