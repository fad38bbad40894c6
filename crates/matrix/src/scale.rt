// Every number of a slice times, or divided by, one number: two loops, since a closure handed to a third is longer than
// the line in which they differ.
ghost use Rattle.std.specs.Prelude.{◌≡◌};
ghost use Rattle.matrix.specs.Vectors.{scaled, unscaled};

#[tactic(auto, using(crate::proofs::Each::rewriting), unfolding(crate::specs::Vectors::scaled))]
pub fn scale_mut(t: &mut [f64], x: f64)
    ensures { t.new ≡ scaled x t.old }
{
    for v in t.iter_mut() {
        *v *= x;
    }
}

// One division for each: no reciprocal.
#[tactic(auto, using(crate::proofs::Each::rewriting), unfolding(crate::specs::Vectors::unscaled))]
pub fn unscale_mut(t: &mut [f64], x: f64)
    ensures { t.new ≡ unscaled x t.old }
{
    for v in t.iter_mut() {
        *v /= x;
    }
}
