// Every number of a slice made the same, or copied from another slice.
ghost use Rattle.std.specs.Prelude.{◌≡◌};
ghost use Rattle.matrix.specs.Vectors.{filled, copied};

#[tactic(auto, using(crate::proofs::Each::filled_is))]
pub fn fill(t: &mut [f64], x: f64)
    ensures { t.new ≡ filled x t.old }
{
    t.fill(x);
}

// To the front of t: a no-op where c is the longer one. By a loop: with `copy_from_slice`, which
// calls memcpy, a column of order 8 took 1.1 times as long to clear.
#[tactic(auto, using(crate::proofs::Copied::copying))]
pub fn copy_from(t: &mut [f64], c: &[f64])
    ensures { t.new ≡ copied c.now t.old }
{
    if c.len() <= t.len() {
        for (i, x) in c.iter().enumerate() {
            t[i] = *x;
        }
    }
}
