// A vector of N numbers. Its sums go left to right, and no zero leads.
ghost use Rattle.std.specs.Prelude.{◌≡◌};
ghost use Rattle.matrix.specs.Sum.{bare};
ghost use Rattle.matrix.specs.Vectors.{products, norm_squared, norm_of, unscaled, normalized};

#[derive(Clone, Copy)]
pub struct Vector<const N: usize>(pub [f64; N]);

impl<const N: usize> Vector<N> {
    // 0 where there are no numbers.
    #[tactic(auto, using(crate::proofs::Sums::bare_more), unfolding(crate::specs::Sum::bare))]
    pub fn dot(&self, other: &Vector<N>) -> f64
        ensures { result ≡ bare N (products self.now.0 other.now.0) }
    {
        if N == 0 {
            return 0.0;
        }
        let mut res = self.0[0] * other.0[0];
        for k in 1..N {
            res = res + self.0[k] * other.0[k];
        }
        res
    }

    #[tactic(auto, unfolding(crate::specs::Vectors::norm_squared))]
    pub fn norm_squared(&self) -> f64
        ensures { result ≡ norm_squared bare self.now.0 }
    {
        0.0 + self.dot(self)
    }

    #[tactic(auto, unfolding(crate::specs::Vectors::norm_of))]
    pub fn norm(&self) -> f64
        ensures { result ≡ norm_of bare self.now.0 }
    {
        scalar::sqrt(self.norm_squared())
    }

    pub fn unscale(&self, x: f64) -> Vector<N>
        ensures { result.0 ≡ unscaled x self.now.0 }
    {
        let mut v = *self;
        crate::scale::unscale_mut(&mut v.0, x);
        v
    }

    // Divided by the norm, a zero too.
    #[tactic(auto, unfolding(crate::specs::Vectors::normalized))]
    pub fn normalize(&self) -> Vector<N>
        ensures { result.0 ≡ normalized bare self.now.0 }
    {
        self.unscale(self.norm())
    }
}
