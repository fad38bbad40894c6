// Givens rotations by value, and what they do to rows and columns of a matrix that lies column by
// column in one slice.
#![tactic(auto)]

ghost use Rattle.std.specs.Prelude.{◌≡◌, ◌+◌, ◌*◌, ◌<◌, ◌≤◌};
ghost use Rattle.givens.specs.Rotation.{identity_of, inverse_of, try_new, new_of, cancel_y};
ghost use Rattle.givens.specs.Rotated.{rotated, rotated_rows};

// Cosine and sine.
#[derive(Clone, Copy, Debug, PartialEq)]
pub struct Rotation {
    pub c: f64,
    pub s: f64,
}

// A rotation, with the norm of the pair that it was made from.
#[derive(Clone, Copy, Debug, PartialEq)]
pub struct Turn {
    pub rotation: Rotation,
    pub norm: f64,
}

// Where row i of column j of a matrix of order n lies.
// `reflection` has its own: both ask that the place is there, which no public function may.
#[tactic(auto, using(loops::specs::Place::placed))]
fn at(n: usize, i: usize, j: usize) -> usize
    requires { (n ≤ 64) × (i < n) × (j < n) }
    ensures { (result ≡ j * n + i) × (j * n + i < n * n) × (n * n ≤ 4096) }
{
    j * n + i
}

impl Rotation {
    // The rotation that does nothing.
    pub fn identity() -> Rotation
        ensures { result ≡ identity_of }
    {
        Rotation { c: 1.0, s: 0.0 }
    }

    // From a cosine and a sine that are not normalized: the identity where their length is not above 0.
    #[tactic(auto, unfolding(crate::specs::Rotation::new_of))]
    pub fn new(c: f64, s: f64) -> Turn
        ensures { result ≡ new_of c s }
    {
        Rotation::try_new(c, s, 0.0).unwrap_or(Turn {
            rotation: Rotation::identity(),
            norm: 0.0,
        })
    }

    // The same: none where the length is not above eps.
    #[tactic(auto, unfolding(crate::specs::Rotation::try_new))]
    pub fn try_new(c: f64, s: f64, eps: f64) -> Option<Turn>
        ensures { result ≡ try_new c s eps }
    {
        let exp = scalar::to_exp(c);
        let mod0 = exp.magnitude;
        let denom = scalar::sqrt(mod0 * mod0 + s * s);
        if denom > eps {
            let norm = exp.sign * denom;
            return Some(Turn {
                rotation: Rotation {
                    c: mod0 / denom,
                    s: s / norm,
                },
                norm,
            });
        }
        None
    }

    // The rotation that takes (x, y) to (norm, 0): none is needed where y is 0.
    #[tactic(auto, unfolding(crate::specs::Rotation::cancel_y))]
    pub fn cancel_y(x: f64, y: f64) -> Option<Turn>
        ensures { result ≡ cancel_y x y }
    {
        if scalar::is_zero(y) {
            return None;
        }
        let exp = scalar::to_exp(x);
        let mod0 = exp.magnitude;
        let denom = scalar::sqrt(mod0 * mod0 + y * y);
        let norm = exp.sign * denom;
        Some(Turn {
            rotation: Rotation {
                c: mod0 / denom,
                s: -y / norm,
            },
            norm,
        })
    }

    // The other way: the sine negated.
    pub fn inverse(self) -> Rotation
        ensures { result ≡ inverse_of self }
    {
        Rotation {
            c: self.c,
            s: -self.s,
        }
    }

    // Turns rows i and i + 1 of the matrix t of order n, in the columns from c0 to below c1. A no-op
    // unless they lie in the matrix.
    pub fn rotate(self, t: &mut [f64], n: usize, i: usize, c0: usize, c1: usize)
        ensures { t.new ≡ rotated self n i c0 c1 t.old }
    {
        if !matrix::block_fits(n, t.len(), i, 2, 0, c1) {
            return;
        }
        let c = self.c;
        let s = self.s;
        for j in c0..c1 {
            let p = at(n, i, j);
            let q = at(n, i + 1, j);
            let a = t[p];
            let b = t[q];
            t[p] = a * c - s * b;
            t[q] = s * a + b * c;
        }
    }

    // Turns columns k and k + 1 of the matrix t of order n, in its first `rows` rows. A no-op unless
    // they lie in the matrix.
    pub fn rotate_rows(self, t: &mut [f64], n: usize, k: usize, rows: usize)
        ensures { t.new ≡ rotated_rows self n k rows t.old }
    {
        if !matrix::block_fits(n, t.len(), 0, rows, k, 2) {
            return;
        }
        let c = self.c;
        let s = self.s;
        let m = -s;
        for i in 0..rows {
            let p = at(n, i, k);
            let q = p + n;
            let a = t[p];
            let b = t[q];
            t[p] = a * c + s * b;
            t[q] = m * a + b * c;
        }
    }
}
