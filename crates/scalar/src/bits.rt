// f64 and its bit pattern. The logic has one NaN, and a pattern is looked at before it becomes a float, so every
// NaN pattern is read as that one, and it is written as 7FF8000000000000.
ghost use Rattle.std.specs.Prelude.{◌≡◌, from_bits, to_bits};
ghost use Rattle.std.specs.Float.{nan, binary64};

// NaN, of whichever bits the machine makes.
#[tactic(auto, using(crate::proofs::Patterns::quiet))]
pub fn not_a_number() -> f64
    ensures { result ≡ nan }
{
    f64::NAN
}

// The float of a pattern. Above that of infinity, the sign aside, the pattern is a NaN's.
#[tactic(auto, using(crate::proofs::Patterns::nan_pattern, crate::proofs::Patterns::no_pattern))]
pub fn of_bits(w: u64) -> f64
    ensures { result ≡ from_bits binary64 w }
{
    if 0x7ff0_0000_0000_0000 < w % 0x8000_0000_0000_0000 {
        return not_a_number();
    }
    f64::from_bits(w)
}

// The pattern of a float. It is read back as that float, and NaN as NaN.
#[tactic(auto, using(crate::proofs::Patterns::both_ways))]
pub fn bits_of(x: f64) -> u64
    ensures value { result ≡ to_bits binary64 x }
    ensures result_value { from_bits binary64 result ≡ x }
{
    if x.is_nan() {
        return 0x7ff8_0000_0000_0000;
    }
    f64::to_bits(x)
}
