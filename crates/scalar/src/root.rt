// The square root of an f64, correctly rounded: whole numbers decide, and a guess only saves time.
//
// A positive finite number is n smallest values, 2^-1074, and n = top * 4^h / 2^62, where top has 63
// or 64 digits and fills one word. Then document 01's X is top * 2^42, its F is h - 589, and R is the
// whole number nearest to the root of X. The pattern of R * 2^F is (h + 485) * 2^52 + R.
ghost use Rattle.std.specs.Prelude.{◌≡◌, ◌+◌, ◌*◌, ◌^◌, ◌<◌, true, T, from_bits};
ghost use Rattle.std.specs.Float.{binary64};
ghost use Rattle.std.specs.Float.Ieee.{nan_bits};
ghost use Rattle.scalar.specs.Root.{root_of, root_bits};
ghost use Rattle.scalar.specs.Rooted.{Near};
ghost use Rattle.scalar.specs.Inner.{PositiveBelow, Scaled};

use crate::bits::{bits_of, not_a_number, of_bits};
use crate::guess::guess;
use crate::halves::{Two, minus, plus, square};

// 2^52: the leading digit of a normal number, and one step of the exponent's field.
const LEADING: u64 = 0x10_0000_0000_0000;

// The patterns of 0.5, 1.0, +infinity and -0.0.
const HALF: u64 = f64::to_bits(0.5);

const ONE: u64 = f64::to_bits(1.0);

const INFINITY: u64 = f64::to_bits(f64::INFINITY);

const MINUS_ZERO: u64 = f64::to_bits(-0.0);

// A number as top * 4^h / 2^62 smallest values, and the pattern of a normal number with the same digits and
// an exponent of the same parity, which the guess goes by.
#[derive(Clone, Copy)]
struct Place {
    top: u64,
    h: u64,
    like: u64,
}

// A number below the smallest normal one.
#[tactic(auto, using(crate::proofs::root::Steps::lifting))]
fn lifted(w: u64) -> Place
    requires { PositiveBelow (2 ^ 52) w }
    ensures { Scaled w result.top result.h result.like }
{
    let mut top = w * 1024;
    let mut h = 26;
    // Two digits at a turn, until the first is there: by `leading_zeros` the shift would have to be made even.
    while top < 0x4000_0000_0000_0000 {
        top *= 4;
        h -= 1;
    }
    if top < 0x8000_0000_0000_0000 {
        return Place {
            top,
            h,
            like: top / 1024 + HALF,
        };
    }
    Place {
        top,
        h,
        like: top / 2048 + ONE,
    }
}

// The number of the positive finite pattern w.
#[tactic(auto, using(crate::proofs::root::Steps::placing))]
fn scaled(w: u64) -> Place
    requires { PositiveBelow 0x7ff0_0000_0000_0000 w }
    ensures { Scaled w result.top result.h result.like }
{
    let f = w / LEADING;
    if f == 0 {
        return lifted(w);
    }
    let k = f - 1;
    let q = w % LEADING + LEADING;
    Place {
        top: q * (k % 2 * 1024 + 1024),
        h: k / 2 + 26,
        like: w,
    }
}

// Whether r is seen to be the whole number nearest to the root of X: where 0 < X + r - r * r <= 2 * r. Below 0
// that runs round, and its upper word is not 0.
fn nearest(top: u64, r: u64) -> bool
    requires { r < 2 ^ 53 }
    ensures { result ≡ true → Near (top * 2 ^ 42) r }
{
    let x = Two {
        hi: top / 0x40_0000,
        lo: top % 0x40_0000 * 0x400_0000_0000,
    };
    let left = minus(plus(x, r), square(r));
    left.hi == 0 && 0 < left.lo && left.lo <= r * 2
}

// The whole number nearest to the root of X, digit by digit.
#[tactic(auto, using(crate::proofs::root::Steps::by_digits))]
fn digits(top: u64) -> u64
    requires { 0 < top }
    ensures { Near (top * 2 ^ 42) result }
{
    let mut left = top;
    let mut rem = 0;
    let mut root = 0;
    'digits: for _ in 0..53u32 {
        rem = rem * 4 + left / 0x4000_0000_0000_0000;
        left = left % 0x4000_0000_0000_0000 * 4;
        let trial = root * 4 + 1;
        root *= 2;
        if trial <= rem {
            rem -= trial;
            root += 1;
        }
    }
    if root < rem { root + 1 } else { root }
}

// The same where r was tried and is not it: a neighbour of r, and else by digits.
fn beside(top: u64, r: u64) -> u64
    requires { (0 < top) × ((0 < r) × (r < 2 ^ 53)) }
    ensures { Near (top * 2 ^ 42) result }
{
    if nearest(top, r - 1) {
        r - 1
    } else if r < 0x1f_ffff_ffff_ffff && nearest(top, r + 1) {
        r + 1
    } else {
        digits(top)
    }
}

// The root of the number of the positive finite pattern w. Near 1 it follows from the pattern. Else the
// guess is the answer if its last 53 digits, the leading one with them, are those of R.
fn positive(w: u64) -> f64
    requires { PositiveBelow 0x7ff0_0000_0000_0000 w }
    ensures { result ≡ root_of (from_bits binary64 w) }
{
    if ONE - 0x400_0000 <= w && w <= ONE + 0x400_0000 {
        return f64::from_bits((w + ONE) / 2);
    }
    let Place { top, h, like } = scaled(w);
    let b = (h + 485) * LEADING;
    let x = guess(like, b);
    if x < 1.0e200
        && let Some(r @ 1..0x20_0000_0000_0000) = f64::to_bits(x).checked_sub(b)
    {
        if nearest(top, r) {
            return x;
        }
        return f64::from_bits(b + beside(top, r));
    }
    f64::from_bits(b + digits(top))
}

// The zeros and +infinity are their own roots; NaN and numbers below 0 have the root NaN.
pub fn sqrt(x: f64) -> f64
    ensures { result ≡ root_of x }
{
    if x.is_nan() {
        return not_a_number();
    }
    let w = f64::to_bits(x);
    if 0 < w && w < INFINITY {
        positive(w)
    } else if w == 0 || w == INFINITY || w == MINUS_ZERO {
        x
    } else {
        not_a_number()
    }
}

// The same from pattern to pattern.
#[tactic(auto, using(crate::proofs::root::Special::in_bits))]
pub fn sqrt_bits(w: u64) -> u64
    ensures { (result ≡ root_bits w) × (T (nan_bits binary64 w) → result ≡ 0x7ff8_0000_0000_0000) }
{
    bits_of(sqrt(of_bits(w)))
}
