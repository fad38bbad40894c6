// Numbers of up to 128 digits, in two words: a sum, a square, a difference. The lower word runs round at 2^64, and the
// carry is read from a comparison: document 01 names this form, so no u128 stands in its place.
ghost use Rattle.std.specs.Prelude.{◌≡◌, ◌+◌, ◌*◌, ◌%◌, ◌^◌, ◌<◌};
ghost use Rattle.scalar.specs.Inner.{value_of, InTwo};

// The number hi * 2^64 + lo.
#[derive(Clone, Copy)]
pub struct Two {
    pub hi: u64,
    pub lo: u64,
}

// a + b: where the lower word ran round, it is below what was added.
pub(crate) fn plus(a: Two, b: u64) -> Two
    requires { a.hi < 2 ^ 63 }
    ensures { InTwo (value_of a.hi a.lo + b) (a.hi + 2) result.hi result.lo }
{
    let lo = a.lo.wrapping_add(b);
    if lo < b {
        return Two { hi: a.hi + 1, lo };
    }
    Two { hi: a.hi, lo }
}

// r * r. With r = a * 2^27 + c it is a * a * 2^54 + a * c * 2^28 + c * c, and each of the three products
// is within a word.
pub(crate) fn square(r: u64) -> Two
    requires { r < 2 ^ 53 }
    ensures { InTwo (r * r) (2 ^ 44) result.hi result.lo }
{
    let a = r / 0x800_0000;
    let c = r % 0x800_0000;
    let s = a * a;
    let m = a * c;
    let t = Two {
        hi: s / 0x400 + m / 0x10_0000_0000,
        lo: m % 0x10_0000_0000 * 0x1000_0000,
    };
    let u = plus(t, c * c);
    plus(u, s % 0x400 * 0x40_0000_0000_0000)
}

// a - b, modulo 2^128: each word by a difference that runs round at 2^64. Where the lower word of a is below
// that of b, the lower difference ran round, and the upper one lends it 1.
pub(crate) fn minus(a: Two, b: Two) -> Two
    ensures { (value_of result.hi result.lo + value_of b.hi b.lo) % 2 ^ 128 ≡ value_of a.hi a.lo }
{
    let lo = a.lo.wrapping_sub(b.lo);
    let hi = a.hi.wrapping_sub(b.hi);
    if a.lo < b.lo {
        return Two {
            hi: hi.wrapping_sub(1),
            lo,
        };
    }
    Two { hi, lo }
}
