// A guess at a root, by steps on floats. Nothing rests on how near it is: whole numbers decide the
// root (`root.rt`), and a poor guess costs time alone.
ghost use Rattle.std.specs.Prelude.{◌<◌};

use crate::table::{BENDS, MIDDLES};

// Near the root of z times k, the power of two with the pattern b + 2^52, where z is the number of the
// pattern v taken to [1, 4). u is ready before the tables are, and m is k, or k times the root of 2. The
// test always holds: it parts the sum in two, since the compiler else takes pairs of its operations into
// vectors, and what it then moves about costs more than that saves.
#[tactic(auto, using(crate::proofs::Patterns::no_pattern))]
pub(crate) fn guess(v: u64, b: u64) -> f64
    requires { (v < 0x7ff0_0000_0000_0000) × (b < 0x7fd0_0000_0000_0000) }
{
    let piece = (v / 0x4000_0000_0000 % 128) as usize;
    let p = MIDDLES[piece];
    let c = BENDS[piece % 64];
    let u = f64::from_bits(v % 0x4000_0000_0000 + 0x3ff0_0000_0000_0000) - 1.0078125;
    let k = f64::from_bits(b + 0x10_0000_0000_0000);
    let m = f64::from_bits(
        b + 0x10_0000_0000_0000 + (v / 0x10_0000_0000_0000 + 1) % 2 * 0x6_a09e_667f_3bcd,
    );
    let u2 = u * u;
    let far = (c.3 + c.4 * u + c.5 * u2) * (u2 * u2 * m);
    if k < 1.0e200 {
        let near = c.0 * (u * m) + p.1 * k + (c.1 + c.2 * u) * (u2 * m);
        return p.0 * k + (near + far);
    }
    far
}
