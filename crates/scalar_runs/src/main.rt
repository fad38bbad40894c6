// Runs each function of `scalar` on a list of patterns and prints a line for each: the pattern, its root,
// signum, modulus, magnitude and sign of to_exp, all by their bits, then 1 or 0 for finite and for zero.
// The file stdout beside src/ is what the Rust functions answer (`oracle/run scalar` makes it again and compares).
#![tactic(auto)]

use std::io;

const PATTERNS: [u64; 55] = [
    // zeros, the smallest and the largest subnormal, the smallest normal
    0x0000_0000_0000_0000,
    0x8000_0000_0000_0000,
    0x0000_0000_0000_0001,
    0x8000_0000_0000_0001,
    0x0000_0000_0000_0002,
    0x0000_0000_0000_0003,
    0x000f_ffff_ffff_ffff,
    0x0010_0000_0000_0000,
    0x0010_0000_0000_0001,
    // about the smallest numbers whose squares do not vanish, 2^-538 to 2^-537
    0x1e50_0000_0000_0000,
    0x1e56_a09e_667f_3bcc,
    0x1e56_a09e_667f_3bcd,
    0x1e60_0000_0000_0000,
    0x1e70_0000_0000_0000,
    // about 1
    0x3fef_ffff_fbff_ffff,
    0x3fef_ffff_fc00_0000,
    0x3fef_ffff_ffff_fffd,
    0x3fef_ffff_ffff_fffe,
    0x3fef_ffff_ffff_ffff,
    0x3ff0_0000_0000_0000,
    0x3ff0_0000_0000_0001,
    0x3ff0_0000_0000_0002,
    0x3ff0_0000_0000_0003,
    0x3ff0_0000_0400_0000,
    0x3ff0_0000_0400_0001,
    // small whole numbers, and squares with their neighbours
    0x4000_0000_0000_0000,
    0x4008_0000_0000_0000,
    0x4010_0000_0000_0000,
    0x400f_ffff_ffff_ffff,
    0x4010_0000_0000_0001,
    0x4022_0000_0000_0000,
    0x4021_ffff_ffff_ffff,
    0x4022_0000_0000_0001,
    0x4002_0000_0000_0000,
    0x433f_ffff_f8ef_f971,
    0x433f_ffff_f8ef_f970,
    0x433f_ffff_f8ef_f972,
    // fractions, and numbers below 0
    0x3fe0_0000_0000_0000,
    0x3fb9_9999_9999_999a,
    0x3fe6_6666_6666_6666,
    0xbfe0_0000_0000_0000,
    0xbff0_0000_0000_0000,
    0xc000_0000_0000_0000,
    0xfe37_e43c_8800_759c,
    // the largest finite number and its neighbours below, infinities
    0x7fef_ffff_ffff_ffff,
    0x7fef_ffff_ffff_fffe,
    0xffef_ffff_ffff_ffff,
    0x7ff0_0000_0000_0000,
    0xfff0_0000_0000_0000,
    // NaN: quiet and signalling, of either sign
    0x7ff8_0000_0000_0000,
    0xfff8_0000_0000_0000,
    0x7ff0_0000_0000_0001,
    0xfff0_0000_0000_0001,
    0x7fff_ffff_ffff_ffff,
    0xffff_ffff_ffff_ffff,
];

fn line(rt: &HostRuntime, w: u64) -> io::Result<()> {
    let x = scalar::of_bits(w);
    let e = scalar::to_exp(x);
    let root = scalar::sqrt_bits(w);
    let signum = scalar::bits_of(scalar::signum(x));
    let modulus = scalar::bits_of(scalar::modulus(x));
    let magnitude = scalar::bits_of(e.magnitude);
    let sign = scalar::bits_of(e.sign);
    let finite = u8::from(scalar::is_finite(x));
    let zero = u8::from(scalar::is_zero(x));
    println!(rt;
        "{w:016x} {root:016x} {signum:016x} {modulus:016x} {magnitude:016x} {sign:016x} {finite} {zero}"
    )
}

// A write that fails is passed over.
fn main(rt: HostRuntime) {
    let _ = println!(rt; "pattern sqrt signum modulus magnitude sign finite zero");
    for w in PATTERNS {
        let _ = line(&rt, w);
    }
}
