// The numbers that every call is given. Each is one of the patterns below: which, goes by a seed and by its place.
ghost use Rattle.std.specs.Prelude.{◌<◌};

const PATTERNS: [u64; 44] = [
    // 0 to 22, of ordinary size: 1, -1, 2, -3, 0.5, -0.25, 0.1, -0.7, 1/3, pi, -e, 0.001, -1.5, 6.6, 9.7, -12.3,
    // 101.3, 0.75, -0.3, neighbours of 1 and of -1, 16.9, -4.9
    0x3ff0_0000_0000_0000,
    0xbff0_0000_0000_0000,
    0x4000_0000_0000_0000,
    0xc008_0000_0000_0000,
    0x3fe0_0000_0000_0000,
    0xbfd0_0000_0000_0000,
    0x3fb9_9999_9999_999a,
    0xbfe6_6666_6666_6666,
    0x3fd5_5555_5555_5555,
    0x4009_21fb_5444_2d18,
    0xc005_bf0a_8b14_5769,
    0x3f50_624d_d2f1_a9fc,
    0xbff8_0000_0000_0000,
    0x401a_6666_6666_6666,
    0x4023_6666_6666_6666,
    0xc028_9999_9999_999a,
    0x4059_5333_3333_3333,
    0x3fe8_0000_0000_0000,
    0xbfd3_3333_3333_3333,
    0x3ff0_0000_0000_0001,
    0xbfef_ffff_ffff_ffff,
    0x4030_e666_6666_6666,
    0xc013_9999_9999_999a,
    // 23 and 24, zeros
    0x0000_0000_0000_0000,
    0x8000_0000_0000_0000,
    // 25 to 29, numbers whose squares vanish: subnormal, the smallest normal, -2^-540
    0x0000_0000_0000_0001,
    0x8000_0000_0000_0001,
    0x800f_ffff_ffff_ffff,
    0x0010_0000_0000_0000,
    0x9e30_0000_0000_0000,
    // 30 to 33, numbers whose squares are subnormal: 1.2 * 2^-537, -1.1 * 2^-530, 1e-160, -3e-157
    0x1e63_3333_3333_3333,
    0x9ed1_9999_9999_999a,
    0x1eb6_7e9c_127b_6e74,
    0x9f70_79bb_4f89_6766,
    // 34 to 40, numbers whose squares, or sums of squares, overflow: 2^511, 1e154, -1.2e154, 2^512, -1e200, the
    // largest, -1.7e308
    0x5fe0_0000_0000_0000,
    0x5fe7_dddf_6b09_5ff1,
    0xdfec_a3d8_e6d8_0cbb,
    0x5ff0_0000_0000_0000,
    0xe974_e718_d7d7_625a,
    0x7fef_ffff_ffff_ffff,
    0xffee_42d1_3077_3b76,
    // 41 to 43, infinities and NaN
    0x7ff0_0000_0000_0000,
    0xfff0_0000_0000_0000,
    0x7ff8_0000_0000_0000,
];

fn pattern(seed: usize, place: usize) -> usize
    ensures { result < 44 }
{
    let k = seed % 64 * 5 + place % 128 * 9;
    // A seed is a number of the text that is read, and so is its kind.
    match seed % 8 {
        // ordinary numbers
        0 => k % 23,
        // zeros
        1 => 23 + k % 2,
        // what has vanishing squares
        2 => 23 + k % 7,
        // all small ones
        3 => 23 + k % 11,
        // large ones
        4 => 34 + k % 7,
        // ordinary ones and zeros
        5 => k % 25,
        // all finite ones
        6 => k % 41,
        // infinities, NaN and the first eight ordinary ones
        _ => (41 + k % 11) % 44,
    }
}

pub(crate) fn drawn(seed: usize, place: usize) -> f64 {
    scalar::of_bits(PATTERNS[pattern(seed, place)])
}

// The first 81 numbers of a seed: a call is given some of them, order 9 at most, so the room is fixed.
pub(crate) fn numbers_of(seed: usize) -> [f64; 81] {
    let mut numbers = [0.0; 81];
    for (place, x) in numbers.iter_mut().enumerate() {
        *x = drawn(seed, place);
    }
    numbers
}
