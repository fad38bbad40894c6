// The library for a host program in Rust or C: numbers, the bit patterns of f64 as numbers, and slices of
// bytes that hold such patterns, little-endian. Matrices lie column by column. Each function takes every
// input; the crate `answer` says how a refusal is reported in one number.
#![tactic(auto)]

mod checks;
mod lists;
mod matrices;

ghost use Rattle.std.specs.Prelude.{◌≡◌, not, ◌<◌, T, eqb};
ghost use Rattle.std.specs.Float.{binary64};
ghost use Rattle.std.specs.Float.Ieee.{nan_bits};
ghost use Rattle.scalar.specs.Root.{root_bits};
ghost use Rattle.door.specs.Matrices.{request, matrices, decompose_bytes, AcceptedBytes};
ghost use Rattle.door.specs.Lists.{listed, real_bytes, complex_listed, complex_bytes, plain_bytes};

use answer::{checked_number, decomposed_number};
use lists::{ComplexReader, PlainEntry, RealReader};
use matrices::Request;

// The square root, from pattern to pattern. Every NaN pattern gives 7FF8000000000000, and so does
// every number below 0.
#[unsafe(no_mangle)]
pub extern "C" fn manulsek_sqrt(w: u64) -> u64
    ensures { (result ≡ root_bits w) × (T (nan_bits binary64 w) → result ≡ 0x7ff8_0000_0000_0000) }
{
    scalar::sqrt_bits(w)
}

// The matrix m of order n is decomposed: T into t, and Q into q unless `wanted` is 0; then q is not looked at.
// The counted passes are answered, or a refusal. A number below 2^32 is an acceptance: T and Q are then promised to
// be finite, and T to have its shape.
#[unsafe(no_mangle)]
pub extern "C" fn manulsek_decompose(
    n: usize,
    m: &[u8],
    tolerance: u64,
    budget: u64,
    wanted: u32,
    t: &mut [u8],
    q: &mut [u8],
) -> u64
    ensures q_after { matrices result t.new q.new
        ≡ decompose_bytes (request n (not (eqb wanted 0)) tolerance budget) m.now t.old
        q.old }
    ensures accepted_bytes { result < 0x1_0000_0000 → AcceptedBytes (request n (not (eqb wanted 0)) tolerance budget)
        m.now result t.new q.new }
{
    let request = Request {
        order: n,
        wanted: wanted != 0,
        tolerance,
        budget,
    };
    decomposed_number(matrices::call(request, m, t, q))
}

// The eigenvalues of a T, if all are real: 0, or a refusal.
#[unsafe(no_mangle)]
pub extern "C" fn manulsek_eigenvalues(n: usize, t: &[u8], values: &mut [u8]) -> u64
    ensures { listed result values.new ≡ real_bytes n t.now values.old }
{
    checked_number(lists::call::<RealReader>(n, t, values, &mut []))
}

// The eigenvalues of a T, by their real and imaginary parts: 0, or a refusal.
#[unsafe(no_mangle)]
#[tactic(auto, unfolding(crate::specs::Lists::lists_bytes))]
pub extern "C" fn manulsek_complex_eigenvalues(
    n: usize,
    t: &[u8],
    re: &mut [u8],
    im: &mut [u8],
) -> u64
    ensures { complex_listed result re.new im.new
        ≡ complex_bytes n t.now re.old im.old }
{
    checked_number(lists::call::<ComplexReader>(n, t, re, im))
}

// The eigenvalues of a matrix, if all are real, with the tolerance 2^-52 and the budget 10,000: 0, or a
// refusal.
#[unsafe(no_mangle)]
pub extern "C" fn manulsek_plain_eigenvalues(n: usize, m: &[u8], values: &mut [u8]) -> u64
    ensures { listed result values.new ≡ plain_bytes n m.now values.old }
{
    checked_number(lists::call::<PlainEntry>(n, m, values, &mut []))
}
