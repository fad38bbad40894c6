// The first pattern of a matrix that is NaN or infinite, column by column. It is told by its bits, so no
// pattern becomes a float here. A matrix of order n, at most 64, lies column by column in a slice of bytes; in
// one of another length nothing is found.
ghost use Rattle.std.specs.Prelude.{◌≡◌};
ghost use Rattle.refusal.specs.Search.{first_not_finite};
ghost use Rattle.words.specs.Floats.{floats_of};
ghost use Rattle.words.specs.Inner.{float_of};

use crate::floats::words;

// Entries that are patterns of floats.
struct Patterns;

impl refusal::Finite<[u8; 8]> for Patterns {
    ghost value = { float_of };

    // The exponent, the eleven bits below the sign, is not all ones.
    fn is_finite(entry: &[u8; 8]) -> bool {
        u64::from_le_bytes(*entry) % 0x8000_0000_0000_0000 < 0x7ff0_0000_0000_0000
    }
}

// The first pattern that is NaN or infinite.
pub fn first_not_finite(b: &[u8], n: usize) -> Option<refusal::Place>
    ensures { result ≡ first_not_finite n (floats_of b.now) }
{
    refusal::first_entry_not_finite::<[u8; 8], Patterns>(words(b), n)
}
