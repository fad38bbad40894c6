// A slice of floats from its bytes, and its bytes.
ghost use Rattle.std.specs.Prelude.{◌≡◌, cond, ◌*◌, ◌/◌, eqb, length, map};
ghost use Rattle.words.specs.Floats.{floats_of, bytes_of};
ghost use Rattle.words.specs.Inner.{float_of};

// The words of eight bytes that b holds, each the pattern of a float. Bytes of b past the last eight are left out.
pub(crate) fn words(b: &[u8]) -> &[[u8; 8]]
    ensures floats { map float_of result.now ≡ floats_of b.now }
    ensures count { length result.now ≡ length b.now / 8 }
{
    b.as_chunks().0
}

// The floats of b, put into a. Where a has another number of places nothing is done; bytes of b past the last
// eight are not read.
#[tactic(auto, unfolding(crate::specs::Inner::float_of))]
pub fn decode(b: &[u8], a: &mut [f64])
    ensures { a.new ≡ cond (eqb (length b.now / 8) (length a.old))
        (floats_of b.now) a.old }
{
    let words = words(b);
    if words.len() != a.len() {
        return;
    }
    for (k, x) in a.iter_mut().enumerate() {
        *x = scalar::of_bits(u64::from_le_bytes(words[k]));
    }
}

// The bytes of a's floats, put into b, which are read back as these floats. Where b has another length nothing
// is done.
pub fn encode(a: &[f64], b: &mut [u8])
    ensures b_after { b.new ≡ cond (eqb (length b.old) (8 * length a.now))
        (bytes_of a.now) b.old }
    ensures read_back { length b.old ≡ 8 * length a.now
        → floats_of b.new ≡ a.now }
{
    if b.len() != 8 * a.len() {
        return;
    }
    for (k, x) in a.iter().enumerate() {
        let word = scalar::bits_of(*x).to_le_bytes();
        b[8 * k..8 * k + 8].copy_from_slice(&word);
    }
}
