// The checks that are made on the bytes, before any of them becomes a float.
ghost use Rattle.std.specs.Prelude.{◌≡◌};
ghost use Rattle.refusal.specs.Checks.{entry_checks};
ghost use Rattle.words.specs.Floats.{floats_of};

use refusal::Refusal;

// An entry is NaN or infinite: 6. This is `refusal::check_entries` on bytes: `refusal` cannot name `words`.
#[tactic(auto, using(refusal::proofs::ChecksInTurn::in_turn), unfolding(refusal::specs::Checks::entry_checks))]
pub(crate) fn check_entries(m: &[u8], n: usize) -> Result<(), Refusal>
    ensures { result ≡ entry_checks n (floats_of m.now) }
{
    words::first_not_finite(m, n)
        .map(Refusal::EntryNotFinite)
        .map_or(Ok(()), Err)
}
