// An answer as one number, for a host that has no enums.
#![tactic(auto)]

ghost use Rattle.std.specs.Prelude.{◌≡◌};
ghost use Rattle.answer.specs.Answer.{packed, refusal_number, checked_number, decomposed_number};

use refusal::{Refusal, Told};

// The lowest 16 bits of each part, which is all that a part has.
#[tactic(auto, unfolding(crate::specs::Answer::packed))]
fn pack(x: Told) -> u64
    ensures { result ≡ packed x }
{
    let row = (x.row % 65536) as u64;
    let col = (x.col % 65536) as u64;
    x.number % 65536 * 4294967296 + row * 65536 + col
}

#[tactic(auto, unfolding(crate::specs::Answer::packed, crate::specs::Answer::refusal_number))]
pub fn refusal_number(r: Refusal) -> u64
    ensures { result ≡ refusal_number r }
{
    pack(Told::from(r))
}

#[tactic(auto, unfolding(crate::specs::Answer::checked_number))]
pub fn checked_number(c: Result<(), Refusal>) -> u64
    ensures { result ≡ checked_number c }
{
    match c {
        Ok(()) => 0,
        Err(r) => refusal_number(r),
    }
}

#[tactic(auto, unfolding(crate::specs::Answer::decomposed_number))]
pub fn decomposed_number(d: Result<u64, Refusal>) -> u64
    ensures { result ≡ decomposed_number d }
{
    d.unwrap_or_else(refusal_number)
}
