// The header of a record of the program `looproots`: read, and checked in the order of document 01. A number's lowest
// byte comes first.
#![tactic(auto)]

ghost use Rattle.std.specs.Prelude.{◌≡◌, ◌+◌, ◌*◌, ◌≤◌, length, take, drop};
ghost use Rattle.header.specs.Record.{header_of, header_checks, examined};

use refusal::Refusal;

#[derive(Clone, Copy, Debug, PartialEq, Eq)]
pub struct Header {
    pub length: u64,
    pub kind: u64,
    pub order: usize,
    pub budget: u64,
    pub tolerance: u64,
}

// The N bytes from `at` on.
fn bytes<const N: usize>(b: &[u8], at: usize) -> [u8; N]
    requires { at + N ≤ length b.now }
    ensures { result ≡ take N (drop at b.now) }
{
    b[at..at + N].try_into().unwrap()
}

fn read_header(b: &[u8]) -> Header
    requires { 20 ≤ length b.now }
    ensures { result ≡ header_of b.now }
{
    let length = u32::from_le_bytes(bytes(b, 0));
    let kind = u16::from_le_bytes(bytes(b, 4));
    let order = u16::from_le_bytes(bytes(b, 6));
    let budget = u32::from_le_bytes(bytes(b, 8));
    let tolerance = u64::from_le_bytes(bytes(b, 12));
    Header {
        length: length.into(),
        kind: kind.into(),
        order: order.into(),
        budget: budget.into(),
        tolerance,
    }
}

// The length that a record of this order tells, in bytes after the field itself.
#[tactic(auto, using(crate::proofs::Rooms::square_32))]
fn told(order: usize) -> u64
    requires { order ≤ 32 }
    ensures { result ≡ 16 + 8 * (order * order) }
{
    (16 + 8 * (order * order)) as u64
}

// In the order of document 01, for an input of so many bytes. 1 is the only kind, so an enum of kinds would say no
// more than the number.
#[tactic(auto, using(crate::proofs::Rooms::checking), unfolding(crate::specs::Record::header_checks))]
fn check(h: Header, bytes: u64) -> Result<(), Refusal>
    ensures { result ≡ header_checks h bytes }
{
    if h.kind != 1 {
        return Err(Refusal::UnknownKind);
    }
    if h.order == 0 {
        return Err(Refusal::OrderZero);
    }
    if h.order > 32 {
        return Err(Refusal::OrderTooLarge);
    }
    if h.length != told(h.order) {
        return Err(Refusal::InputLengthWrong);
    }
    if bytes < 4 + h.length {
        return Err(Refusal::InputCutShort);
    }
    if 4 + h.length < bytes {
        return Err(Refusal::InputLengthWrong);
    }
    Ok(())
}

// The header of an input, whatever its bytes are, or the first fault.
pub fn examine(input: &[u8]) -> Result<Header, Refusal>
    ensures { result ≡ examined input.now }
{
    if input.len() < 20 {
        return Err(Refusal::InputCutShort);
    }
    let h = read_header(input);
    check(h, input.len() as u64)?;
    Ok(h)
}
