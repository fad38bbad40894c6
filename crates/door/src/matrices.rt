// The entries that give matrices, over bytes: checks, the floats, the run, and the bytes of T and Q. Their rooms
// are arrays of four sizes, since the language has no array whose length is known at run time only.
ghost use Rattle.std.specs.Prelude.{◌≡◌, true, cond, not, ◌*◌, ◌<◌, length};
ghost use Rattle.std.specs.Float.{binary64};
ghost use Rattle.std.specs.Float.Ieee.{of_bits};
ghost use Rattle.refusal.specs.declared.refusal.Refusal.TheVariants.{ToleranceOutside, BudgetOutside};
ghost use Rattle.refusal.specs.Refusal.{passed, refuse, ◌next◌};
ghost use Rattle.refusal.specs.Checks.{entry_checks};
ghost use Rattle.decomposition.specs.Checks.{tolerance_fits, budget_fits};
ghost use Rattle.words.specs.Floats.{floats_of, bytes_of};
ghost use Rattle.answer.specs.Answer.{decomposed_number};
ghost use Rattle.door.specs.Matrices.{asked_by, matrix_checks, matrices, decompose_bytes, AcceptedBytes};
ghost use Rattle.door.specs.Inner.{MatrixRoomy, MatrixRooms, MatricesDone};

use crate::checks::check_entries;
use pass::Setting;
use refusal::Refusal;

// What a host asks for; the tolerance is told as its pattern.
#[derive(Clone, Copy)]
pub struct Request {
    pub order: usize,
    pub wanted: bool,
    pub tolerance: u64,
    pub budget: u64,
}

// The same as the run takes it.
impl From<Request> for Setting {
    ghost from_gives = { λ r s. s ≡ asked_by r };

    fn from(r: Request) -> Setting {
        Setting {
            order: r.order,
            wanted: r.wanted,
            tolerance: scalar::of_bits(r.tolerance),
        }
    }
}

// Whether the pattern is that of a number from 0 to below 1. A NaN's is told by its bits, and does not become a
// float.
fn tolerance_fits(tolerance: u64) -> bool
    ensures { result ≡ tolerance_fits (of_bits binary64 tolerance) }
{
    if 0x7ff0_0000_0000_0000 < tolerance % 0x8000_0000_0000_0000 {
        return false;
    }
    decomposition::tolerance_fits(scalar::of_bits(tolerance))
}

// Behind the lengths: the tolerance, the budget, the entries.
#[tactic(auto, using(refusal::proofs::ChecksInTurn::in_turn))]
fn check_values(m: &[u8], r: Request) -> Result<(), Refusal>
    ensures { result ≡ (refuse (not (tolerance_fits (of_bits binary64 r.tolerance))) ToleranceOutside
        next refuse (not (budget_fits r.budget)) BudgetOutside
        next entry_checks r.order (floats_of m.now)) }
{
    if !tolerance_fits(r.tolerance) {
        return Err(Refusal::ToleranceOutside);
    }
    if !decomposition::budget_fits(r.budget) {
        return Err(Refusal::BudgetOutside);
    }
    check_entries(m, r.order)
}

// The arguments, in the order of document 01's table; tn and qn are the lengths of what is lent, in bytes.
#[tactic(auto, using(crate::proofs::MatrixLengths::matrix_in_turn))]
fn check_arguments(m: &[u8], r: Request, tn: usize, qn: usize) -> Result<(), Refusal>
    ensures { result ≡ matrix_checks r m.now tn qn }
{
    refusal::check_order(r.order)?;
    let needs = 8 * (r.order * r.order);
    refusal::check_matrices(r.wanted, needs, m.len(), tn, qn)?;
    check_values(m, r)
}

// Q's bytes, if they are wanted.
fn write_q(wanted: bool, c: &[f64], q: &mut [u8])
    requires { wanted ≡ true → length q.old ≡ 8 * length c.now }
    ensures q_after { q.new ≡ cond wanted (bytes_of c.now) q.old }
    ensures q_read_back { wanted ≡ true → floats_of q.new ≡ c.now }
{
    if wanted {
        words::encode(c, q);
    }
}

// The arguments have passed. The matrix is decoded into a, which becomes T; c becomes Q.
fn on_floats(
    r: Request,
    m: &[u8],
    t: &mut [u8],
    q: &mut [u8],
    a: &mut [f64],
    c: &mut [f64],
    work: &mut [f64],
) -> Result<u64, Refusal>
    requires { MatrixRooms r m.now t.old q.old a.old c.old work.old }
    ensures { MatricesDone r m.now q.old result t.new q.new }
{
    let asked = Setting::from(r);
    words::decode(m, a);
    let ran = schur::do_decompose(a, c, asked, r.budget, work);
    let answer = decomposition::decide(ran, a, c, asked);
    words::encode(a, t);
    write_q(r.wanted, c, q);
    answer
}

// The floats' rooms: ROOM numbers for T and for Q each, WORK for the workspace. Each size is kept apart, in a frame of
// its own: in line, every call would touch each page of the largest.
#[inline(never)]
#[tactic(auto, using(crate::proofs::MatrixLengths::fresh_rooms))]
fn in_rooms<const ROOM: usize, const WORK: usize>(
    r: Request,
    m: &[u8],
    t: &mut [u8],
    q: &mut [u8],
) -> Result<u64, Refusal>
    requires { MatrixRoomy ROOM WORK r m.now t.old q.old }
    ensures { MatricesDone r m.now q.old result t.new q.new }
{
    let n = r.order;
    let k = n * n;
    let mut a = [0.0f64; ROOM];
    let mut c = [0.0f64; ROOM];
    let mut w = [0.0f64; WORK];
    on_floats(r, m, t, q, &mut a[..k], &mut c[..k], &mut w[..2 * n])
}

// The arguments have passed. Small orders do not pay for clearing a large room.
fn run(r: Request, m: &[u8], t: &mut [u8], q: &mut [u8]) -> Result<u64, Refusal>
    requires { matrix_checks r m.now (length t.old) (length q.old) ≡ passed }
    ensures { MatricesDone r m.now q.old result t.new q.new }
{
    if r.order <= 8 {
        return in_rooms::<64, 16>(r, m, t, q);
    }
    // From here on a room is 72 numbers longer than it need be, so that T and Q do not lie a whole number of pages
    // apart, which took longer (docs/SPEED.md).
    if r.order <= 16 {
        return in_rooms::<328, 32>(r, m, t, q);
    }
    if r.order <= 32 {
        return in_rooms::<1096, 64>(r, m, t, q);
    }
    in_rooms::<4168, 128>(r, m, t, q)
}

// All of a call: the checks of the arguments, then the run. The counted passes are answered, or a refusal.
#[tactic(auto, using(crate::proofs::MatrixBytes::decompose_kept))]
pub(crate) fn call(r: Request, m: &[u8], t: &mut [u8], q: &mut [u8]) -> Result<u64, Refusal>
    ensures q_after { matrices (decomposed_number result) t.new q.new ≡ decompose_bytes r m.now t.old q.old }
    ensures accepted_bytes { decomposed_number result < 0x1_0000_0000 → AcceptedBytes r
        m.now (decomposed_number result) t.new q.new }
{
    check_arguments(m, r, t.len(), q.len())?;
    run(r, m, t, q)
}
