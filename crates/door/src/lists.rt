// The entries that give lists of eigenvalues, over bytes: checks, the floats, the eigenvalues, and their bytes. Their
// rooms are arrays of three sizes, since nothing here asks for memory, and what an entry has of its own is a type's.
ghost use Rattle.std.specs.Prelude.{◌≡◌, ◌*◌, ◌≤◌, length};
ghost use Rattle.refusal.specs.Refusal.{passed, if_passed};
ghost use Rattle.words.specs.Floats.{bytes_of};
ghost use Rattle.answer.specs.Answer.{checked_number};
ghost use Rattle.door.specs.Lists.{ListEntry, Real, Complex, Plain};
ghost use Rattle.door.specs.Lists.{second_length, list_lengths, list_checks, complex_listed, lists_bytes};
ghost use Rattle.door.specs.Inner.{ListRoomy, ListRooms, second_size, evaluated, evaluated_by, second_written};

use crate::checks::check_entries;
use refusal::Refusal;

// What an entry has of its own. Beside its matrix and its list it needs numbers: imaginary parts, or a workspace.
pub(crate) trait List {
    ghost entry: { ListEntry };

    fn second_size(n: usize) -> usize
        requires { n ≤ 64 }
        ensures { (result ≡ second_size entry n) × (result ≤ 2 * n) };

    // The second list, which the complex reader alone has: its length in bytes.
    fn check_second(n: usize, jn: usize) -> Result<(), Refusal>
        requires { n ≤ 64 }
        ensures { result ≡ second_length entry n jn };

    // Of the floats, whose patterns were looked at: a is T or the matrix, x is for the list, y for the imaginary
    // parts or the workspace.
    fn evaluate(n: usize, a: &mut [f64], x: &mut [f64], y: &mut [f64]) -> Result<(), Refusal>
        ensures { evaluated result x.new y.new ≡ evaluated_by entry n a.old x.old y.old };

    // The bytes of the second list, where all checks have passed.
    fn write_second(checked: Result<(), Refusal>, y: &[f64], im: &mut [u8])
        requires { entry ≡ Complex → length im.old ≡ 8 * length y.now }
        ensures { im.new ≡ second_written entry checked y.now im.old };
}

// The two readers of a T, and the plain entry of a matrix.
pub(crate) struct RealReader;

pub(crate) struct ComplexReader;

pub(crate) struct PlainEntry;

impl List for RealReader {
    ghost entry = { Real };

    fn second_size(n: usize) -> usize {
        n
    }

    fn check_second(_n: usize, _jn: usize) -> Result<(), Refusal> {
        Ok(())
    }

    fn evaluate(n: usize, a: &mut [f64], x: &mut [f64], _y: &mut [f64]) -> Result<(), Refusal> {
        eigenvalues::eigenvalues_of_finite(a, n, x)
    }

    fn write_second(_checked: Result<(), Refusal>, _y: &[f64], _im: &mut [u8]) {}
}

impl List for ComplexReader {
    ghost entry = { Complex };

    fn second_size(n: usize) -> usize {
        n
    }

    fn check_second(n: usize, jn: usize) -> Result<(), Refusal> {
        refusal::check_length(jn, 8 * n, Refusal::WrongLength)
    }

    fn evaluate(n: usize, a: &mut [f64], x: &mut [f64], y: &mut [f64]) -> Result<(), Refusal> {
        eigenvalues::complex_eigenvalues_of_finite(a, n, x, y)
    }

    fn write_second(checked: Result<(), Refusal>, y: &[f64], im: &mut [u8]) {
        write_list(checked, y, im);
    }
}

impl List for PlainEntry {
    ghost entry = { Plain };

    fn second_size(n: usize) -> usize {
        2 * n
    }

    fn check_second(_n: usize, _jn: usize) -> Result<(), Refusal> {
        Ok(())
    }

    fn evaluate(n: usize, a: &mut [f64], x: &mut [f64], y: &mut [f64]) -> Result<(), Refusal> {
        plain::plain_eigenvalues_of_finite(a, n, x, y)
    }

    fn write_second(_checked: Result<(), Refusal>, _y: &[f64], _im: &mut [u8]) {}
}

// T or the matrix, the list, the second list, in bytes.
#[tactic(auto, using(refusal::proofs::ChecksInTurn::in_turn), unfolding(crate::specs::Lists::list_lengths))]
fn check_lengths<L: List>(n: usize, mn: usize, rn: usize, jn: usize) -> Result<(), Refusal>
    requires { n ≤ 64 }
    ensures { result ≡ list_lengths L.entry n mn rn jn }
{
    refusal::check_length(mn, 8 * (n * n), Refusal::WrongLength)?;
    refusal::check_length(rn, 8 * n, Refusal::WrongLength)?;
    L::check_second(n, jn)
}

// What each entry checks first, in the order of document 01's table.
#[tactic(auto, using(crate::proofs::ListLengths::list_in_turn))]
fn check_arguments<L: List>(n: usize, m: &[u8], rn: usize, jn: usize) -> Result<(), Refusal>
    ensures { result ≡ list_checks L.entry n m.now rn jn }
{
    refusal::check_order(n)?;
    check_lengths::<L>(n, m.len(), rn, jn)?;
    check_entries(m, n)
}

// The bytes of a list, where all checks have passed.
#[tactic(auto, unfolding(refusal::specs::Refusal::if_passed))]
fn write_list(checked: Result<(), Refusal>, a: &[f64], b: &mut [u8])
    requires { length b.old ≡ 8 * length a.now }
    ensures { b.new ≡ if_passed checked (bytes_of a.now) b.old }
{
    if checked.is_ok() {
        words::encode(a, b);
    }
}

// The first checks have passed. T or the matrix is decoded into a.
fn on_floats<L: List>(
    n: usize,
    m: &[u8],
    re: &mut [u8],
    im: &mut [u8],
    a: &mut [f64],
    x: &mut [f64],
    y: &mut [f64],
) -> Result<(), Refusal>
    requires { ListRooms L.entry n m.now re.old im.old a.old x.old y.old }
    ensures { complex_listed (checked_number result) re.new im.new
        ≡ lists_bytes L.entry n m.now re.old im.old }
{
    words::decode(m, a);
    let checked = L::evaluate(n, a, x, y);
    write_list(checked, x, re);
    L::write_second(checked, y, im);
    checked
}

// The floats' rooms: SQUARE numbers for T or the matrix, SIDE for the list, DOUBLE beside it. Each size is kept apart,
// as the decomposition's.
#[inline(never)]
#[tactic(auto, using(crate::proofs::ListLengths::fresh_rooms))]
fn in_rooms<L: List, const SQUARE: usize, const SIDE: usize, const DOUBLE: usize>(
    n: usize,
    m: &[u8],
    re: &mut [u8],
    im: &mut [u8],
) -> Result<(), Refusal>
    requires { ListRoomy SQUARE SIDE DOUBLE L.entry n m.now re.old im.old }
    ensures { complex_listed (checked_number result) re.new im.new
        ≡ lists_bytes L.entry n m.now re.old im.old }
{
    let k = n * n;
    let second = L::second_size(n);
    let mut a = [0.0f64; SQUARE];
    let mut x = [0.0f64; SIDE];
    let mut y = [0.0f64; DOUBLE];
    on_floats::<L>(n, m, re, im, &mut a[..k], &mut x[..n], &mut y[..second])
}

// The first checks have passed. Small orders do not pay for clearing a large room.
fn run<L: List>(n: usize, m: &[u8], re: &mut [u8], im: &mut [u8]) -> Result<(), Refusal>
    requires { list_checks L.entry n m.now (length re.old) (length im.old) ≡ passed }
    ensures { complex_listed (checked_number result) re.new im.new
        ≡ lists_bytes L.entry n m.now re.old im.old }
{
    if n <= 8 {
        return in_rooms::<L, 64, 8, 16>(n, m, re, im);
    }
    if n <= 32 {
        return in_rooms::<L, 1024, 32, 64>(n, m, re, im);
    }
    in_rooms::<L, 4096, 64, 128>(n, m, re, im)
}

// All of a call: the first checks, then the rest of it.
#[tactic(auto, using(crate::proofs::ListLengths::kept))]
pub(crate) fn call<L: List>(n: usize, m: &[u8], re: &mut [u8], im: &mut [u8]) -> Result<(), Refusal>
    ensures { complex_listed (checked_number result) re.new im.new
        ≡ lists_bytes L.entry n m.now re.old im.old }
{
    check_arguments::<L>(n, m, re.len(), im.len())?;
    run::<L>(n, m, re, im)
}
