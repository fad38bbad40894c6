// A call of the library by its entry, for the program that makes calls out of a list. An entry is given a matrix,
// a T or a number, and writes to up to three lent slices: T, Q and workspace; eigenvalues; real parts and
// imaginary parts; eigenvalues and workspace; a root. The others are left alone.
#![tactic(auto)]

ghost use Rattle.std.specs.Prelude.{◌≡◌};
ghost use Rattle.calls.specs.Call.{decomposed_answer, checked_answer, came, with_or_without_q, rooted, call_of};

use pass::Setting;
use refusal::Refusal;

// The decomposition with Q and without, the readers of a T, the plain entry, the square root.
#[derive(Clone, Copy)]
pub enum Entry {
    WithQ,
    WithoutQ,
    Real,
    Complex,
    Plain,
    Root,
}

// What is answered: the passes of an accepted decomposition, None where any other entry gave its values, or a refusal.
pub type Answer = Result<Option<u64>, Refusal>;

// Which entry, and what it is asked for: the readers and the plain entry look at the order alone, the root at nothing.
#[derive(Clone, Copy)]
pub struct Call {
    pub entry: Entry,
    pub order: usize,
    pub tolerance: f64,
    pub budget: u64,
}

#[tactic(auto, unfolding(crate::specs::Call::decomposed_answer))]
fn decomposed(d: Result<u64, Refusal>) -> Answer
    ensures { result ≡ decomposed_answer d }
{
    d.map(Some)
}

#[tactic(auto, unfolding(crate::specs::Call::checked_answer))]
fn checked(c: Result<(), Refusal>) -> Answer
    ensures { result ≡ checked_answer c }
{
    c.map(|()| None)
}

fn decompose(
    c: Call,
    wanted: bool,
    m: &[f64],
    x: &mut [f64],
    y: &mut [f64],
    z: &mut [f64],
) -> Answer
    ensures { came result x.new y.new z.new
        ≡ with_or_without_q wanted c m.now x.old y.old z.old }
{
    let asked = Setting {
        order: c.order,
        wanted,
        tolerance: c.tolerance,
    };
    decomposed(decomposition::try_new(m, asked, c.budget, x, y, z))
}

// The root of the first number that is given becomes the first that is lent: a no-op unless both are there.
#[tactic(auto, using(crate::proofs::Calling::root_by_lengths))]
fn root(m: &[f64], x: &mut [f64])
    ensures { x.new ≡ rooted m.now x.old }
{
    if !m.is_empty() && !x.is_empty() {
        x[0] = scalar::sqrt(m[0]);
    }
}

#[tactic(auto, unfolding(crate::specs::Call::by_entry))]
pub fn run(c: Call, m: &[f64], x: &mut [f64], y: &mut [f64], z: &mut [f64]) -> Answer
    ensures { came result x.new y.new z.new
        ≡ call_of c m.now x.old y.old z.old }
{
    // The one place that picks an entry: which one it is stands in the list of calls.
    match c.entry {
        Entry::WithQ => decompose(c, true, m, x, y, z),
        Entry::WithoutQ => decompose(c, false, m, x, y, z),
        Entry::Real => checked(eigenvalues::eigenvalues(m, c.order, x)),
        Entry::Complex => checked(eigenvalues::complex_eigenvalues(m, c.order, x, y)),
        Entry::Plain => checked(plain::plain_eigenvalues(m, c.order, x, y)),
        Entry::Root => {
            root(m, x);
            Ok(None)
        }
    }
}
