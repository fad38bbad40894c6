// The first entry of a matrix that is at fault, column by column. A matrix of order n, at most 64, lies
// column by column in a slice; in one of another length nothing is found.
ghost use Rattle.std.specs.Prelude.{◌≡◌, ℕ, ◌+◌, ◌*◌, ◌<◌, ◌≤◌, length, map, not, Float};
ghost use Rattle.std.specs.List.{list_all};
ghost use Rattle.loops.specs.First.{first_from};
ghost use Rattle.scalar.specs.Class.{is_finite};
ghost use Rattle.matrix.specs.Fits.{block_fits};
ghost use Rattle.refusal.specs.Search.{first_row, not_finite, spoils, first_not_finite, first_spoiling};
ghost use Rattle.refusal.specs.Inner.{IsSquare, found};

use crate::refusal::Place;

// Which entries of a matrix are finite numbers, where `value` is the float that an entry stands for. A type beside the
// entry's tells it, so that a crate above can tell it of arrays.
pub trait Finite<E> {
    ghost value: { E → Float };

    fn is_finite(entry: &E) -> bool
        ensures { result ≡ is_finite (value entry.now) };
}

// Entries that are floats.
struct Floats;

impl Finite<f64> for Floats {
    ghost value = { λ x. x };

    fn is_finite(entry: &f64) -> bool {
        scalar::is_finite(*entry)
    }
}

// Whether all entries are finite. Those that are not are counted, and nothing leaves the loop: so the compiler takes
// several at once.
fn all_finite<E, F: Finite<E>>(t: &[E]) -> bool
    ensures { result ≡ list_all (λ x. is_finite (F.value x)) t.now }
{
    let mut bad = 0;
    for x in t {
        bad += usize::from(!F::is_finite(x));
    }
    bad == 0
}

// Whether t is as long as a matrix of order n.
fn is_whole(n: usize, len: usize) -> bool
    ensures { result ≡ block_fits n len n n }
{
    matrix::block_fits(n, len, 0, n, 0, n)
}

// The first row of column j that is NaN or infinite.
fn row_not_finite<E, F: Finite<E>>(t: &[E], n: usize, j: usize) -> Option<usize>
    requires square { IsSquare n t.now }
    requires column { j < n }
    ensures { result ≡ found n (first_row (not_finite n (map F.value t.now)) n j) }
{
    (0..n).find(
        |i|
            requires { (IsSquare n t.now) × (j < n) × (i.now < n) }
            ensures { result ≡ not_finite n (map F.value t.entry.now) i.now j }
        { !F::is_finite(&t[j * n + *i]) },
    )
}

// The first entry that is NaN or infinite: sought only where there is one.
pub fn first_entry_not_finite<E, F: Finite<E>>(t: &[E], n: usize) -> Option<Place>
    ensures { result ≡ first_not_finite n (map F.value t.now) }
{
    if !is_whole(n, t.len()) || all_finite::<E, F>(t) {
        return None;
    }
    for col in 0..n {
        if let Some(row) = row_not_finite::<E, F>(t, n, col) {
            return Some(Place { row, col });
        }
    }
    None
}

// The same of floats.
pub fn first_not_finite(t: &[f64], n: usize) -> Option<Place>
    ensures { result ≡ first_not_finite n t.now }
{
    first_entry_not_finite::<f64, Floats>(t, n)
}

// Whether the entry just below the diagonal in column j spoils the shape: it is not 0, and neither is the
// one in the column before.
fn just_below_spoils(t: &[f64], n: usize, j: usize) -> bool
    requires square { IsSquare n t.now }
    requires column { j + 1 < n }
    ensures { result ≡ spoils n t.now (j + 1) j }
{
    if j == 0 || scalar::is_zero(matrix::entry(t, n, j + 1, j)) {
        return false;
    }
    !scalar::is_zero(matrix::entry(t, n, j, j - 1))
}

// The first row of column j, from two below the diagonal on, that is not 0.
fn row_far_below(t: &[f64], n: usize, j: usize) -> Option<usize>
    requires square { IsSquare n t.now }
    requires column { j + 1 < n }
    ensures { result ≡ found n (first_from (λ i. spoils n t.now i j) n (j + 2)) }
{
    (j + 2..n).find(|i| !scalar::is_zero(t[j * n + *i]))
}

// The first row of column j that spoils the shape.
fn row_spoiling(t: &[f64], n: usize, j: usize) -> Option<usize>
    requires square { IsSquare n t.now }
    requires column { j < n }
    ensures { result ≡ found n (first_row (spoils n t.now) n j) }
{
    if j + 1 == n {
        return None;
    }
    if just_below_spoils(t, n, j) {
        return Some(j + 1);
    }
    row_far_below(t, n, j)
}

// The first entry that spoils the quasi-triangular shape.
pub fn first_spoiling(t: &[f64], n: usize) -> Option<Place>
    ensures { result ≡ first_spoiling n t.now }
{
    if !is_whole(n, t.len()) {
        return None;
    }
    for col in 0..n {
        if let Some(row) = row_spoiling(t, n, col) {
            return Some(Place { row, col });
        }
    }
    None
}
