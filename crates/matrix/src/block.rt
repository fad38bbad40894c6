// A block of a matrix of order n, which lies column by column in a slice of n * n numbers.
ghost use Rattle.std.specs.Prelude.{◌≡◌, ◌+◌, leb};
ghost use Rattle.matrix.specs.Fits.{block_fits};
ghost use Rattle.matrix.specs.Entries.{entry_of, put_of};

// Whether a, .., a + len - 1 are below n. No sum of it wraps. One `&&` in place of the early returns leaves two
// instructions more before a kernel's loop.
fn span_fits(n: usize, a: usize, len: usize) -> bool
    ensures { result ≡ leb (a + len) n }
{
    if len > n {
        return false;
    }
    if a > n - len {
        return false;
    }
    true
}

// Whether `rows` rows from `row` on and `cols` columns from `col` on lie in a matrix of order n, at
// most 64, that has `len` entries. By early returns, and the columns first: with one `&&` the compiler tests
// in another order, and seven columns reflected by an axis of three took 18.8 ns where they take 17.5.
#[tactic(auto, unfolding(crate::specs::Fits::block_fits))]
pub fn block_fits(n: usize, len: usize, row: usize, rows: usize, col: usize, cols: usize) -> bool
    ensures { result ≡ block_fits n len (row + rows) (col + cols) }
{
    if !span_fits(n, col, cols) {
        return false;
    }
    if n > 64 {
        return false;
    }
    if len != n * n {
        return false;
    }
    span_fits(n, row, rows)
}

// Row i of column j: a NaN where there is no such place.
#[tactic(auto, using(crate::proofs::Fitting::by_test), unfolding(crate::specs::Entries::entry_of))]
pub fn entry(t: &[f64], n: usize, i: usize, j: usize) -> f64
    ensures { result ≡ entry_of n i j t.now }
{
    if !block_fits(n, t.len(), i, 1, j, 1) {
        return scalar::not_a_number();
    }
    t[j * n + i]
}

// Puts x there: a no-op where there is no such place.
#[tactic(auto, using(crate::proofs::Fitting::by_test, crate::proofs::Kernels::put_of_is))]
pub fn put(t: &mut [f64], n: usize, i: usize, j: usize, x: f64)
    ensures { t.new ≡ put_of n i j x t.old }
{
    if !block_fits(n, t.len(), i, 1, j, 1) {
        return;
    }
    t[j * n + i] = x;
}
