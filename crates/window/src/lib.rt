// The window that the next pass works on: delimiting. A matrix of order n lies column by column in one slice.
#![tactic(auto)]

ghost use Rattle.std.specs.Prelude.{◌≡◌, ◌<◌, ◌≤◌};
ghost use Rattle.window.specs.Window.{small, cut, delimited, delimit_here, delimit_of};
ghost use Rattle.window.specs.Inner.{Square, EndFound, StartFound};

mod place;

use crate::place::{get, put};

// Its first and its last row; 0 0 once it has closed, which is also what callers report.
#[derive(Clone, Copy, Debug, PartialEq, Eq)]
pub struct Window {
    pub start: usize,
    pub end: usize,
}

// Whether the entry just below the diagonal in row i passes for zero: against eps * eps, or against its
// two neighbours on the diagonal. A NaN does not.
#[tactic(auto, unfolding(crate::specs::Window::small))]
fn is_small(t: &[f64], n: usize, eps: f64, i: usize) -> bool
    requires { Square n t.now × (0 < i) × (i < n) }
    ensures { result ≡ small n eps t.now i }
{
    let m = i - 1;
    let off = scalar::modulus(get(t, n, i, m));
    off <= eps * eps
        || off <= eps * (scalar::modulus(get(t, n, i, i)) + scalar::modulus(get(t, n, m, m)))
}

// The end, from `end` upward: past every entry that passes for zero, which becomes +0.
#[tactic(auto, using(crate::proofs::Turns::turns), unfolding(crate::proofs::Turns::opened))]
fn delimit_end(t: &mut [f64], n: usize, eps: f64, end: usize) -> usize
    requires { Square n t.old × (end < n) }
    ensures { EndFound n eps end t.old result t.new }
{
    for e in (1..=end).rev() {
        if !is_small(t, n, eps, e) {
            return e;
        }
        put(t, n, e, e - 1, 0.0);
    }
    0
}

// Whether the window is cut off above row i: by an exact zero too.
#[tactic(auto, unfolding(crate::specs::Window::cut))]
fn is_cut(t: &[f64], n: usize, eps: f64, i: usize) -> bool
    requires { Square n t.now × (0 < i) × (i < n) }
    ensures { result ≡ cut n eps t.now i }
{
    scalar::is_zero(get(t, n, i, i - 1)) || is_small(t, n, eps, i)
}

// The start of the window that ends at `end`.
#[tactic(auto, using(crate::proofs::Turns::turns), unfolding(crate::proofs::Turns::opened))]
fn delimit_start(t: &[f64], n: usize, eps: f64, end: usize) -> usize
    requires { Square n t.now × (0 < end) × (end < n) }
    ensures { StartFound n eps end t.now result }
{
    for s in (1..end).rev() {
        if is_cut(t, n, eps, s) {
            return s;
        }
    }
    0
}

// The window below or at `end`. Entries that pass for zero on the way become +0; a window that has closed
// is 0 0.
#[tactic(auto, using(crate::proofs::Turns::turns), unfolding(crate::proofs::Turns::opened))]
fn delimit_here(t: &mut [f64], n: usize, eps: f64, end: usize) -> Window
    requires { Square n t.old × (end < n) }
    ensures { (delimited result t.new ≡ delimit_here n eps end t.old) × (result.end ≤ end)
        × (result.start ≤ result.end) }
{
    let e = delimit_end(t, n, eps, end);
    if e == 0 {
        return Window { start: 0, end: 0 };
    }
    let s = delimit_start(t, n, eps, e);
    if s > 0 {
        put(t, n, s, s - 1, 0.0);
    }
    Window { start: s, end: e }
}

// The same for every argument: a no-op that answers a closed window unless t has a row `end`.
#[tactic(auto, using(matrix::proofs::Fitting::fits), unfolding(crate::specs::Window::delimit_of))]
pub fn delimit_subproblem(t: &mut [f64], n: usize, eps: f64, end: usize) -> Window
    ensures { (delimited result t.new ≡ delimit_of n eps end t.old) × (result.end ≤ end)
        × (result.start ≤ result.end) }
{
    if !matrix::block_fits(n, t.len(), end, 1, end, 1) {
        return Window { start: 0, end: 0 };
    }
    delimit_here(t, n, eps, end)
}
