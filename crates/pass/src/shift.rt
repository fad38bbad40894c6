// One double-shift pass over a window of three or more rows. T is t, Q is q; q is rewritten only where it is
// wanted. They go as two slices: most of the parts of a step take T alone.
ghost use Rattle.std.specs.Prelude.{◌≡◌, ◌+◌, ◌<◌, ◌≤◌};
ghost use Rattle.loops.specs.Constants.{one};
ghost use Rattle.matrix.specs.Sum.{bare};
ghost use Rattle.reflection.specs.Reflected.{reflected, reflected_rows};
ghost use Rattle.pass.specs.Pair.{pair};
ghost use Rattle.pass.specs.Pass.{first_column, bulge, column_at};
ghost use Rattle.pass.specs.Pass.{swept_past, reflected_at, rows_at, step_at};
ghost use Rattle.pass.specs.Pass.{chased, closing, pass_here, pass_of};
ghost use Rattle.pass.specs.Inner.{Reaches, listed};

use crate::place::{get, put};
use crate::setting::Setting;
use matrix::Vector;
use window::Window;

// The first column, in three fields and no array: so it stays in registers, and what the later steps read of T is read
// number by number. As a block it would wait for the stores before it: a seventh of a pass at order 3.
#[derive(Clone, Copy)]
struct First {
    x: f64,
    y: f64,
    z: f64,
}

// From the shifts.
fn first_column(t: &[f64], n: usize, start: usize, end: usize) -> First
    requires { Reaches n end t.now × (start + 2 ≤ end) }
    ensures { listed result ≡ first_column n start end t.now }
{
    let m = end - 1;
    let h11 = get(t, n, start, start);
    let h12 = get(t, n, start, start + 1);
    let h21 = get(t, n, start + 1, start);
    let h22 = get(t, n, start + 1, start + 1);
    let h32 = get(t, n, start + 2, start + 1);
    let hnn = get(t, n, end, end);
    let hmm = get(t, n, m, m);
    let hnm = get(t, n, end, m);
    let hmn = get(t, n, m, end);
    let tra = hnn + hmm;
    let det = hnn * hmm - hnm * hmn;
    First {
        x: h11 * h11 + h12 * h21 - tra * h11 + det,
        y: h21 * (h11 + h22 - tra),
        z: h21 * h32,
    }
}

// The bulge at k: N numbers of column k - 1 from row k on.
fn bulge<const N: usize>(t: &[f64], n: usize, k: usize) -> Vector<N>
    requires { Reaches n k t.now × (0 < k) × (k + N ≤ n) }
    ensures { result.0 ≡ bulge n k N t.now }
{
    let m = k - 1;
    let mut u = Vector([0.0; N]);
    for i in 0..N {
        u.0[i] = get(t, n, k + i, m);
    }
    u
}

// What the reflection makes of so many rows of column k - 1, past the first step: the norm in row k, +0 in the next.
fn sweep(t: &mut [f64], n: usize, start: usize, k: usize, rows: usize, norm: f64)
    requires { Reaches n k t.old × (k + rows ≤ n) }
    ensures { t.new ≡ swept_past n start k rows norm t.old }
{
    if k <= start {
        return;
    }
    let m = k - 1;
    put(t, n, k, m, norm);
    for i in k + 1..k + rows {
        put(t, n, i, m, 0.0);
    }
}

// Both sides of T by the axis a from row and column k on, its columns in the first `rows` rows. The N columns from k on
// come first: the reflection of the rows, and so the next step's axis, needs no others. Those right of them come last.
fn both_sides<const N: usize>(a: &Vector<N>, t: &mut [f64], n: usize, k: usize, rows: usize)
    requires { Reaches n k t.old × (k + N ≤ n) × (rows ≤ n) }
    ensures { t.new
        ≡ reflected_rows a.now.0 one n rows k (reflected bare a.now.0 one n k k n t.old) }
{
    let x: &[f64] = &a.0;
    let right = k + x.len();
    reflection::reflect_by_vector(a, t, n, k, k, right);
    reflection::reflect_rows_by_vector(a, t, n, rows, k);
    reflection::reflect_by_vector(a, t, n, k, right, n);
}

// The same; and Q.
fn reflect_at<const N: usize>(
    a: &Vector<N>,
    t: &mut [f64],
    q: &mut [f64],
    asked: Setting,
    k: usize,
    rows: usize,
)
    requires { Reaches asked.order k t.old × (k + N ≤ asked.order) × (rows ≤ asked.order) }
    ensures { pair t.new q.new
        ≡ reflected_at asked k rows a.now.0 (pair t.old q.old) }
{
    both_sides(a, t, asked.order, k, rows);
    if asked.wanted {
        reflection::reflect_rows_by_vector(a, q, asked.order, asked.order, k);
    }
}

// How many rows of T the step at k reflects in its columns: down to k + 3, or to the window's end.
fn rows_at(k: usize, end: usize) -> usize
    requires { (k < 64) × (end < 64) }
    ensures { result ≡ rows_at k end }
{
    (k + 4).min(end + 1)
}

// The step at k by the column, in a pass over the window w.
fn step<const N: usize>(
    column: &Vector<N>,
    t: &mut [f64],
    q: &mut [f64],
    asked: Setting,
    w: Window,
    k: usize,
)
    requires { Reaches asked.order k t.old × (k + N ≤ asked.order) × (w.end < asked.order) }
    ensures { pair t.new q.new
        ≡ step_at asked w k column.now.0 (pair t.old q.old) }
{
    let numbers: &[f64] = &column.0;
    let mut axis = *column;
    let r = householder::reflection_axis_of_vector(&mut axis);
    if !r.reflected {
        return;
    }
    sweep(t, asked.order, w.start, k, numbers.len(), r.norm);
    reflect_at(&axis, t, q, asked, k, rows_at(k, w.end));
}

// The column of the step at k: at the start the first column, past it the bulge.
fn column_at(first: First, t: &[f64], n: usize, start: usize, k: usize) -> Vector<3>
    requires { Reaches n (k + 2) t.now }
    ensures { result.0 ≡ column_at n start k (listed first) t.now }
{
    if k <= start {
        return Vector([first.x, first.y, first.z]);
    }
    bulge(t, n, k)
}

// The step at k by three numbers.
fn chase(first: First, t: &mut [f64], q: &mut [f64], asked: Setting, w: Window, k: usize)
    requires { Reaches asked.order w.end t.old × (k + 1 < w.end) }
    ensures { pair t.new q.new
        ≡ chased asked w (listed first) k (pair t.old q.old) }
{
    let column = column_at(first, t, asked.order, w.start, k);
    step(&column, t, q, asked, w, k);
}

// The last step, by two.
fn close(t: &mut [f64], q: &mut [f64], asked: Setting, w: Window)
    requires { Reaches asked.order w.end t.old × (w.start + 2 ≤ w.end) }
    ensures { pair t.new q.new ≡ closing asked w (pair t.old q.old) }
{
    let k = w.end - 1;
    let column: Vector<2> = bulge(t, asked.order, k);
    step(&column, t, q, asked, w, k);
}

// Every step of the pass.
fn shift_here(t: &mut [f64], q: &mut [f64], asked: Setting, w: Window)
    requires { Reaches asked.order w.end t.old × (w.start + 2 ≤ w.end) }
    ensures { pair t.new q.new
        ≡ pass_here asked w (pair t.old q.old) }
{
    let start = w.start;
    let end = w.end;
    let first = first_column(t, asked.order, start, end);
    for k in start..end - 1 {
        chase(first, t, q, asked, w, k);
    }
    close(t, q, asked, w);
}

// The same for every argument: nothing is done where the window is none of three rows or more of the matrix.
pub fn double_shift(t: &mut [f64], q: &mut [f64], asked: Setting, w: Window)
    ensures { pair t.new q.new ≡ pass_of asked w (pair t.old q.old) }
{
    let n = asked.order;
    let start = w.start;
    let end = w.end;
    if !matrix::block_fits(n, t.len(), 0, n, 0, n) {
        return;
    }
    if end > 64 {
        return;
    }
    // By the place of the window's last entry, not by `end < n`: told that, the compiler tests once for all
    // steps whether the columns of Q overlap, has to say yes, and gives up its vector operations.
    if end * n + end >= t.len() {
        return;
    }
    if end < 2 {
        return;
    }
    if start > end - 2 {
        return;
    }
    shift_here(t, q, asked, w);
}
