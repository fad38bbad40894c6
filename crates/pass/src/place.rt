// Row i of column j of a matrix of order n, where the caller knows that it is there: for the total read and
// write see `matrix::entry` and `matrix::put`. `window` and `pass` have this same file: a pair that both could call
// would have to be public, so total, and would test in every call what its callers know.
ghost use Rattle.std.specs.Prelude.{◌≡◌, length, set, ◌+◌, ◌*◌, ◌<◌, ◌≤◌};
ghost use Rattle.loops.specs.Place.{place};
ghost use Rattle.loops.specs.Rounded.{◌!◌};

#[tactic(auto, using(loops::specs::Place::placed))]
pub(crate) fn get(t: &[f64], n: usize, i: usize, j: usize) -> f64
    requires { (n ≤ 64) × (length t.now ≡ n * n) × (i < n) × (j < n) }
    ensures { result ≡ t.now ! place n i j }
{
    t[j * n + i]
}

#[tactic(auto, using(loops::specs::Place::placed))]
pub(crate) fn put(t: &mut [f64], n: usize, i: usize, j: usize, x: f64)
    requires { (n ≤ 64) × (length t.old ≡ n * n) × (i < n) × (j < n) }
    ensures { t.new ≡ set t.old (place n i j) x }
{
    t[j * n + i] = x;
}
