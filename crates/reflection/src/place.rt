// Where an entry of a matrix lies. `givens` has its own: both ask that the place is there, which no public function
// may.
ghost use Rattle.std.specs.Prelude.{◌+◌, ◌<◌, ◌≤◌};
ghost use Rattle.reflection.specs.Inner.{PlaceOf};

// Row i of column j of a matrix of order n, where `rows` entries from there on lie in the column, one below the other.
pub(crate) fn first_of(n: usize, i: usize, j: usize, rows: usize) -> usize
    requires { (n ≤ 64) × (i + rows ≤ n) × (j < n) }
    ensures { PlaceOf n i j rows result }
{
    j * n + i
}

// The same for one entry.
pub(crate) fn at(n: usize, i: usize, j: usize) -> usize
    requires { (n ≤ 64) × (i < n) × (j < n) }
    ensures { PlaceOf n i j 1 result }
{
    first_of(n, i, j, 1)
}
