// The leaves for the oracle alone: it compares them with the crate's own, bit by bit and in time. What a
// host program calls is `door`.
#![tactic(auto)]

ghost use Rattle.std.specs.Prelude.{◌≡◌, [], ◌∷◌};
ghost use Rattle.matrix.specs.Sum.{lanes, bare};
ghost use Rattle.loops.specs.Constants.{one};
ghost use Rattle.matrix.specs.Vectors.{dot_of};
ghost use Rattle.givens.specs.Rotation.{rotation};
ghost use Rattle.givens.specs.Rotated.{rotated, rotated_rows};
ghost use Rattle.reflection.specs.Reflected.{reflected, reflected_rows};
ghost use Rattle.householder.specs.Axis.{axis_of};
ghost use Rattle.householder.specs.Cleared.{cleared, clear_of};
ghost use Rattle.householder.specs.Assembled.{assembled};

use givens::Rotation;
use matrix::Vector;

#[unsafe(no_mangle)]
pub extern "C" fn manulsek_leaf_dot(x: &[f64], y: &[f64]) -> f64
    ensures { result ≡ dot_of x.now y.now }
{
    matrix::dot(x, y)
}

// The column becomes the axis; the norm with its sign is answered.
#[unsafe(no_mangle)]
pub extern "C" fn manulsek_leaf_axis(c: &mut [f64]) -> f64
    ensures value { result ≡ (axis_of lanes c.old).norm }
    ensures c_after { c.new ≡ (axis_of lanes c.old).axis }
{
    let axis = householder::reflection_axis_mut(c);
    axis.norm
}

#[unsafe(no_mangle)]
pub extern "C" fn manulsek_leaf_reflect(
    a: &[f64],
    t: &mut [f64],
    n: usize,
    row: usize,
    c0: usize,
    c1: usize,
    sign: f64,
)
    ensures { t.new ≡ reflected lanes a.now sign n row c0 c1 t.old }
{
    reflection::reflect_with_sign(a, t, n, row, c0, c1, sign);
}

#[unsafe(no_mangle)]
pub extern "C" fn manulsek_leaf_reflect_rows(
    a: &[f64],
    t: &mut [f64],
    n: usize,
    rows: usize,
    c0: usize,
    sign: f64,
)
    ensures { t.new ≡ reflected_rows a.now sign n rows c0 t.old }
{
    reflection::reflect_rows_with_sign(a, t, n, rows, c0, sign);
}

#[unsafe(no_mangle)]
pub extern "C" fn manulsek_leaf_reflect3(
    x: f64,
    y: f64,
    z: f64,
    t: &mut [f64],
    n: usize,
    row: usize,
    c0: usize,
    c1: usize,
)
    ensures { t.new ≡ reflected bare (x ∷ y ∷ z ∷ []) one n row c0 c1 t.old }
{
    reflection::reflect_by_vector(&Vector([x, y, z]), t, n, row, c0, c1);
}

#[unsafe(no_mangle)]
pub extern "C" fn manulsek_leaf_reflect_rows3(
    x: f64,
    y: f64,
    z: f64,
    t: &mut [f64],
    n: usize,
    rows: usize,
    c0: usize,
)
    ensures { t.new ≡ reflected_rows (x ∷ y ∷ z ∷ []) one n rows c0 t.old }
{
    reflection::reflect_rows_by_vector(&Vector([x, y, z]), t, n, rows, c0);
}

#[unsafe(no_mangle)]
pub extern "C" fn manulsek_leaf_rotate(
    c: f64,
    s: f64,
    t: &mut [f64],
    n: usize,
    i: usize,
    c0: usize,
    c1: usize,
)
    ensures { t.new ≡ rotated (rotation c s) n i c0 c1 t.old }
{
    Rotation { c, s }.rotate(t, n, i, c0, c1);
}

#[unsafe(no_mangle)]
pub extern "C" fn manulsek_leaf_rotate_rows(
    c: f64,
    s: f64,
    t: &mut [f64],
    n: usize,
    k: usize,
    rows: usize,
)
    ensures { t.new ≡ rotated_rows (rotation c s) n k rows t.old }
{
    Rotation { c, s }.rotate_rows(t, n, k, rows);
}

#[unsafe(no_mangle)]
pub extern "C" fn manulsek_leaf_clear_column(
    t: &mut [f64],
    n: usize,
    icol: usize,
    work: &mut [f64],
) -> f64
    ensures { cleared result t.new work.new
        ≡ clear_of n icol t.old work.old }
{
    householder::clear_column(t, n, icol, work)
}

#[unsafe(no_mangle)]
pub extern "C" fn manulsek_leaf_assemble_q(m: &[f64], n: usize, signs: &[f64], q: &mut [f64])
    ensures { q.new ≡ assembled n m.now signs.now q.old }
{
    householder::assemble_q(m, n, signs, q);
}
