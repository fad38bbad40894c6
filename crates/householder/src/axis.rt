// The axis of the reflection that takes a column to a multiple of the first unit vector.
ghost use Rattle.std.specs.Prelude.{◌≡◌, cond};
ghost use Rattle.scalar.specs.Root.{root_of};
ghost use Rattle.matrix.specs.Sum.{Order, bare, lanes};
ghost use Rattle.matrix.specs.Vectors.{norm_squared, unscaled, normalized};
ghost use Rattle.householder.specs.Axis.{axis_answer, axis_of};

use matrix::Vector;

// What would be the column's first number after the reflection, and whether there is a reflection: there
// is none where all squares of the column vanish. No enum: the norm is answered in both cases, and each caller takes it
// whatever the case.
#[derive(Clone, Copy)]
pub struct Axis {
    pub norm: f64,
    pub reflected: bool,
}

// A column with the norm added to its first number: what is answered of it, and the square of the norm that it has.
#[derive(Clone, Copy)]
struct Shifted {
    axis: Axis,
    factor: f64,
}

// By the sum of the column's squares, in any order of summing. Where there is a reflection, the column is still to be
// divided by the root of the factor and normalized, for which slices and vectors have functions of their own: a trait
// of these would be longer than the two bodies below.
fn shift(column: &mut [f64], squares: f64) -> Shifted
    ensures { (sum : Order) → squares ≡ norm_squared sum column.old → axis_answer
        (cond result.axis.reflected (normalized sum (unscaled (root_of result.factor) column.new)) column.new)
        result.axis.norm result.axis.reflected ≡ axis_of sum column.old }
{
    if column.len() == 0 {
        return Shifted {
            axis: Axis {
                norm: 0.0,
                reflected: false,
            },
            factor: 0.0,
        };
    }
    let root = scalar::sqrt(squares);
    let exp = scalar::to_exp(column[0]);
    let norm = exp.sign * root;
    let factor = (squares + exp.magnitude * root) * 2.0;
    column[0] += norm;
    let reflected = !scalar::is_zero(factor);
    Shifted {
        axis: Axis {
            norm: if reflected { -norm } else { norm },
            reflected,
        },
        factor,
    }
}

// The column is rewritten: it becomes the axis, of length 1. An empty one has none.
pub fn reflection_axis_mut(column: &mut [f64]) -> Axis
    ensures { axis_answer column.new result.norm result.reflected ≡ axis_of lanes column.old }
{
    let sq_norm = matrix::norm_squared(column);
    let s = shift(column, sq_norm);
    if s.axis.reflected {
        let root = scalar::sqrt(s.factor);
        matrix::unscale_mut(column, root);
        // Once more: after a small factor the axis may be some way from length 1.
        matrix::normalize_mut(column);
    }
    s.axis
}

// The same for a vector, whose sums have no leading zero but the norm's.
pub fn reflection_axis_of_vector<const N: usize>(column: &mut Vector<N>) -> Axis
    ensures { axis_answer column.new.0 result.norm result.reflected ≡ axis_of bare column.old.0 }
{
    let squares = column.norm_squared();
    let s = shift(&mut column.0, squares);
    if s.axis.reflected {
        *column = column.unscale(scalar::sqrt(s.factor)).normalize();
    }
    s.axis
}
