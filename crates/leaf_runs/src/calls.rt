// The calls. Those of one function below have the same numbers in their lines; no two of them have a call of one name.
// A function tells nothing, and answers None, where it has no call of this name, where the numbers cannot be read as
// those of its calls, and where there is no room for them.
use crate::draw::{drawn, numbers_of};
use crate::say;
use crate::vectors::{axis, axis_of, made, rotation, tell, turn, vector};
use givens::Rotation;

// The numbers of a call that has N of them, with one space between two.
fn numbers<const N: usize>(given: &str) -> Option<[usize; N]> {
    let mut words = given.split(' ');
    let mut found = [0; N];
    for number in &mut found {
        let word = words.next()?;
        // A number has digits alone.
        if word.starts_with('+') {
            return None;
        }
        *number = word.parse().ok()?;
    }
    words.next().is_none().then_some(found)
}

// What becomes of a slice, by or with the number that would come next.
fn slice_changed(rt: &impl Print, name: &str, given: &str) -> Option<()> {
    let [len, seed] = numbers::<2>(given)?;
    let mut x = numbers_of(seed);
    let x = x.get_mut(..len)?;
    let next = drawn(seed, len);
    match name {
        "normalize_mut" => matrix::normalize_mut(x),
        "scale_mut" => matrix::scale_mut(x, next),
        "unscale_mut" => matrix::unscale_mut(x, next),
        "fill" => matrix::fill(x, next),
        "reflection_axis_mut" => {
            let a = householder::reflection_axis_mut(x);
            axis(rt, a);
        }
        _ => return None,
    }
    say::numbers(rt, x);
    Some(())
}

fn slice_summed(rt: &impl Print, name: &str, given: &str) -> Option<()> {
    let [len, seed] = numbers::<2>(given)?;
    let x = numbers_of(seed);
    let x = x.get(..len)?;
    let sum = match name {
        "norm_squared" => matrix::norm_squared(x),
        "norm" => matrix::norm(x),
        "camax" => matrix::camax(x),
        _ => return None,
    };
    say::number(rt, sum);
    Some(())
}

fn two_slices(rt: &impl Print, name: &str, given: &str) -> Option<()> {
    let [len, others, seed, other] = numbers::<4>(given)?;
    let (mut x, y) = (numbers_of(seed), numbers_of(other));
    let (x, y) = (x.get_mut(..len)?, y.get(..others)?);
    match name {
        "dot" => say::number(rt, matrix::dot(x, y)),
        "copy_from" => {
            matrix::copy_from(x, y);
            say::numbers(rt, x);
        }
        _ => return None,
    }
    Some(())
}

fn entry(rt: &impl Print, given: &str) -> Option<()> {
    let [n, len, row, col] = numbers::<4>(given)?;
    let t = numbers_of(15);
    say::number(rt, matrix::entry(t.get(..len)?, n, row, col));
    Some(())
}

fn put(rt: &impl Print, given: &str) -> Option<()> {
    let [n, len, row, col] = numbers::<4>(given)?;
    let mut t = numbers_of(7);
    let t = t.get_mut(..len)?;
    matrix::put(t, n, row, col, drawn(4, 1));
    say::numbers(rt, t);
    Some(())
}

fn block_fits(rt: &impl Print, given: &str) -> Option<()> {
    let [n, len, row, rows, c0, cols] = numbers::<6>(given)?;
    say::flag(rt, matrix::block_fits(n, len, row, rows, c0, cols));
    Some(())
}

fn of_seed(rt: &impl Print, name: &str, given: &str) -> Option<()> {
    let [seed] = numbers::<1>(given)?;
    let (u, v) = (vector::<2>(seed), vector::<3>(seed));
    let (x, y, z, divisor) = (
        drawn(seed, 0),
        drawn(seed, 1),
        drawn(seed, 2),
        drawn(seed, 3),
    );
    match name {
        "Vector2::dot" => say::number(rt, u.dot(&vector(16))),
        "Vector3::dot" => say::number(rt, v.dot(&vector(16))),
        "Vector2::norm_squared" => say::number(rt, u.norm_squared()),
        "Vector3::norm_squared" => say::number(rt, v.norm_squared()),
        "Vector2::norm" => say::number(rt, u.norm()),
        "Vector3::norm" => say::number(rt, v.norm()),
        "Vector2::unscale" => tell(rt, &u.unscale(divisor)),
        "Vector3::unscale" => tell(rt, &v.unscale(divisor)),
        "Vector2::normalize" => tell(rt, &u.normalize()),
        "Vector3::normalize" => tell(rt, &v.normalize()),
        "reflection_axis2" => axis_of(rt, u),
        "reflection_axis3" => axis_of(rt, v),
        "Rotation::identity" => rotation(rt, Rotation::identity()),
        "Rotation::new" => turn(rt, Rotation::new(x, y)),
        "Rotation::try_new" => made(rt, Rotation::try_new(x, y, scalar::modulus(z))),
        "Rotation::cancel_y" => made(rt, Rotation::cancel_y(y, x)),
        "Rotation::inverse" => rotation(rt, Rotation { c: x, s: y }.inverse()),
        _ => return None,
    }
    Some(())
}

// What becomes of a matrix. The sign is NaN for NaN.
fn matrix_moved(rt: &impl Print, name: &str, given: &str) -> Option<()> {
    let [n, len, others, row, rows, c0, c1, first, seed] = numbers::<9>(given)?;
    let (mut t, a) = (numbers_of(first), numbers_of(seed));
    let (t, a) = (t.get_mut(..len)?, a.get(..others)?);
    let (u, v) = (vector::<2>(seed), vector::<3>(seed));
    let sign = scalar::signum(drawn(seed, 9));
    let by = Rotation::new(drawn(seed, 0), drawn(seed, 1)).rotation;
    match name {
        "rotate" => by.rotate(t, n, row, c0, c1),
        "rotate_rows" => by.rotate_rows(t, n, c0, rows),
        "reflect" => reflection::reflect(a, t, n, row, c0, c1),
        "reflect3" => reflection::reflect_by_vector(&v, t, n, row, c0, c1),
        "reflect2" => reflection::reflect_by_vector(&u, t, n, row, c0, c1),
        "reflect_with_sign" => reflection::reflect_with_sign(a, t, n, row, c0, c1, sign),
        "reflect3_with_sign" => reflection::reflect_by_vector_with_sign(
            &v, t, n, row, c0, c1, sign,
        ),
        "reflect2_with_sign" => reflection::reflect_by_vector_with_sign(
            &u, t, n, row, c0, c1, sign,
        ),
        "reflect_rows" => reflection::reflect_rows(a, t, n, rows, c0),
        "reflect_rows3" => reflection::reflect_rows_by_vector(&v, t, n, rows, c0),
        "reflect_rows2" => reflection::reflect_rows_by_vector(&u, t, n, rows, c0),
        "reflect_rows_with_sign" => reflection::reflect_rows_with_sign(a, t, n, rows, c0, sign),
        "reflect_rows3_with_sign" => reflection::reflect_rows_by_vector_with_sign(
            &v, t, n, rows, c0, sign,
        ),
        "reflect_rows2_with_sign" => reflection::reflect_rows_by_vector_with_sign(
            &u, t, n, rows, c0, sign,
        ),
        _ => return None,
    }
    say::numbers(rt, t);
    Some(())
}

fn column_cleared(rt: &impl Print, name: &str, given: &str) -> Option<()> {
    let [n, len, others, icol, seed] = numbers::<5>(given)?;
    let (mut t, mut work) = (numbers_of(seed), numbers_of(40));
    let (t, work) = (t.get_mut(..len)?, work.get_mut(..others)?);
    let norm = householder::clear_column(t, n, icol, work);
    match name {
        "clear_column" => {
            say::number(rt, norm);
            say::numbers(rt, work);
        }
        "clear_column, matrix" => say::numbers(rt, t),
        _ => return None,
    }
    Some(())
}

fn assemble(rt: &impl Print, t: &[f64], n: usize, signs: &[f64], q: &mut [f64]) {
    householder::assemble_q(t, n, signs, q);
    say::numbers(rt, q);
}

fn assemble_q(rt: &impl Print, given: &str) -> Option<()> {
    let [n, len, others, columns, seed] = numbers::<5>(given)?;
    let (t, signs, mut q) = (numbers_of(seed), numbers_of(13), numbers_of(48));
    assemble(
        rt,
        t.get(..len)?,
        n,
        signs.get(..columns)?,
        q.get_mut(..others)?,
    );
    Some(())
}

// Clears a column for each sign, which it keeps as its norm, and answers the last one. The last column of a matrix has
// no row below: that call does nothing.
fn clear_all(t: &mut [f64], n: usize, signs: &mut [f64]) -> f64 {
    let mut work = numbers_of(40);
    let mut norm = 0.0;
    for (icol, sign) in signs.iter_mut().enumerate() {
        norm = householder::clear_column(t, n, icol, &mut work);
        *sign = norm;
    }
    norm
}

// All columns of a matrix of order 9 at most, and Q put together from what that leaves.
fn reduced(rt: &impl Print, name: &str, given: &str) -> Option<()> {
    let [n, seed] = numbers::<2>(given)?;
    let (mut t, mut signs, mut q) = (numbers_of(seed), [0.0; 9], numbers_of(48));
    let size = n.checked_mul(n)?;
    let (t, signs, q) = (t.get_mut(..size)?, signs.get_mut(..n)?, q.get_mut(..size)?);
    clear_all(t, n, signs);
    match name {
        "reduce, matrix" => say::numbers(rt, t),
        "reduce, Q" => assemble(rt, t, n, signs, q),
        _ => return None,
    }
    Some(())
}

// The columns up to this one.
fn reduced_to_column(rt: &impl Print, given: &str) -> Option<()> {
    let [n, seed, icol] = numbers::<3>(given)?;
    if n <= icol {
        return None;
    }
    let (mut t, mut signs) = (numbers_of(seed), [0.0; 9]);
    let t = t.get_mut(..n.checked_mul(n)?)?;
    say::number(rt, clear_all(t, n, signs.get_mut(..icol + 1)?));
    Some(())
}

// Runs a call on its numbers, and tells what it answers or leaves. The name is looked at first, so that no function but
// its own reads numbers or draws any.
pub(crate) fn run(rt: &impl Print, name: &str, given: &str) -> Option<()> {
    match name {
        "normalize_mut" | "scale_mut" | "unscale_mut" | "fill" | "reflection_axis_mut" => {
            slice_changed(rt, name, given)
        }
        "norm_squared" | "norm" | "camax" => slice_summed(rt, name, given),
        "dot" | "copy_from" => two_slices(rt, name, given),
        "entry" => entry(rt, given),
        "put" => put(rt, given),
        "block_fits" => block_fits(rt, given),
        "Vector2::dot"
        | "Vector3::dot"
        | "Vector2::norm_squared"
        | "Vector3::norm_squared"
        | "Vector2::norm"
        | "Vector3::norm"
        | "Vector2::unscale"
        | "Vector3::unscale"
        | "Vector2::normalize"
        | "Vector3::normalize"
        | "reflection_axis2"
        | "reflection_axis3"
        | "Rotation::identity"
        | "Rotation::new"
        | "Rotation::try_new"
        | "Rotation::cancel_y"
        | "Rotation::inverse" => of_seed(rt, name, given),
        "rotate"
        | "rotate_rows"
        | "reflect"
        | "reflect3"
        | "reflect2"
        | "reflect_with_sign"
        | "reflect3_with_sign"
        | "reflect2_with_sign"
        | "reflect_rows"
        | "reflect_rows3"
        | "reflect_rows2"
        | "reflect_rows_with_sign"
        | "reflect_rows3_with_sign"
        | "reflect_rows2_with_sign" => matrix_moved(rt, name, given),
        "clear_column" | "clear_column, matrix" => column_cleared(rt, name, given),
        "assemble_q" => assemble_q(rt, given),
        "reduce, matrix" | "reduce, Q" => reduced(rt, name, given),
        "reduce, column" => reduced_to_column(rt, given),
        _ => None,
    }
}
