// Vectors, axes and rotations.
use crate::draw::drawn;
use crate::say;
use givens::{Rotation, Turn};
use householder::Axis;
use matrix::Vector;

// The first N numbers of a seed.
pub(crate) fn vector<const N: usize>(seed: usize) -> Vector<N> {
    let mut v = Vector([0.0; N]);
    for (place, x) in v.0.iter_mut().enumerate() {
        *x = drawn(seed, place);
    }
    v
}

pub(crate) fn tell<const N: usize>(rt: &impl Print, v: &Vector<N>) {
    say::numbers(rt, &v.0);
}

pub(crate) fn axis(rt: &impl Print, a: Axis) {
    say::number(rt, a.norm);
    say::flag(rt, a.reflected);
}

// What the column becomes is told too.
pub(crate) fn axis_of<const N: usize>(rt: &impl Print, column: Vector<N>) {
    let mut v = column;
    axis(rt, householder::reflection_axis_of_vector(&mut v));
    tell(rt, &v);
}

pub(crate) fn rotation(rt: &impl Print, r: Rotation) {
    say::numbers(rt, &[r.c, r.s]);
}

pub(crate) fn turn(rt: &impl Print, t: Turn) {
    rotation(rt, t.rotation);
    say::number(rt, t.norm);
}

pub(crate) fn made(rt: &impl Print, m: Option<Turn>) {
    match m {
        Some(found) => turn(rt, found),
        None => say::none(rt),
    }
}
