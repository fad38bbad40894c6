// A block of two rows and columns: its eigenvalues, and the rotation that makes it triangular.
ghost use Rattle.std.specs.Prelude.{◌≡◌, ◌+◌, ◌<◌};
ghost use Rattle.pass.specs.Pair.{pair};
ghost use Rattle.pass.specs.Block.{block_at, discriminant, eigvals_of, basis_of, turned_t, turned_q, split_at};
ghost use Rattle.pass.specs.Block.{columns_in, order_two};
ghost use Rattle.pass.specs.Inner.{Reaches};

use crate::place::{get, put};
use crate::setting::Setting;
use givens::Rotation;

// Rows (h00 h01), (h10 h11).
#[derive(Clone, Copy, Debug, PartialEq)]
pub struct Block {
    pub h00: f64,
    pub h10: f64,
    pub h01: f64,
    pub h11: f64,
}

#[derive(Clone, Copy, Debug, PartialEq)]
pub struct Values {
    pub first: f64,
    pub second: f64,
}

// The block with its upper left entry in row and column k.
#[tactic(auto, unfolding(crate::specs::Block::block_at))]
fn block_at(t: &[f64], n: usize, k: usize) -> Block
    requires { Reaches n (k + 1) t.now }
    ensures { result ≡ block_at n k t.now }
{
    Block {
        h00: get(t, n, k, k),
        h10: get(t, n, k + 1, k),
        h01: get(t, n, k, k + 1),
        h11: get(t, n, k + 1, k + 1),
    }
}

// Not by trace and determinant: so it is never below 0 for a symmetric block.
#[tactic(auto, unfolding(crate::specs::Block::discriminant))]
pub fn discriminant(m: Block) -> f64
    ensures { result ≡ discriminant m }
{
    let val = (m.h00 - m.h11) * 0.5;
    m.h10 * m.h01 + val * val
}

#[tactic(auto, unfolding(crate::specs::Block::eigvals_of))]
pub fn compute_2x2_eigvals(m: Block) -> Option<Values>
    ensures { result ≡ eigvals_of m }
{
    let discr = discriminant(m);
    if discr >= 0.0 {
        let root = scalar::sqrt(discr);
        let half_tra = (m.h00 + m.h11) * 0.5;
        Some(Values {
            first: half_tra + root,
            second: half_tra - root,
        })
    } else {
        None
    }
}

// None for a block that is triangular already or has no real eigenvalues.
#[tactic(auto, unfolding(crate::specs::Block::basis_of, crate::specs::Block::basis_by))]
pub fn compute_2x2_basis(m: Block) -> Option<Rotation>
    ensures { result ≡ basis_of m }
{
    if scalar::is_zero(m.h10) {
        return None;
    }
    let eigvals = compute_2x2_eigvals(m)?;
    let x1 = eigvals.first - m.h11;
    let x2 = eigvals.second - m.h11;
    // The larger of the two: the rotation's length is then worked out the more exactly.
    let x = if scalar::modulus(x1) > scalar::modulus(x2) {
        x1
    } else {
        x2
    };
    Some(Rotation::new(x, m.h10).rotation)
}

// T turned by the rotation of the block at k: the block becomes triangular, or is left standing.
#[tactic(auto, unfolding(crate::specs::Block::turned_t))]
fn turn_t(basis: Option<Rotation>, t: &mut [f64], n: usize, k: usize)
    requires { Reaches n (k + 1) t.old }
    ensures { t.new ≡ turned_t n k basis t.old }
{
    let Some(rot) = basis else {
        return;
    };
    rot.inverse().rotate(t, n, k, k, n);
    rot.rotate_rows(t, n, k, k + 2);
    put(t, n, k + 1, k, 0.0);
}

// Q turned by the same.
#[tactic(auto, unfolding(crate::specs::Block::turned_q))]
fn turn_q(basis: Option<Rotation>, q: &mut [f64], n: usize, k: usize)
    requires { k + 1 < n }
    ensures { q.new ≡ turned_q n k basis q.old }
{
    let Some(rot) = basis else {
        return;
    };
    rot.rotate_rows(q, n, k, n);
}

// A window of two, at k: a no-op unless its rows are in the matrix.
#[tactic(auto, using(matrix::proofs::Fitting::fits), unfolding(crate::specs::Block::split_at))]
pub fn split(t: &mut [f64], q: &mut [f64], asked: Setting, k: usize)
    ensures { pair t.new q.new ≡ split_at asked k (pair t.old q.old) }
{
    if !matrix::block_fits(asked.order, t.len(), k, 2, k, 2) {
        return;
    }
    let basis = compute_2x2_basis(block_at(t, asked.order, k));
    turn_t(basis, t, asked.order, k);
    if asked.wanted {
        turn_q(basis, q, asked.order, k);
    }
}

// Q of order 2: the rotation itself, or the identity.
#[tactic(auto, unfolding(crate::specs::Block::columns_in, crate::specs::Block::columns_of))]
fn basis_columns(basis: Option<Rotation>, q: &mut [f64])
    ensures { q.new ≡ columns_in basis q.old }
{
    if q.len() != 4 {
        return;
    }
    let columns = match basis {
        None => [1.0, 0.0, 0.0, 1.0],
        Some(rot) => [rot.c, rot.s, -rot.s, rot.c],
    };
    q.copy_from_slice(&columns);
}

// Order 2, whole: no scaling and no pass. A no-op unless t has that order.
#[tactic(auto, unfolding(crate::specs::Block::order_two))]
pub fn decompose_2x2(t: &mut [f64], q: &mut [f64], asked: Setting)
    ensures { pair t.new q.new ≡ order_two asked (pair t.old q.old) }
{
    if t.len() != 4 {
        return;
    }
    let basis = compute_2x2_basis(block_at(t, 2, 0));
    turn_t(basis, t, 2, 0);
    if asked.wanted {
        basis_columns(basis, q);
    }
}
