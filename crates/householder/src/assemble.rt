// Q put together from the axes of the reduction.
ghost use Rattle.std.specs.Prelude.{◌≡◌, length, ◌*◌, ◌≤◌};
ghost use Rattle.householder.specs.Assembled.{identity, assembled};

// 1 on the diagonal of the matrix q of order n, +0 elsewhere.
#[tactic(auto, using(crate::proofs::Bounds::bounds))]
fn fill_with_identity(q: &mut [f64], n: usize)
    requires { (n ≤ 64) × (length q.old ≡ n * n) }
    ensures { q.new ≡ identity n q.old }
{
    matrix::fill(q, 0.0);
    for i in 0..n {
        let p = i * n + i;
        q[p] = 1.0;
    }
}

// Q from the axes that stand below the diagonal of m, both of order n: column i's axis with the sign of
// signs[i], also where no reflection was made. A no-op unless m and q have n * n numbers, and signs n - 1.
#[tactic(auto, using(crate::proofs::Bounds::bounds), unfolding(crate::specs::Assembled::assembled))]
pub fn assemble_q(m: &[f64], n: usize, signs: &[f64], q: &mut [f64])
    ensures { q.new ≡ assembled n m.now signs.now q.old }
{
    if !matrix::block_fits(n, m.len(), 0, n, 0, n) {
        return;
    }
    if !matrix::block_fits(n, q.len(), 0, n, 0, n) {
        return;
    }
    let Some(last) = n.checked_sub(1) else {
        return;
    };
    if last > signs.len() {
        return;
    }
    fill_with_identity(q, n);
    for i in (0..last).rev() {
        let next = i + 1;
        let a = i * n + next;
        let e = i * n + n;
        reflection::reflect_with_sign(&m[a..e], q, n, next, i, n, scalar::signum(signs[i]));
    }
}
