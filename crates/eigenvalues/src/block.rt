// A block on T's diagonal, and what it answers. A matrix of order n lies column by column in one slice.
ghost use Rattle.std.specs.Prelude.{◌≡◌, ◌&&◌, length, ◌+◌, ◌<◌};
ghost use Rattle.scalar.specs.Class.{is_finite};
ghost use Rattle.pass.specs.Block.{block_at};
ghost use Rattle.eigenvalues.specs.Inner.{Square};
ghost use Rattle.eigenvalues.specs.Blocks.{paired, pair_of, answer_at, not_complex, upper, lower, follows};

use pass::Block;

#[derive(Clone, Copy, Debug, PartialEq)]
pub struct Parts {
    pub re: f64,
    pub im: f64,
}

// One real number; or a pair, by half the trace and the root of the discriminant without its sign.
#[derive(Clone, Copy, Debug, PartialEq)]
pub enum BlockAnswer {
    One(f64),
    Pair(Parts),
}

// Whether a block of two stands at k: the entry just below the diagonal is there and is not 0.
#[tactic(auto, using(crate::proofs::BlockAnswers::blocks), unfolding(crate::specs::Blocks::paired))]
pub(crate) fn is_paired(t: &[f64], n: usize, k: usize) -> bool
    requires { Square n (length t.now) × (k < n) }
    ensures { result ≡ paired n t.now k }
{
    k + 1 < n && !scalar::is_zero(matrix::entry(t, n, k + 1, k))
}

// That block.
pub(crate) fn block_at(t: &[f64], n: usize, k: usize) -> Block
    requires { Square n (length t.now) × (k + 1 < n) }
    ensures { result ≡ block_at n k t.now }
{
    Block {
        h00: matrix::entry(t, n, k, k),
        h10: matrix::entry(t, n, k + 1, k),
        h01: matrix::entry(t, n, k, k + 1),
        h11: matrix::entry(t, n, k + 1, k + 1),
    }
}

// Half the trace, and the root of the discriminant without its sign: where it is above 0 or NaN, a NaN.
#[tactic(auto, unfolding(crate::specs::Blocks::pair_of))]
fn pair_of(m: Block) -> Parts
    ensures { result ≡ pair_of m }
{
    let sqrt_discr = scalar::sqrt(-pass::discriminant(m));
    let half_tra = (m.h11 + m.h00) * 0.5;
    Parts {
        re: half_tra,
        im: sqrt_discr,
    }
}

// What the block with its upper left entry at k answers.
#[tactic(auto, using(crate::proofs::BlockAnswers::blocks), unfolding(crate::specs::Blocks::answer_at))]
pub(crate) fn answer_at(t: &[f64], n: usize, k: usize) -> BlockAnswer
    requires { Square n (length t.now) × (k < n) }
    ensures { result ≡ answer_at n t.now k }
{
    if is_paired(t, n, k) {
        BlockAnswer::Pair(pair_of(block_at(t, n, k)))
    } else {
        BlockAnswer::One(matrix::entry(t, n, k, k))
    }
}

// Whether a block of two stands at k whose discriminant is above 0 or NaN.
#[tactic(auto, using(crate::proofs::BlockAnswers::blocks), unfolding(crate::specs::Blocks::not_complex))]
pub(crate) fn is_not_complex(t: &[f64], n: usize, k: usize) -> bool
    requires { Square n (length t.now) × (k < n) }
    ensures { result ≡ not_complex n t.now k }
{
    is_paired(t, n, k) && !(pass::discriminant(block_at(t, n, k)) <= 0.0)
}

impl BlockAnswer {
    // The eigenvalue of a block's first row: (half, 0) + (0, root).
    #[tactic(auto, unfolding(crate::specs::Blocks::upper))]
    fn first_row(self) -> Parts
        ensures { result ≡ upper self }
    {
        match self {
            BlockAnswer::One(x) => Parts { re: x, im: 0.0 },
            BlockAnswer::Pair(p) => Parts {
                re: p.re + 0.0,
                im: 0.0 + p.im,
            },
        }
    }

    // The eigenvalue of a row that answers so, by what the row before has answered: that one may begin a pair.
    #[tactic(auto, unfolding(crate::specs::Blocks::follows))]
    pub(crate) fn eigenvalue(self, before: BlockAnswer) -> Parts
        ensures { result ≡ follows before self }
    {
        match before {
            BlockAnswer::One(_) => self.first_row(),
            BlockAnswer::Pair(p) => p.second_row(),
        }
    }
}

impl Parts {
    // The eigenvalue of a pair's second row: (half, 0) - (0, root).
    #[tactic(auto, unfolding(crate::specs::Blocks::lower))]
    fn second_row(self) -> Parts
        ensures { result ≡ lower self }
    {
        Parts {
            re: self.re - 0.0,
            im: 0.0 - self.im,
        }
    }

    // Whether both are finite.
    pub(crate) fn is_finite(self) -> bool
        ensures { result ≡ (is_finite self.re && is_finite self.im) }
    {
        scalar::is_finite(self.re) && scalar::is_finite(self.im)
    }
}
