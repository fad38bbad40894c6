// The run: opened, then turn after turn until the window has closed or the counted passes have reached the
// budget. T is t, Q is q; q is rewritten only where it is wanted.
ghost use Rattle.std.specs.Prelude.{◌≡◌, ◌+◌, ◌<◌, ◌≤◌};
ghost use Rattle.loops.specs.Constants.{one};
ghost use Rattle.matrix.specs.Vectors.{largest, filled};
ghost use Rattle.hessenberg.specs.Unpacked.{unpacked_q};
ghost use Rattle.pass.specs.Pair.{pair, on_q};
ghost use Rattle.schur.specs.Run.{after, turn_two, turn_more, turn_of, run_from, scaled_down, reduced_pair};
ghost use Rattle.schur.specs.Run.{opened, left, answered, run_fits, ran_of, run_of, work_after};
ghost use Rattle.schur.specs.Inner.{Square, Turnable, Same, Turned, Begun, stands, matrices};

use pass::Setting;
use window::{Window, delimit_subproblem};

// Where a run stands: the window that is open, and the passes counted so far.
#[derive(Clone, Copy, Debug, PartialEq, Eq)]
pub struct State {
    pub window: Window,
    pub passes: u64,
}

// Why a run did not end: the counted passes reached the budget, with this window open; or an argument does not fit.
#[derive(Clone, Copy, Debug, PartialEq, Eq)]
pub enum Stopped {
    BudgetReached(Window),
    Unfit,
}

// A run under way: T and Q, what is asked for, and where it stands.
// What is done before it stands anywhere takes the slices.
#[derive(Drop)]
struct Progress<'a> {
    t: &'a mut [f64],
    q: &'a mut [f64],
    asked: Setting,
    state: State,
}

impl Progress<'_> {
    // A pass has been made: T is delimited from `end`, and the pass counts.
    #[tactic(auto, unfolding(crate::specs::Run::after, crate::specs::Run::delimiting))]
    fn count_pass(&mut self, end: usize)
        requires { Turnable 1 self.old × (end < self.old.asked.order) }
        ensures { Turned self.old (after self.old.asked end self.old.state (matrices self.old)) self.new }
    {
        self.state.window = delimit_subproblem(self.t, self.asked.order, self.asked.tolerance, end);
        self.state.passes += 1;
    }

    // A window of two. After the one at the beginning of the matrix the run ends, and that is not counted.
    #[tactic(auto, unfolding(crate::specs::Run::turn_two))]
    fn turn_two(&mut self)
        requires { Turnable 1 self.old × (self.old.state.window.start + 1 ≡ self.old.state.window.end) }
        ensures { Turned self.old (turn_two self.old.asked self.old.state (matrices self.old)) self.new }
    {
        let Window { start, end } = self.state.window;
        pass::split(self.t, self.q, self.asked, start);
        if end <= 2 {
            self.state.window = Window { start: 0, end: 0 };
            return;
        }
        self.count_pass(end - 2);
    }

    // A window of three or more.
    #[tactic(auto, unfolding(crate::specs::Run::turn_more))]
    fn turn_more(&mut self)
        requires { Turnable 1 self.old × (self.old.state.window.start + 2 ≤ self.old.state.window.end) }
        ensures { Turned self.old (turn_more self.old.asked self.old.state (matrices self.old)) self.new }
    {
        let window = self.state.window;
        pass::double_shift(self.t, self.q, self.asked, window);
        self.count_pass(window.end);
    }

    // One turn over an open window.
    #[tactic(auto, unfolding(crate::specs::Run::turn_of))]
    fn turn(&mut self)
        requires { Turnable 1 self.old × (self.old.state.window.start < self.old.state.window.end) }
        ensures { Turned self.old (turn_of self.old.asked (stands self.old)) self.new }
    {
        let Window { start, end } = self.state.window;
        if end <= start + 1 {
            self.turn_two();
        } else {
            self.turn_more();
        }
    }

    // Turn after turn, at most `budget` of them.
    fn run(&mut self, budget: u64)
        requires { Turnable budget self.old }
        ensures run { stands self.new ≡ run_from self.old.asked budget (stands self.old) }
        ensures same { Same self.old self.new }
    {
        for _ in 0..budget {
            let Window { start, end } = self.state.window;
            if start == end {
                return;
            }
            self.turn();
        }
    }
}

// Divided by the largest magnitude, unless that is 0. It is handed back, for the way back.
#[tactic(auto, unfolding(crate::specs::Run::scaled_down))]
fn scale_down(t: &mut [f64]) -> f64
    ensures { (result ≡ largest t.old) × (t.new ≡ scaled_down t.old) }
{
    let amax = matrix::camax(t);
    if !scalar::is_zero(amax) {
        matrix::unscale_mut(t, amax);
    }
    amax
}

// Q from the reduced matrix, where it is wanted.
fn unpack_q(hess: &[f64], work: &[f64], q: &mut [f64], asked: Setting)
    ensures { q.new
        ≡ on_q asked.wanted (unpacked_q asked.order hess.now work.now) q.old }
{
    if asked.wanted {
        hessenberg::q(hess, asked.order, work, q);
    }
}

// Reduced: H in t, and Q where it is wanted.
#[tactic(auto, unfolding(crate::specs::Run::reduced_pair))]
fn unpack(t: &mut [f64], q: &mut [f64], asked: Setting, work: &mut [f64])
    ensures { pair t.new q.new
        ≡ reduced_pair asked (pair t.old q.old) work.old }
{
    hessenberg::new_with_workspace(t, asked.order, work);
    unpack_q(t, work, q, asked);
    hessenberg::unpack_h(t, asked.order, work);
}

// Scaled down, reduced, delimited: no pass is counted yet. The largest magnitude is handed back too.
#[derive(Clone, Copy)]
struct Opening {
    state: State,
    amax: f64,
}

#[tactic(auto, unfolding(crate::specs::Run::opened, crate::specs::Run::delimiting))]
fn begin(t: &mut [f64], q: &mut [f64], asked: Setting, work: &mut [f64]) -> Opening
    requires { Square asked t.old × (3 ≤ asked.order) }
    ensures { Begun asked (pair t.old q.old) work.old result
        (pair t.new q.new) }
{
    let amax = scale_down(t);
    unpack(t, q, asked, work);
    let window = delimit_subproblem(t, asked.order, asked.tolerance, asked.order - 1);
    Opening {
        state: State { window, passes: 0 },
        amax,
    }
}

// Order 3 and up.
#[tactic(auto, unfolding(crate::specs::Run::answered))]
fn run_large(
    t: &mut [f64],
    q: &mut [f64],
    asked: Setting,
    budget: u64,
    work: &mut [f64],
) -> Result<u64, Stopped>
    requires { Square asked t.old × (3 ≤ asked.order) }
    ensures { left result (pair t.new q.new)
        ≡ answered budget (largest t.old)
        (run_from asked budget (opened asked (pair t.old q.old) work.old)) }
{
    let begun = begin(t, q, asked, work);
    let mut progress = Progress {
        t,
        q,
        asked,
        state: begun.state,
    };
    progress.run(budget);
    let State { window, passes } = progress.state;
    if passes == budget {
        return Err(Stopped::BudgetReached(window));
    }
    matrix::scale_mut(progress.t, begun.amax);
    Ok(passes)
}

// Q of order 1, where it is wanted.
fn one_in_q(q: &mut [f64], wanted: bool)
    ensures { q.new ≡ on_q wanted (filled one) q.old }
{
    if wanted {
        matrix::fill(q, 1.0);
    }
}

// Every order.
#[tactic(auto, unfolding(crate::specs::Run::ran_of))]
fn run_fitting(
    t: &mut [f64],
    q: &mut [f64],
    asked: Setting,
    budget: u64,
    work: &mut [f64],
) -> Result<u64, Stopped>
    requires { Square asked t.old × (1 ≤ asked.order) }
    ensures { left result (pair t.new q.new)
        ≡ ran_of asked budget (pair t.old q.old) work.old }
{
    match asked.order {
        1 => {
            one_in_q(q, asked.wanted);
            Ok(0)
        }
        2 => {
            pass::decompose_2x2(t, q, asked);
            Ok(0)
        }
        _ => run_large(t, q, asked, budget, work),
    }
}

// Whether T has order n, from 1 to 64, and the workspace 2n numbers.
#[tactic(auto, using(matrix::proofs::Fitting::fits), unfolding(crate::specs::Run::run_fits))]
fn run_fits(n: usize, tn: usize, wn: usize) -> bool
    ensures { result ≡ run_fits n tn wn }
{
    n > 0 && matrix::block_fits(n, tn, 0, n, 0, n) && wn == 2 * n
}

// The matrix in t becomes T, and q becomes Q where it is wanted. The workspace is +0 throughout afterwards.
// A no-op unless all of them fit.
#[tactic(auto, using(crate::proofs::Ends::ends), unfolding(crate::specs::Run::run_of, crate::specs::Run::work_after))]
pub fn do_decompose(
    t: &mut [f64],
    q: &mut [f64],
    asked: Setting,
    budget: u64,
    work: &mut [f64],
) -> Result<u64, Stopped>
    ensures q_after { left result (pair t.new q.new)
        ≡ run_of asked budget (pair t.old q.old) work.old }
    ensures work_after { work.new ≡ work_after asked.order t.old work.old }
{
    if !run_fits(asked.order, t.len(), work.len()) {
        return Err(Stopped::Unfit);
    }
    let ran = run_fitting(t, q, asked, budget, work);
    matrix::fill(work, 0.0);
    ran
}
