// The real Schur decomposition as a caller gets it: the arguments are checked, the run is made, its result is
// looked at. A matrix of order n lies column by column in one slice.
#![tactic(auto)]

ghost use Rattle.std.specs.Prelude.{◌≡◌, true, length};
ghost use Rattle.pass.specs.Pair.{pair};
ghost use Rattle.schur.specs.Run.{ran_of, run_fits};
ghost use Rattle.decomposition.specs.Checks.{tolerance_fits, budget_fits, all_lengths, argument_checks, result_checks};
ghost use Rattle.decomposition.specs.Decomposition.{outcome, nan_filled, settlement, decided, judged, decomposition_of};
ghost use Rattle.decomposition.specs.Decomposition.{placed_of, BelowBudget, Shaped};
ghost use Rattle.decomposition.specs.Inner.{refusal_of, Same, pair_of};

use pass::Setting;
use refusal::Refusal;
use schur::Stopped;

// From 0 to below 1: also -0, and not NaN.
#[tactic(auto, unfolding(crate::specs::Checks::tolerance_fits))]
pub fn tolerance_fits(x: f64) -> bool
    ensures { result ≡ tolerance_fits x }
{
    x >= 0.0 && x < 1.0
}

#[tactic(auto, unfolding(crate::specs::Checks::budget_fits))]
pub fn budget_fits(b: u64) -> bool
    ensures { result ≡ budget_fits b }
{
    (1..=1_000_000).contains(&b)
}

// The arguments, in the order of document 01's table; tn, qn and wn are the lengths of what is lent.
#[tactic(auto, using(crate::proofs::Judging::checked))]
fn check_arguments(
    m: &[f64],
    asked: Setting,
    budget: u64,
    tn: usize,
    qn: usize,
    wn: usize,
) -> Result<(), Refusal>
    ensures { result
        ≡ argument_checks (all_lengths asked (length m.now) tn qn wn) asked budget m.now }
{
    let n = asked.order;
    refusal::check_order(n)?;
    refusal::check_matrices(asked.wanted, n * n, m.len(), tn, qn)?;
    refusal::check_length(wn, 2 * n, Refusal::WrongLength)?;
    if !tolerance_fits(asked.tolerance) {
        return Err(Refusal::ToleranceOutside);
    }
    if !budget_fits(budget) {
        return Err(Refusal::BudgetOutside);
    }
    refusal::check_entries(m, n)
}

// The budget was reached: 7. That an argument does not fit is never met here, since the lengths were checked before.
// Neither type is of this crate, so it can't be a `From`.
#[tactic(auto, unfolding(crate::specs::Inner::refusal_of))]
fn refusal_of(stopped: Stopped) -> Refusal
    ensures { result ≡ refusal_of stopped }
{
    match stopped {
        Stopped::BudgetReached(_) => Refusal::BudgetReached,
        Stopped::Unfit => Refusal::WrongLength,
    }
}

// T and Q as they are lent, and what is asked for.
#[derive(Drop)]
struct Matrices<'a> {
    t: &'a mut [f64],
    q: &'a mut [f64],
    asked: Setting,
}

impl Matrices<'_> {
    // T first, or else Q if it is wanted.
    #[tactic(auto, using(crate::proofs::Judging::checked))]
    fn check_result(&self) -> Result<(), Refusal>
        ensures { result ≡ result_checks self.now.asked (pair_of self.now) }
    {
        refusal::check_result(self.t, self.asked.order)?;
        if self.asked.wanted {
            refusal::check_result(self.q, self.asked.order)?;
        }
        refusal::check_shape(self.t, self.asked.order)
    }

    // What is to be said of a run that left this T and Q.
    #[tactic(auto, using(crate::proofs::Judging::judging))]
    fn judge(&self, ran: Result<u64, Stopped>) -> Result<u64, Refusal>
        ensures { result ≡ (decided self.now.asked ran (pair_of self.now)).answer }
    {
        let passes = ran.map_err(refusal_of)?;
        self.check_result()?;
        Ok(passes)
    }

    // NaN in every entry of T, and of Q if it is wanted.
    #[tactic(auto, unfolding(crate::specs::Decomposition::nan_filled))]
    fn fill_with_nan(&mut self)
        ensures filled { pair_of self.new ≡ nan_filled self.old.asked (pair_of self.old) }
        ensures same { Same self.old self.new }
    {
        let nan = scalar::not_a_number();
        matrix::fill(self.t, nan);
        if self.asked.wanted {
            matrix::fill(self.q, nan);
        }
    }

    // What is answered to a run that answered so, and left this T and Q.
    fn decide(&mut self, ran: Result<u64, Stopped>) -> Result<u64, Refusal>
        ensures decided { settlement result (pair_of self.new)
            ≡ decided self.old.asked ran (pair_of self.old) }
        ensures same { Same self.old self.new }
    {
        let judged = self.judge(ran);
        if judged.is_err() {
            self.fill_with_nan();
        }
        judged
    }

    // The arguments have passed, and T holds the matrix.
    fn decompose(&mut self, budget: u64, work: &mut [f64]) -> Result<u64, Refusal>
        requires { run_fits self.old.asked.order (length self.old.t.now) (length work.old) ≡ true }
        ensures judged { outcome result (pair_of self.new) work.new
            ≡ judged self.old.asked (ran_of self.old.asked budget (pair_of self.old) work.old)
            work.old }
        ensures same { Same self.old self.new }
    {
        let ran = schur::do_decompose(self.t, self.q, self.asked, budget, work);
        self.decide(ran)
    }
}

// What is answered to a run that answered so, and left this T and Q: for those who have checked its arguments
// and made it themselves. Refused, T and Q are NaN throughout.
pub fn decide(
    ran: Result<u64, Stopped>,
    t: &mut [f64],
    q: &mut [f64],
    asked: Setting,
) -> Result<u64, Refusal>
    ensures { settlement result (pair t.new q.new)
        ≡ decided asked ran (pair t.old q.old) }
{
    Matrices { t, q, asked }.decide(ran)
}

// The matrix in t is decomposed in place: t becomes T, and q becomes Q if it is wanted; else q is not looked at.
// The workspace has 2n numbers. Refused before the run, nothing is touched; after it, T and Q are NaN throughout.
pub fn try_new_in_place(
    t: &mut [f64],
    q: &mut [f64],
    asked: Setting,
    budget: u64,
    work: &mut [f64],
) -> Result<u64, Refusal>
    ensures work_after { outcome result (pair t.new q.new) work.new
        ≡ placed_of asked budget (pair t.old q.old) work.old }
    ensures below_budget { BelowBudget result budget }
    ensures shaped { Shaped result asked.order t.new }
{
    check_arguments(t, asked, budget, t.len(), q.len(), work.len())?;
    Matrices { t, q, asked }.decompose(budget, work)
}

// The same for a matrix that is kept: t becomes a copy of m, once nothing is refused, and is decomposed in place.
pub fn try_new(
    m: &[f64],
    asked: Setting,
    budget: u64,
    t: &mut [f64],
    q: &mut [f64],
    work: &mut [f64],
) -> Result<u64, Refusal>
    ensures work_after { outcome result (pair t.new q.new) work.new
        ≡ decomposition_of asked budget m.now (pair t.old q.old) work.old }
    ensures below_budget { BelowBudget result budget }
    ensures shaped { Shaped result asked.order t.new }
{
    check_arguments(m, asked, budget, t.len(), q.len(), work.len())?;
    matrix::copy_from(t, m);
    Matrices { t, q, asked }.decompose(budget, work)
}
