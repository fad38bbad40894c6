// What is said of the list. A write that fails is passed over.
use crate::case::{Differences, Outcome};
use crate::met::Met;
use std::fmt;

// How many cases there were, and how many of them differ.
#[derive(Clone, Copy, Default)]
struct Tally {
    cases: u64,
    differ: u64,
}

impl Tally {
    fn count(&mut self, same: bool) {
        self.cases = self.cases.saturating_add(1);
        if !same {
            self.differ = self.differ.saturating_add(1);
        }
    }
}

impl fmt::Display for Tally {
    fn fmt<W: fmt::Write>(&self, f: &mut fmt::Formatter<W>) -> fmt::Result {
        let Tally { cases, differ } = self;
        write!(f, "{cases} cases, {differ} differ")
    }
}

#[derive(Clone, Copy)]
pub(crate) struct Report {
    all: Tally,
    // of the group, once one has begun
    group: Option<Tally>,
    met: Met,
}

impl Report {
    pub(crate) fn new() -> Report {
        Report {
            all: Tally::default(),
            group: None,
            met: Met::new(),
        }
    }

    fn count(&mut self, same: bool) {
        self.all.count(same);
        if let Some(group) = &mut self.group {
            group.count(same);
        }
    }

    // The sums of the group that ends here.
    fn close(&self, rt: &impl Print) {
        if let Some(group) = self.group {
            let _ = println!(rt; "{group}");
        }
    }

    pub(crate) fn group(&mut self, rt: &impl Print, name: &[u8]) {
        self.close(rt);
        let _ = rt.write_all(name);
        let _ = print!(rt; ": ");
        self.group = Some(Tally::default());
    }

    fn differing(&mut self, rt: &impl Print, what: impl fmt::Display + Drop) {
        self.count(false);
        let number = self.group.unwrap_or(self.all).cases;
        let _ = print!(rt; "{what}in case {number}; ");
    }

    pub(crate) fn case(&mut self, rt: &impl Print, outcome: Outcome) {
        self.met.count(outcome.entry, outcome.came.number());
        if outcome.differences == Differences::default() {
            self.count(true);
        } else {
            self.differing(rt, outcome.differences);
        }
    }

    // It counts as a case that differs.
    pub(crate) fn not_understood(&mut self, rt: &impl Print) {
        self.differing(rt, "a record is not understood, ");
    }

    pub(crate) fn end(&self, rt: &impl Print) {
        self.close(rt);
        let _ = println!(rt; "{}{}", self.met, self.all);
    }
}
