// How often each entry gave each number.
use calls::Entry;
use std::fmt;

// Of one entry: the first for what it accepted.
#[derive(Clone, Copy)]
struct Line {
    name: &'static str,
    times: [u64; 16],
}

impl Line {
    fn of(name: &'static str) -> Line {
        Line {
            name,
            times: [0; 16],
        }
    }
}

impl fmt::Display for Line {
    fn fmt<W: fmt::Write>(&self, f: &mut fmt::Formatter<W>) -> fmt::Result {
        let Line { name, times } = self;
        let accepted = times[0];
        write!(f, "{name}: {accepted} accepted")?;
        for (number, times) in times.iter().enumerate().skip(1) {
            if *times != 0 {
                write!(f, ", {times} refused {number}")?;
            }
        }
        Ok(())
    }
}

// In the order of `Entry`.
#[derive(Clone, Copy)]
pub(crate) struct Met([Line; 6]);

impl Met {
    pub(crate) fn new() -> Met {
        Met([
            Line::of("decomposition with Q"),
            Line::of("decomposition without Q"),
            Line::of("real reader"),
            Line::of("complex reader"),
            Line::of("plain entry"),
            Line::of("root"),
        ])
    }

    pub(crate) fn count(&mut self, entry: Entry, number: u64) {
        let times = &mut self.0[entry as usize].times[(number % 16) as usize];
        *times = times.saturating_add(1);
    }
}

impl fmt::Display for Met {
    fn fmt<W: fmt::Write>(&self, f: &mut fmt::Formatter<W>) -> fmt::Result {
        for line in &self.0 {
            writeln!(f, "{line}")?;
        }
        Ok(())
    }
}
