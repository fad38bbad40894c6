// An answer as the list has it.
use calls::Answer;
use refusal::Told;
use std::fmt;

// A refusal's number, row and column; 0, the passes and 0; or, where values were given, zeros.
#[derive(Clone, Copy, PartialEq, Eq)]
pub(crate) struct Stored(pub(crate) [u64; 3]);

impl From<Answer> for Stored {
    fn from(a: Answer) -> Stored {
        Stored(match a {
            Ok(passes) => [0, passes.unwrap_or(0), 0],
            Err(r) => {
                let Told { number, row, col } = Told::from(r);
                [number, row as u64, col as u64]
            }
        })
    }
}

impl Stored {
    // 0 where it is no refusal.
    pub(crate) fn number(self) -> u64 {
        let Stored([number, ..]) = self;
        number
    }
}

impl fmt::Display for Stored {
    fn fmt<W: fmt::Write>(&self, f: &mut fmt::Formatter<W>) -> fmt::Result {
        let Stored([first, second, third]) = self;
        write!(f, "{first} {second} {third}")
    }
}
