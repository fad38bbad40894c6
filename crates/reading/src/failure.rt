// A read or a write that failed, as the programs tell it.
use std::fmt::{self, Display, Formatter, Write};
use std::io;

// What has failed, and why. It is told with the system's words, and without the number that std puts behind them.
#[derive(Clone, Copy)]
pub struct Failure<'a> {
    pub what: &'a str,
    pub error: io::Error,
}

impl Display for Failure<'_> {
    fn fmt<W: Write>(&self, f: &mut Formatter<W>) -> fmt::Result {
        write!(f, "{}: ", self.what)?;
        write!(UpToNumber { to: f, over: false }, "{}", self.error)
    }
}

// Hands on what is written before that number.
#[derive(Drop)]
struct UpToNumber<'a, W> {
    to: &'a mut Formatter<W>,
    over: bool,
}

impl<W: Write> Write for UpToNumber<'_, W> {
    fn write_str(&mut self, s: &str) -> fmt::Result {
        if self.over {
            return Ok(());
        }
        match s.split_once(" (os error ") {
            Some((words, _)) => {
                self.over = true;
                self.to.write_str(words)
            }
            None => self.to.write_str(s),
        }
    }
}
