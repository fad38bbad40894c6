// The program `looproots` on more inputs than one: each file of data/ that an argument names is read and answered as
// the program does it, with the file's name before its text. The files, their names in `args` and what must be
// printed for them, `stdout`, come from the Rust crate and from document 01, never from this program:
// `oracle/run records` makes them again and compares, `oracle/run records --write` stores them.
#![tactic(auto)]

use reading::Failure;
use std::fs::File;
use std::io::Write;
use std::{env, io};

// Tells what has failed, and goes on.
fn tell(rt: &HostRuntime, what: &str, error: io::Error) -> io::Result<()> {
    eprintln!(rt; "{}", Failure { what, error })
}

fn say(rt: &HostRuntime, text: &[u8]) -> io::Result<()> {
    match rt.stdout().write_all(text) {
        Ok(()) => Ok(()),
        Err(e) => tell(rt, "looproots_runs: standard output was not written", e),
    }
}

// The text of a record. Its room is cleared as this function begins: in `answer` it was cleared twice, before the
// reads and behind them.
fn print(rt: &HostRuntime, input: &[u8]) -> io::Result<()> {
    let mut text = [0; 65536];
    let n = record::answer(input, &mut text);
    say(rt, &text[..n])
}

// The text of the record that a file holds.
fn answer(rt: &HostRuntime, file: &mut File) -> io::Result<()> {
    let mut input = record::room();
    match reading::fill(file, &mut input) {
        Ok(k) => print(rt, &input[..k]),
        Err(e) => tell(rt, "looproots_runs: a file was not read", e),
    }
}

fn file(rt: &HostRuntime, name: &str) -> io::Result<()> {
    say(rt, name.as_bytes())?;
    say(rt, b":\n")?;
    match File::open(rt, name) {
        Ok(mut file) => answer(rt, &mut file),
        Err(e) => tell(rt, name, e),
    }
}

fn main(rt: HostRuntime) -> io::Result<()> {
    for name in env::args(&rt)?.skip(1) {
        file(&rt, &name)?;
    }
    Ok(())
}
