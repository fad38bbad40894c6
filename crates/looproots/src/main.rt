// Reads one record from standard input and prints its text (document 01, "The program"): T, Q and the eigenvalues of
// the matrix, or why it is refused. What is printed for which bytes is said by `text_of`
// (crates/record/specs/Answer.antt). A read or a write that fails is told on standard error, with the system's words,
// and the exit status is 0 all the same; it is 1 only where standard error takes nothing either.
#![tactic(auto)]

use reading::Failure;
use std::io;
use std::io::Write;

fn answer(rt: &HostRuntime) -> Result<(), Failure<'static>> {
    let mut input = record::room();
    let k = reading::fill(&mut rt.stdin(), &mut input).map_err(|error| Failure {
        what: "looproots: standard input was not read",
        error,
    })?;
    let mut text = [0; 65536];
    let n = record::answer(&input[..k], &mut text);
    rt.stdout().write_all(&text[..n]).map_err(|error| Failure {
        what: "looproots: standard output was not written",
        error,
    })
}

fn main(rt: HostRuntime) -> io::Result<()> {
    match answer(&rt) {
        Ok(()) => Ok(()),
        Err(failure) => eprintln!(rt; "{failure}"),
    }
}
