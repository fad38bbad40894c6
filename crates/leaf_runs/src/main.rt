// Runs each function of `matrix`, `givens`, `reflection` and `householder` on numbers that are drawn by rule: the calls
// that its input lists, the file stdin beside src/, which says what their numbers mean. It prints each call again with
// the numbers that it answers or leaves, by their bits, every NaN as 7ff8000000000000. A line that it does not
// understand it prints with these words and the line's number.
// The file stdout is made from the same calls by the functions of oracle/src/model.rs, and by plain Rust after
// docs/SUMS.md where that has none, never by this program: `oracle/run leaves` makes it again and compares,
// `oracle/run leaves --write` stores it.
#![tactic(auto)]

ghost use Rattle.std.specs.Prelude.{◌≤◌, length};

mod calls;
mod draw;
mod say;
mod vectors;

use std::io::Read;

// A text has fewer bytes. Its room lies on the stack: the program asks for no memory, which it might not get.
const ROOM: usize = 65536;

// A line's name ends where a number begins behind a space: there are spaces in names too.
fn call(rt: &impl Print, line: &[u8]) -> Option<()> {
    let end = line
        .windows(2)
        .position(|pair| matches!(pair, [b' ', b'0'..=b'9']))?;
    let text = str::from_utf8(line).ok()?;
    let (name, given) = (text.get(..end)?, text.get(end..)?);
    calls::run(rt, name, given.strip_prefix(' ')?)
}

// Blank lines and lines that begin with # are left out.
fn tell(rt: &impl Print, number: usize, line: &[u8]) {
    if line.is_empty() || line.starts_with(b"#") {
        return;
    }
    let _ = rt.write_all(line);
    if call(rt, line).is_none() {
        let _ = print!(rt; " not understood, line {number}");
    }
    let _ = println!(rt);
}

// How much of the room the text fills. A read that fails ends it, and so does one that brings nothing; a short one does
// not. `reading::fill` keeps no count where a read fails.
fn fill(source: &mut impl Read, room: &mut [u8]) -> usize
    ensures { result ≤ length room.new }
{
    let mut done = 0;
    for _ in 0..room.len() {
        match source.read(&mut room[done..]) {
            Ok(n) if n > 0 => done += n,
            _ => break,
        }
    }
    done
}

// A write that fails is passed over.
fn main(rt: HostRuntime) {
    let mut room = [0; ROOM];
    let len = fill(&mut rt.stdin(), &mut room);
    for (number, line) in (1..).zip(room[..len].split(|byte| *byte == b'\n')) {
        tell(&rt, number, line);
    }
    if len == ROOM {
        let _ = println!(rt; "not understood: more text than there is room for");
    }
}
