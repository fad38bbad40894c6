// A record of the program `looproots`: from its bytes to the bytes of the text that the program prints. The
// contract of `answer` gives that text, every refusal included.
#![tactic(auto)]

mod lines;
mod page;
mod text;

pub use text::{answer, room};
