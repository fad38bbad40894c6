// Makes a fixed list of calls through the library, and compares what each answers and leaves in the lent memory
// with what stands in the list, bit by bit. It prints the name of each group of cases, how many there are and how
// many differ; how often each entry was accepted, and refused with each number; and the sums. Of a case that
// differs it says what does.
//
// The list is its input, the file stdin beside src/. The Rust crate and document 01 have made it, never this
// program: `oracle/run replay` draws the cases and answers them again and compares, `oracle/run replay --write`
// stores the list and the file stdout. oracle/README.md says what is in it.
//
// The list is made of records. A record is a head of eight bytes and some words of eight, the lowest byte first.
// The head's first byte is the record's kind, the second a small number s, the next two the number of words.
//   g  a group begins; its name is the first s bytes that follow
//   n  the words are the patterns of numbers, which are put into slot s: 0 for a matrix, 1 for T, 2 for Q, 3 and 4
//      for eigenvalues, 3 for a root, 5 for what lent memory is filled with. They stay there
//   c  a case: 18 words
//        entry: 1 decomposition with Q, 2 decomposition without Q, 3 real reader, 4 complex reader, 5 plain entry,
//          6 root
//        the slot with what it is given, and how many numbers of it; order, pattern of the tolerance, budget
//        the lengths of the three slices that are lent: T, Q and workspace; eigenvalues; real parts and imaginary
//          parts; eigenvalues and workspace; a root
//        the answer: a refusal's number, row and column; or 0, the passes of a decomposition and 0; or three zeros
//          where another entry gave its values
//        what is left in each of the three: 0 what they held before, 1 NaN, 2 +0, 3 and on the numbers of slot 0
//          and on
//        the place of slot 5 from which each of the three is filled before the call; behind its last place comes
//          its first again
#![tactic(auto)]

mod answer;
mod case;
mod list;
mod met;
mod report;
mod slots;

fn main(rt: HostRuntime) {
    list::replay(&rt, &mut rt.stdin());
}
