// The text for a record: the header is checked, the matrix decomposed, T, Q and the eigenvalues are written out.
ghost use Rattle.std.specs.Prelude.{◌≡◌, ◌+◌, ◌≤◌, length, replicate};
ghost use Rattle.io.specs.Counts.{IsPrefixLen};
ghost use Rattle.pass.specs.Pair.{pair};
ghost use Rattle.words.specs.Floats.{floats_of};
ghost use Rattle.decomposition.specs.Decomposition.{outcome};
ghost use Rattle.record.specs.Page.{page, printed};
ghost use Rattle.record.specs.Lent.{HasRoom, Puts, EigenvaluesLent, PairLent, RoomsLent, RecordLent};
ghost use Rattle.record.specs.Answer.{eigenvalues_text, read_text, decomposed_text, decomposed, matrix_text, text_of};

use crate::page::Page;
use header::Header;
use pass::Setting;
use refusal::Refusal;

// The entries become floats in t, and the matrix is decomposed there.
fn decompose(
    entries: &[u8],
    h: Header,
    t: &mut [f64],
    q: &mut [f64],
    work: &mut [f64],
) -> Result<u64, Refusal>
    requires { RoomsLent h.order entries.now t.old q.old work.old }
    ensures { outcome result (pair t.new q.new) work.new
        ≡ decomposed h (floats_of entries.now) }
{
    words::decode(entries, t);
    let asked = Setting {
        order: h.order,
        wanted: true,
        tolerance: scalar::of_bits(h.tolerance),
    };
    decomposition::try_new_in_place(t, q, asked, h.budget, work)
}

impl Page<'_> {
    // What the complex reader has answered.
    fn answer(&mut self, n: usize, checked: Result<(), Refusal>, re: &[f64], im: &[f64])
        requires { EigenvaluesLent n 1331 self.old re.now im.now }
        ensures { Puts (eigenvalues_text n checked re.now im.now) 1331 self.old self.new }
    {
        match checked {
            Ok(()) => self.eigenvalues(n, re, im),
            Err(r) => self.not_read(r),
        }
    }

    // The eigenvalues of T. Their lists begin as zeros, with room for order 32: what is needed is cut off.
    fn read(&mut self, n: usize, t: &[f64])
        requires { HasRoom 1331 self.old × (n ≤ 32) }
        ensures { Puts (read_text n t.now) 1331 self.old self.new }
    {
        let mut re_room = [0.0f64; 32];
        let mut im_room = [0.0f64; 32];
        let re = &mut re_room[..n];
        let im = &mut im_room[..n];
        let checked = eigenvalues::complex_eigenvalues(t, n, re, im);
        self.answer(n, checked, re, im);
    }

    // An accepted decomposition.
    fn accepted(&mut self, n: usize, passes: u64, t: &[f64], q: &[f64])
        requires { PairLent n self.old (pair t.now q.now) }
        ensures { Puts (decomposed_text n (Ok passes) (pair t.now q.now)) 65536 self.old self.new }
    {
        self.passes(n, passes);
        self.matrix(b't', n, t);
        self.matrix(b'q', n, q);
        self.read(n, t);
    }

    // What the decomposition has answered, and left as T and Q.
    fn decomposed(&mut self, n: usize, answer: Result<u64, Refusal>, t: &[f64], q: &[f64])
        requires { PairLent n self.old (pair t.now q.now) }
        ensures { Puts (decomposed_text n answer (pair t.now q.now)) 65536 self.old self.new }
    {
        match answer {
            Ok(passes) => self.accepted(n, passes, t, q),
            Err(r) => self.refused(r),
        }
    }

    // A record without fault. T, Q and the workspace too begin as zeros, with room for order 32.
    fn passed(&mut self, h: Header, entries: &[u8])
        requires { RecordLent h.order self.old entries.now }
        ensures { Puts (matrix_text h (floats_of entries.now)) 65536 self.old self.new }
    {
        let n = h.order;
        let k = n * n;
        let mut t_room = [0.0f64; 1024];
        let mut q_room = [0.0f64; 1024];
        let mut work_room = [0.0f64; 64];
        let t = &mut t_room[..k];
        let q = &mut q_room[..k];
        let work = &mut work_room[..2 * n];
        let answer = decompose(entries, h, t, q, work);
        self.decomposed(n, answer, t, q);
    }

    fn input(&mut self, input: &[u8])
        requires { HasRoom 65536 self.old }
        ensures { Puts (text_of input.now) 65536 self.old self.new }
    {
        match header::examine(input) {
            Err(r) => self.refused(r),
            Ok(h) => self.passed(h, &input[20..]),
        }
    }
}

// Room for an input: one byte more than the longest record, so that a longer input is seen to be longer. Rooms are
// fixed, here and for the text: to read and answer a record takes no heap.
pub fn room() -> [u8; 8213]
    ensures zeros { result ≡ replicate 8213 0 }
    ensures size { 8213 ≡ length result }
{
    [0; 8213]
}

// The text for an input, whatever its bytes are, at the front of `text`; its length is answered. A no-op that answers 0
// unless at least 65,536 bytes are lent for it.
pub fn answer(input: &[u8], text: &mut [u8]) -> usize
    ensures text_after { page result text.new ≡ printed (text_of input.now) text.old }
    ensures prefix_len { IsPrefixLen result text.new }
{
    if text.len() < 65536 {
        return 0;
    }
    let mut page = Page::new(text);
    page.input(input);
    page.len()
}
