// The lines of the text.
ghost use Rattle.std.specs.Prelude.{◌++◌, ◌+◌, ◌*◌, ◌<◌, ◌≤◌, length};
ghost use Rattle.std.specs.Float.{binary64};
ghost use Rattle.std.specs.Float.Ieee.{to_bits};
ghost use Rattle.refusal.specs.Refusal.{told_of};
ghost use Rattle.record.specs.Text.{decimal, ascii, number, pattern, refused_line, passes_line, entry_line};
ghost use Rattle.record.specs.Text.{eigenvalue_line, matrix_lines, eigenvalue_lines};
ghost use Rattle.record.specs.Lent.{HasRoom, Puts, MatrixLent, EigenvaluesLent};

use crate::page::Page;
use refusal::{Refusal, Told};

impl Page<'_> {
    // A space and a number; any of 64 bits has 20 digits at most.
    fn number(&mut self, n: u64)
        requires { HasRoom (1 + length (decimal n)) self.old }
        ensures { Puts (number n) (1 + length (decimal n)) self.old self.new }
    {
        self.byte(b' ');
        self.decimal(n);
    }

    // A space and a float's pattern.
    fn pattern(&mut self, x: f64)
        requires { HasRoom 17 self.old }
        ensures { Puts (pattern (to_bits binary64 x)) 17 self.old self.new }
    {
        self.byte(b' ');
        self.hexadecimal(scalar::bits_of(x));
    }

    #[tactic(auto, using(crate::proofs::Digits::decimal_64))]
    pub(crate) fn refused(&mut self, r: Refusal)
        requires { HasRoom 71 self.old }
        ensures { Puts (refused_line (told_of r)) 71 self.old self.new }
    {
        let told = Told::from(r);
        self.bytes(b"refused");
        self.number(told.number);
        self.number(told.row as u64);
        self.number(told.col as u64);
        self.byte(b'\n');
    }

    #[tactic(auto, using(crate::proofs::Digits::decimal_64))]
    pub(crate) fn passes(&mut self, n: usize, passes: u64)
        requires { HasRoom 55 self.old }
        ensures { Puts (passes_line n passes) 55 self.old self.new }
    {
        self.bytes(b"order");
        self.number(n as u64);
        self.bytes(b" passes");
        self.number(passes);
        self.byte(b'\n');
    }

    #[tactic(auto, using(crate::proofs::Digits::decimal_32))]
    fn entry(&mut self, letter: u8, row: usize, col: usize, x: f64)
        requires { HasRoom 25 self.old × (row < 32) × (col < 32) }
        ensures { Puts (entry_line letter row col (to_bits binary64 x)) 25 self.old self.new }
    {
        self.byte(letter);
        self.number(row as u64);
        self.number(col as u64);
        self.pattern(x);
        self.byte(b'\n');
    }

    // Column by column: at most 1024 lines of 25 bytes.
    pub(crate) fn matrix(&mut self, letter: u8, n: usize, a: &[f64])
        requires { MatrixLent n self.old a.now }
        ensures { Puts (matrix_lines letter n a.now) 25600 self.old self.new }
    {
        for (k, x) in a.iter().enumerate() {
            self.entry(letter, k % n, k / n, *x);
        }
    }

    #[tactic(auto, using(crate::proofs::Digits::decimal_32))]
    fn eigenvalue(&mut self, k: usize, re: f64, im: f64)
        requires { HasRoom 39 self.old × (k < 32) }
        ensures { Puts (eigenvalue_line k (to_bits binary64 re) (to_bits binary64 im)) 39 self.old self.new }
    {
        self.bytes(b"e");
        self.number(k as u64);
        self.pattern(re);
        self.pattern(im);
        self.byte(b'\n');
    }

    // Two lists by one place, which is printed too: `zip` and `enumerate` are no plainer.
    pub(crate) fn eigenvalues(&mut self, n: usize, re: &[f64], im: &[f64])
        requires { EigenvaluesLent n (39 * n) self.old re.now im.now }
        ensures { Puts (eigenvalue_lines n re.now im.now) (39 * n) self.old self.new }
    {
        for k in 0..n {
            self.eigenvalue(k, re[k], im[k]);
        }
    }

    pub(crate) fn not_read(&mut self, r: Refusal)
        requires { HasRoom 83 self.old }
        ensures { Puts (ascii "eigenvalues " ++ refused_line (told_of r)) 83 self.old self.new }
    {
        self.bytes(b"eigenvalues ");
        self.refused(r);
    }
}
