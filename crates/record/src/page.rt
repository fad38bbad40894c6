// Text put on a page.
ghost use Rattle.std.specs.Prelude.{◌≡◌, [], ◌∷◌, ◌+◌, length};
ghost use Rattle.record.specs.Text.{decimal, hexadecimal};
ghost use Rattle.record.specs.Page.{page};
ghost use Rattle.record.specs.Lent.{on, HasRoom, Puts};

// A lent slice of bytes with text at its front. Each method puts more behind it.
#[derive(Drop)]
pub(crate) struct Page<'a> {
    text: &'a mut [u8],
    // the place behind the text
    at: usize,
}

impl<'a> Page<'a> {
    pub(crate) fn new(text: &'a mut [u8]) -> Page<'a>
        ensures same_slice { result.text.ghost_name ≡ text.entry.ghost_name }
        ensures empty { on result ≡ page 0 text.old }
    {
        Page { text, at: 0 }
    }

    // How long the text is.
    pub(crate) fn len(&self) -> usize
        ensures { result ≡ self.now.at }
    {
        self.at
    }

    pub(crate) fn byte(&mut self, b: u8)
        requires { HasRoom 1 self.old }
        ensures { Puts (b ∷ []) 1 self.old self.new }
    {
        self.text[self.at] = b;
        self.at += 1;
    }

    pub(crate) fn bytes(&mut self, s: &[u8])
        requires { HasRoom (length s.now) self.old }
        ensures { Puts s.now (length s.now) self.old self.new }
    {
        let end = self.at + s.len();
        self.text[self.at..end].copy_from_slice(s);
        self.at = end;
    }

    // By the digits of `io`, which its contract tells; std's formatting promises none.
    pub(crate) fn decimal(&mut self, n: u64)
        requires { HasRoom (length (decimal n)) self.old }
        ensures { Puts (decimal n) (length (decimal n)) self.old self.new }
    {
        let mut digits = [0u8; 20];
        let k = io::decimal(n, &mut digits);
        self.bytes(&digits[..k]);
    }

    pub(crate) fn hexadecimal(&mut self, w: u64)
        requires { HasRoom 16 self.old }
        ensures { Puts (hexadecimal w) 16 self.old self.new }
    {
        let mut digits = [0u8; 16];
        let k = io::hex(w, 16, &mut digits);
        self.bytes(&digits[..k]);
    }
}
