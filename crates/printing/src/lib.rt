// Standard output, written through bytes that the caller lends and of which the first ones are full. The contracts say
// what stands in them: what reaches standard output is outside of the language.
#![tactic(auto)]

ghost use Rattle.std.specs.Prelude.{◌≡◌, [], ◌∷◌};
ghost use Rattle.printing.specs.Printing.{buffer, held, put_anew, Prints, decimal, spaced};

use pen::Pen;

// What a system has always open, by number: standard input, standard output and standard error.
pub const STDIN_FILENO: i32 = 0;

pub const STDOUT_FILENO: i32 = 1;

pub const STDERR_FILENO: i32 = 2;

// The most digits that a u64 has.
const MAX_DIGITS: usize = 20;

// Lent bytes, of which the first `at` are full: what is on its way to standard output.
#[derive(Drop)]
pub struct Out<'a> {
    pub bytes: &'a mut [u8],
    pub at: usize,
}

// Writes out the full bytes of a text that is lent: the first `at`, or all where it has fewer.
pub fn flush(text: &[u8], at: usize) {
    let full = at.min(text.len());
    io::write_all(STDOUT_FILENO, &text[0..full]);
}

impl<'a> Out<'a> {
    // Nothing of the bytes is full.
    pub fn new(bytes: &'a mut [u8]) -> Out<'a>
        ensures same_bytes { result.bytes.ghost_name ≡ bytes.entry.ghost_name }
        ensures holds { held result ≡ buffer bytes.old 0 }
    {
        Out { bytes, at: 0 }
    }

    // Writes out what the buffer holds.
    pub fn flush(&self) {
        flush(self.bytes, self.at);
    }

    // Puts a text that has no room behind what the buffer holds: that is written out, and the text put at the start; where it has no room even there, it is
    // written out too. It stands apart so that `put` is short enough to become a part of who calls it.
    #[inline(never)]
    fn put_anew(&mut self, text: &[u8])
        ensures same_bytes { self.new.bytes.ghost_name ≡ self.old.bytes.ghost_name }
        ensures holds { held self.new ≡ put_anew text.now (held self.old) }
    {
        self.flush();
        let first = pen::put(self.bytes, Pen { at: 0, full: false }, text);
        if first.full {
            io::write_all(STDOUT_FILENO, text);
            self.at = 0;
        } else {
            self.at = first.at;
        }
    }

    // Puts a text behind what the buffer holds, which is written out first where there is no room.
    pub fn put(&mut self, text: &[u8])
        ensures { Prints (text.now ∷ []) self.old self.new }
    {
        let full = self.at.min(self.bytes.len());
        let behind = pen::put(
            self.bytes,
            Pen {
                at: full,
                full: false,
            },
            text,
        );
        if behind.full {
            self.put_anew(text);
        } else {
            self.at = behind.at;
        }
    }

    // Puts a number's decimal digits.
    pub fn put_number(&mut self, number: usize)
        ensures { Prints (decimal number ∷ []) self.old self.new }
    {
        let mut digits = [0u8; MAX_DIGITS];
        let count = io::decimal(number as u64, &mut digits);
        self.put(&digits[..count]);
    }

    // Puts a space, and then a number.
    pub fn put_spaced(&mut self, number: usize)
        ensures { Prints (spaced number) self.old self.new }
    {
        self.put(b" ");
        self.put_number(number);
    }
}
