// Well-formed UTF-8, by the Unicode Standard's table 3-7.
#![tactic(auto)]

ghost use Rattle.std.specs.Prelude.{◌≡◌, ◌+◌, ◌≤◌, ◌<◌, length};
ghost use Rattle.std.specs.List.{list_all, take_while};
ghost use Rattle.scan.specs.Front.{rest, begins};
ghost use Rattle.utf8.specs.Utf8.{holds, ◌‥◌, char_width, first_ill};
ghost use Rattle.utf8.specs.Leads.{is_ascii, width_of, second_of};

// Bytes below this one are characters by themselves.
const ASCII_END: u8 = 0x80;

// The range of a byte that goes on with a character, but for the second byte after some first ones.
const TAIL_LOW: u8 = 0x80;

const TAIL_HIGH: u8 = 0xBF;

// How many bytes a character has whose first byte is `b`, or 0 where none has.
fn width_of(b: u8) -> usize
    ensures { result ≡ width_of b }
{
    match b {
        0x00..=0x7F => 1,
        0xC2..=0xDF => 2,
        0xE0..=0xEF => 3,
        0xF0..=0xF4 => 4,
        _ => 0,
    }
}

// The least second byte after `b`: a lesser one would make a form longer than its character needs.
fn second_low(b: u8) -> u8
    ensures { result ≡ (second_of b).low }
{
    match b {
        0xE0 => 0xA0,
        0xF0 => 0x90,
        _ => TAIL_LOW,
    }
}

// The greatest second byte after `b`: a greater one would make a surrogate (after ED), or go past U+10FFFF (after F4).
fn second_high(b: u8) -> u8
    ensures { result ≡ (second_of b).high }
{
    match b {
        0xED => 0x9F,
        0xF4 => 0x8F,
        _ => TAIL_HIGH,
    }
}

// Whether a byte from `low` to `high` stands at `i`.
fn byte_in(text: &[u8], i: usize, low: u8, high: u8) -> bool
    ensures { result ≡ begins (holds (low ‥ high)) (rest text.now i) }
{
    if text.len() <= i {
        return false;
    }
    let b = text[i];
    (low <= b) & (b <= high)
}

// How many bytes the character at `i` has, or 0 where no whole character starts.
fn width_at(text: &[u8], i: usize) -> usize
    requires { i < length text.now }
    ensures { result ≡ char_width (rest text.now i) }
{
    let first = text[i];
    let width = width_of(first);
    let mut low = second_low(first);
    let mut high = second_high(first);
    for have in 1..width {
        if !byte_in(text, i + have, low, high) {
            return 0;
        }
        low = TAIL_LOW;
        high = TAIL_HIGH;
    }
    width
}

// How many bytes are tested for ASCII at once.
const CHUNK: usize = 64;

// Whether all bytes are ASCII: then the greatest of them is. No byte ends the fold, so that many can be taken at once.
fn all_ascii(chunk: &[u8; CHUNK]) -> bool
    ensures { result ≡ list_all is_ascii chunk.now }
{
    chunk.iter().fold(0, |most, b| most.max(*b)) < ASCII_END
}

// How many chunks at the front are all ASCII.
fn ascii_chunks(chunks: &[[u8; CHUNK]]) -> usize
    ensures { result ≡ length (take_while (λ chunk. list_all is_ascii chunk) chunks.now) }
{
    chunks.iter().take_while(|chunk| all_ascii(*chunk)).count()
}

// Where the chunks at the front that are all ASCII end. Past them bytes are looked at one by one: in a text with many wide characters
// chunks would be tried in vain.
fn ascii_front(text: &[u8]) -> usize
    ensures { (result ≤ length text.now) × (result + first_ill (rest text.now result) ≡ first_ill text.now) }
{
    let (chunks, _) = text.as_chunks::<CHUNK>();
    ascii_chunks(chunks) * CHUNK
}

// The first place where no whole character starts, or the end.
// Kept (3): a turn goes on by the width that it reads in the text, which no range counts. std's `from_utf8` would leave `must-fail/surrogate` no table to turn.
pub fn first_ill_formed(text: &[u8]) -> usize
    ensures { result ≡ first_ill text.now }
{
    let mut i = ascii_front(text);
    while i < text.len() {
        if text[i] < ASCII_END {
            i += 1;
        } else {
            let width = width_at(text, i);
            if width == 0 {
                return i;
            }
            i += width;
        }
    }
    i
}
