// Places in a text: of its lines, and of its characters.
#![tactic(auto)]

ghost use Rattle.std.specs.Prelude.{◌≡◌, ◌≤◌, length};
ghost use Rattle.scan.specs.Runs.{first_not};
ghost use Rattle.line_places.specs.Lines.{is_break, is_in_line, goes_on, line_start, break_count, line_from, trimmed, shown_place};

use scan::first_not;

// What ends a line: LF or CR.
fn is_break(b: u8) -> bool
    ensures { result ≡ is_break b }
{
    (b == b'\n') | (b == b'\r')
}

// Whether a character goes on with the byte, and doesn't begin with it.
fn goes_on(b: u8) -> bool
    ensures { result ≡ goes_on b }
{
    (0x80 <= b) & (b < 0xC0)
}

// Where the last line of `text` begins.
pub fn line_start(text: &[u8]) -> usize
    ensures value { result ≡ line_start text.now (length text.now) }
    ensures upper_bound { result ≤ length text.now }
{
    for i in (0..text.len()).rev() {
        if is_break(text[i]) {
            return i + 1;
        }
    }
    0
}

// Where the line that `place` stands in ends.
pub fn line_end(text: &[u8], place: usize) -> usize
    ensures value { result ≡ first_not is_in_line text.now place }
    ensures upper_bound { result ≤ length text.now }
{
    first_not(text, place, |b| !is_break(b))
}

// Where the first character from `place` on begins.
pub fn next_begin(text: &[u8], place: usize) -> usize
    ensures value { result ≡ first_not goes_on text.now place }
    ensures upper_bound { result ≤ length text.now }
{
    first_not(text, place, goes_on)
}

// How many line ends a byte is: one or none.
fn breaks(b: u8) -> usize
    ensures value { result ≡ break_count b }
    ensures upper_bound { result ≤ 1 }
{
    if is_break(b) { 1 } else { 0 }
}

// Where the line with the index `number` begins, or the end.
pub fn line_at(text: &[u8], number: usize) -> usize
    ensures value { result ≡ line_from text.now number }
    ensures upper_bound { result ≤ length text.now }
{
    let mut left = number;
    for (i, b) in text.iter().enumerate() {
        if left == 0 {
            return i;
        }
        left -= breaks(*b);
    }
    text.len()
}

// Where `text` ends without the line ends behind it.
fn trimmed_end(text: &[u8]) -> usize
    ensures value { result ≡ trimmed text.now (length text.now) }
    ensures upper_bound { result ≤ length text.now }
{
    for i in (0..text.len()).rev() {
        if !is_break(text[i]) {
            return i + 1;
        }
    }
    0
}

// The place that is shown: that of the text's end is behind its last line, as a line end there begins no line.
pub fn shown_place(text: &[u8], place: usize) -> usize
    ensures value { result ≡ shown_place text.now place }
    ensures upper_bound { result ≤ length text.now }
{
    if place < text.len() {
        place
    } else {
        trimmed_end(text)
    }
}
