// Canonical text that is put in one go: a number, the comma before a child, and a node's name with its dimension.
#![tactic(auto)]

ghost use Rattle.std.specs.Prelude.{◌≡◌, ◌≤◌, length as size, take};
ghost use Rattle.scan.specs.Front.{begins};
ghost use Rattle.canonical_text.specs.Canonical.{needs_plus};
ghost use Rattle.shape.specs.Numbers.{text_at};
ghost use Rattle.pen.specs.Pen.{Puts};
ghost use Rattle.pieces.specs.Pieces.{PutsEach, number_pieces, name_pieces, dimension_pieces, comma_pieces, head_pieces};

use kinds::{DIM_XY, KIND_POINT};
use names::{ENDING_COUNT, ENDING_LENGTHS, ENDINGS, NAME_COUNT, NAME_LENGTHS, NAMES};
use nodes::Visit;
use pen::Pen;

// Whether a number's text begins with `+` or a letter: read without one more `+`, it would lose the one or be a word.
fn needs_plus(w: &[u8]) -> bool
    ensures { result ≡ begins needs_plus w.now }
{
    match w.first() {
        Some(b) => (*b == b'+') | b.is_ascii_alphabetic(),
        None => false,
    }
}

// A number, after the byte `lead`.
pub fn put_number(out: &mut [u8], p: Pen, lead: u8, text: &[u8], numbers: &[u32], i: usize) -> Pen
    ensures { PutsEach (number_pieces lead (text_at text.now numbers.now i)) p out.old result out.new }
{
    let w = shape::number_text(text, numbers, i);
    if needs_plus(w) {
        let q = pen::put_byte(out, p, lead);
        return pen::put_led(out, q, b'+', w);
    }
    pen::put_led(out, p, lead, w)
}

// The first `length` of some letters.
fn put_letters(out: &mut [u8], p: Pen, letters: &[u8], length: usize) -> Pen
    requires { length ≤ size letters.now }
    ensures { Puts (take length letters.now) p out.old result out.new }
{
    pen::put(out, p, &letters[0..length])
}

// The name in the table's row of a kind. At most one row is of that kind; the loop isn't left there, so that the compiler writes each name out by itself.
fn put_name(out: &mut [u8], p: Pen, kind: u32) -> Pen
    ensures { PutsEach (name_pieces kind) p out.old result out.new }
{
    let mut q = p;
    for row in 0..NAME_COUNT {
        if row as u32 + KIND_POINT == kind {
            q = put_letters(out, q, &NAMES[row], NAME_LENGTHS[row] as usize);
        }
    }
    q
}

// A blank and the ending, if the dimension has one: the table's first has no letters.
// Kept (2): one function for this and `put_name` would take the table, its lengths, the first row and the first row's number as parameters.
fn put_dimension(out: &mut [u8], p: Pen, dimension: u32) -> Pen
    ensures { PutsEach (dimension_pieces dimension) p out.old result out.new }
{
    if dimension == DIM_XY {
        return p;
    }
    let mut q = pen::put_byte(out, p, b' ');
    for row in 1..ENDING_COUNT {
        if row as u32 == dimension {
            q = put_letters(out, q, &ENDINGS[row], ENDING_LENGTHS[row] as usize);
        }
    }
    q
}

// The comma before every child but the first.
pub fn put_comma(out: &mut [u8], p: Pen, v: Visit) -> Pen
    ensures { PutsEach (comma_pieces v) p out.old result out.new }
{
    if v.parent.next == 0 {
        return p;
    }
    pen::put_byte(out, p, b',')
}

// The name and the dimension of a node at the root or in a collection, and the blank before its EMPTY.
pub fn put_head(out: &mut [u8], p: Pen, v: Visit) -> Pen
    ensures { PutsEach (head_pieces v) p out.old result out.new }
{
    if !nodes::is_free(v.parent.kind) {
        return p;
    }
    let name = put_name(out, p, v.kind);
    let head = put_dimension(out, name, v.dimension);
    if v.parts == 0 {
        return pen::put_byte(out, head, b' ');
    }
    head
}
