// A line's characters, as they are shown on a terminal, and the blanks that stand under them.
ghost use Rattle.std.specs.Prelude.{◌≡◌, [], ◌∷◌};
ghost use Rattle.printing.specs.Printing.{Prints};
ghost use Rattle.explain.specs.Shown.{byte_at, is_wide, is_control, blank_under, shown_for, piece_of, pieces};

use line_places::next_begin;
use printing::Out;

// What is put for a character: a mark, a blank, a tab, U+3000, which is a blank over two columns, or the character
// itself.
#[derive(Drop)]
pub enum Shown {
    Mark,
    Blank,
    Tab,
    WideBlank,
    Itself,
}

fn byte_at(bytes: &[u8], i: usize) -> u8
    ensures { result ≡ byte_at bytes.now i }
{
    if i < bytes.len() { bytes[i] } else { 0 }
}

// Whether a terminal shows a character over two columns that begins with these bytes: East Asian text and pictures,
// which are U+1100 to U+113F, U+2E80 to U+A4FF, U+AC00 to U+D7FF, U+F900 to U+FAFF, U+FF00 to U+FF60 and U+1F000 to
// U+3FFFF.
fn is_wide(first: u8, second: u8, third: u8) -> bool
    ensures { result ≡ is_wide first second third }
{
    let early = ((first == 0xE1) & (second == 0x84)) | ((first == 0xE2) & (0xBA <= second));
    let most = (0xE3 <= first)
        & (first <= 0xED)
        & ((first != 0xEA) | (second <= 0x93) | (0xB0 <= second));
    let older = (first == 0xEF) & (0xA4 <= second) & (second <= 0xAB);
    let full = (first == 0xEF) & ((second == 0xBC) | ((second == 0xBD) & (third <= 0xA0)));
    early | most | older | full | ((first == 0xF0) & (0x9F <= second))
}

// Whether a terminal acts on the character instead of showing it: all controls but the tab, and U+0080 to U+009F.
fn is_control(first: u8, second: u8) -> bool
    ensures { result ≡ is_control first second }
{
    ((first < 0x20) & (first != b'\t')) | (first == 0x7F) | ((first == 0xC2) & (second < 0xA0))
}

fn blank_under(bytes: &[u8]) -> Shown
    ensures { result ≡ blank_under bytes.now }
{
    let first = byte_at(bytes, 0);
    if first == b'\t' {
        return Shown::Tab;
    }
    if is_wide(first, byte_at(bytes, 1), byte_at(bytes, 2)) {
        Shown::WideBlank
    } else {
        Shown::Blank
    }
}

// What is put for a character, or under it. Bytes that are no whole character are shown as a mark too.
fn shown_for(bytes: &[u8], under: bool) -> Shown
    ensures { result ≡ shown_for under bytes.now }
{
    if utf8::first_ill_formed(bytes) < bytes.len() {
        return if under { Shown::Blank } else { Shown::Mark };
    }
    if under {
        return blank_under(bytes);
    }
    if is_control(byte_at(bytes, 0), byte_at(bytes, 1)) {
        Shown::Mark
    } else {
        Shown::Itself
    }
}

fn put_one(out: &mut Out, bytes: &[u8], shown: Shown)
    ensures { Prints (piece_of shown bytes.now ∷ []) out.old out.new }
{
    match shown {
        Shown::Mark => out.put(b"?"),
        Shown::Blank => out.put(b" "),
        Shown::Tab => out.put(b"\t"),
        Shown::WideBlank => out.put(b"\xE3\x80\x80"),
        Shown::Itself => out.put(bytes),
    }
}

// The characters of a part of a line, or the blanks under them.
pub(crate) fn put_part(out: &mut Out, part: &[u8], under: bool)
    ensures { Prints (pieces under part.now) out.old out.new }
{
    // Kept (3): each turn goes on where its character ends, so there is no range to count.
    let mut i = 0;
    while i < part.len() {
        let next = next_begin(part, i + 1);
        let bytes = &part[i..next];
        put_one(out, bytes, shown_for(bytes, under));
        i = next;
    }
}
