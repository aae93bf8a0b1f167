// The names of the geometries, their endings, and the words that they make.
#![tactic(auto)]

ghost use Rattle.std.specs.Prelude.{◌≡◌, true, ◌+◌, ◌≤◌, length as size, take, get_or};
ghost use Rattle.lists.specs.Lists.{every};
ghost use Rattle.words.specs.Words.{starts_word};
ghost use Rattle.names.specs.Names.{endings, string_of, meaning, ending, is_empty_word, front, after_name};
ghost use Rattle.names.specs.Letters.{is_capital, letter_at, has_both, four_at};

use kinds::{DIM_XY, KIND_LINESTRING, KIND_POINT};

pub const NAME_COUNT: usize = 7;

const NAME_WIDTH: usize = 18;

pub const ENDING_COUNT: usize = 4;

const ENDING_WIDTH: usize = 2;

// ---- the table: 7 names × 4 endings + 1 extra word = 29 spellings
// Blanks fill a row up, and count nowhere. The lengths are bytes, so that the compiler takes the loops over the rows apart and no table is left to be read.

// The seven names, in the order of their kinds.
pub const NAMES: [[u8; NAME_WIDTH]; NAME_COUNT] = [
    *b"POINT             ",
    *b"LINESTRING        ",
    *b"POLYGON           ",
    *b"MULTIPOINT        ",
    *b"MULTILINESTRING   ",
    *b"MULTIPOLYGON      ",
    *b"GEOMETRYCOLLECTION",
];

// Kept (6): rows as structs, each a name and its length, take 47 instructions a byte where nested collections are read, in the place of 27 (docs/DECISIONS.md, "One table of names").
pub const NAME_LENGTHS: [u8; NAME_COUNT] = [5, 10, 7, 10, 15, 12, 18];

// The four endings, in the order of their dimensions: the first is none at all.
pub const ENDINGS: [[u8; ENDING_WIDTH]; ENDING_COUNT] = [*b"  ", *b"Z ", *b"M ", *b"ZM"];

pub const ENDING_LENGTHS: [u8; ENDING_COUNT] = [0, 1, 1, 2];

// The one extra word: it takes no ending, and means LINESTRING.
const LINEARRING: [u8; 10] = *b"LINEARRING";

// ---- what isn't a name

pub const EMPTY: [u8; 5] = *b"EMPTY";

// What a word that is a name means.
#[derive(Clone, Copy)]
pub enum Name {
    // A kind's name alone: a header may follow.
    Bare(u32),
    // A kind's name with a dimension's ending joined: no header follows.
    Joined(u32, u32),
}

// The name that a word begins with: its kind, and how many letters it has.
#[derive(Clone, Copy)]
pub struct Front {
    pub kind: u32,
    pub len: usize,
}

// ---- endings

// The letter at `i` in upper case, or the blank that the table has there.
fn letter_at(w: &[u8], i: usize) -> u8
    ensures { result ≡ letter_at w.now i }
{
    if i < w.len() {
        words::to_upper(w[i])
    } else {
        b' '
    }
}

// Whether these are a row's two letters.
fn has_both(letters: &[u8; ENDING_WIDTH], first: u8, second: u8) -> bool
    ensures { result ≡ has_both letters.now first second }
{
    (first == letters[0]) & (second == letters[1])
}

// The dimension of the ending that `w` is, where it is one of the four.
pub fn ending_of(w: &[u8]) -> Option<u32>
    ensures { result ≡ ending w.now }
{
    let first = letter_at(w, 0);
    let second = letter_at(w, 1);
    for row in 0..ENDING_COUNT {
        if w.len() == ENDING_LENGTHS[row] as usize {
            if has_both(&ENDINGS[row], first, second) {
                return Some(row as u32);
            }
        }
    }
    None
}

// Whether `w` begins with the ending of a dimension; that of a number which is none has no letters.
pub fn starts_with_ending(w: &[u8], dimension: u32) -> bool
    ensures { result ≡ starts_word w.now (string_of endings dimension) }
{
    let row = dimension as usize;
    if ENDING_COUNT <= row {
        return true;
    }
    let letters = &ENDINGS[row];
    let length = ENDING_LENGTHS[row] as usize;
    words::starts_with_word(w, &letters[0..length])
}

pub fn is_empty_word(w: &[u8]) -> bool
    ensures { result ≡ is_empty_word w.now }
{
    words::same_word(w, &EMPTY)
}

// ---- names

// All bits but the one that tells the case of an ASCII letter: for a byte, and for four.
const NO_CASE: u8 = 0xDF;

const NO_CASES: u32 = 0xDFDF_DFDF;

// The four bytes from `i` on as one number: the compiler loads them at once.
fn four_at(s: &[u8], i: usize) -> u32
    requires { i + 4 ≤ size s.now }
    ensures { result ≡ four_at s.now i }
{
    u32::from_le_bytes([s[i], s[i + 1], s[i + 2], s[i + 3]])
}

// Whether `w` begins with the first `length` letters, which are capital ones: four of them at a time.
fn has_letters(w: &[u8], letters: &[u8], length: usize) -> bool
    requires { (length ≤ size letters.now) × (every is_capital (take length letters.now) ≡ true) }
    ensures { result ≡ starts_word w.now (take length letters.now) }
{
    if w.len() < length {
        return false;
    }
    // Kept (3): `for four in 0..length / 4`, at `4 * four`, takes 7 % more instructions in `infer_type` of `POINT(1 2)`, and 3 % more where nested collections are read.
    let mut i = 0;
    while 4 <= length - i {
        if four_at(w, i) & NO_CASES != four_at(letters, i) {
            return false;
        }
        i += 4;
    }
    for place in i..length {
        if w[place] & NO_CASE != letters[place] {
            return false;
        }
    }
    true
}

// A row's first letter.
fn first_of(letters: &[u8; NAME_WIDTH]) -> u8
    ensures { result ≡ get_or letters.now 0 0 }
{
    letters[0]
}

// The name that `w` begins with, if any. No name begins with another. First letter and length are told before the other letters are compared.
pub fn front_of(w: &[u8]) -> Option<Front>
    ensures { result ≡ front w.now }
{
    if w.len() == 0 {
        return None;
    }
    let first = w[0] & NO_CASE;
    for row in 0..NAME_COUNT {
        let letters = &NAMES[row];
        if first_of(letters) == first {
            let length = NAME_LENGTHS[row] as usize;
            if has_letters(w, letters, length) {
                return Some(Front {
                    kind: row as u32 + KIND_POINT,
                    len: length,
                });
            }
        }
    }
    None
}

// What the name of a kind means with `rest` after it.
fn after_name(kind: u32, rest: &[u8]) -> Option<Name>
    ensures { result ≡ after_name kind (ending rest.now) }
{
    match ending_of(rest) {
        Some(DIM_XY) => Some(Name::Bare(kind)),
        Some(dim) => Some(Name::Joined(kind, dim)),
        None => None,
    }
}

// What `word` means, if anything: the name that it begins with and the ending that is left, or the extra word.
pub fn name_of(word: &[u8]) -> Option<Name>
    ensures { result ≡ meaning word.now }
{
    match front_of(word) {
        Some(front) => after_name(front.kind, &word[front.len..]),
        None => {
            if words::same_word(word, &LINEARRING) {
                Some(Name::Bare(KIND_LINESTRING))
            } else {
                None
            }
        }
    }
}
