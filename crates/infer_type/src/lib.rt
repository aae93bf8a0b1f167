// The kind and the dimension that the front of a text names, without reading the geometry.
#![tactic(auto)]

ghost use Rattle.std.specs.Prelude.{◌≡◌};
ghost use Rattle.scan.specs.Runs.{first_not};
ghost use Rattle.infer_type.specs.Part.{is_trimmed, is_looked, trimmed_at};
ghost use Rattle.infer_type.specs.Search.{first_word};
ghost use Rattle.infer_type.specs.Infer.{accepted, refused, dimension_in, with_paren, without_paren, infer_looked, infer_type};

use refusals::{
    EMPTY_WITHOUT_SPACE, ILL_FORMED_UTF8, NEITHER_PAREN_NOR_EMPTY, NON_ASCII, TEXT_TOO_LONG,
    UNSUPPORTED_NAME,
};

const SPACE: [u8; 1] = *b" ";

// What a text is found to be, with number and place 0; or the number and the place of its refusal, with zeros after them.
#[derive(Clone, Copy)]
pub struct Inferred {
    pub number: u32,
    pub place: usize,
    pub kind: u32,
    pub dimension: u32,
}

fn accept(kind: u32, dimension: u32) -> Inferred
    ensures { result ≡ accepted kind dimension }
{
    Inferred {
        number: 0,
        place: 0,
        kind,
        dimension,
    }
}

fn refuse(number: u32, place: usize) -> Inferred
    ensures { result ≡ refused number place }
{
    Inferred {
        number,
        place,
        kind: 0,
        dimension: 0,
    }
}

// What is trimmed in front: what ASCII calls white space, which is more than the tokens' blanks.
fn is_trimmed(b: u8) -> bool
    ensures { result ≡ is_trimmed b }
{
    matches!(b, b'\t'..=b'\r' | b' ')
}

// What does not end the part looked at.
fn is_looked(b: u8) -> bool
    ensures { result ≡ is_looked b }
{
    b.is_ascii() && b != b'('
}

// The place of the first byte that is not trimmed, or the end.
#[tactic(auto, unfolding(crate::specs::Part::trimmed_at))]
fn trim_start(text: &[u8]) -> usize
    ensures { result ≡ trimmed_at text.now }
{
    scan::first_not(text, 0, is_trimmed)
}

// The place of the first `(` or non-ASCII byte from `from` on, or the end.
fn looked_end(text: &[u8], from: usize) -> usize
    ensures { result ≡ first_not is_looked text.now from }
{
    scan::first_not(text, from, is_looked)
}

// The place where `word` first stands in `part`, or the end.
fn find_word(part: &[u8], word: &[u8]) -> usize
    ensures { result ≡ first_word word.now part.now }
{
    for i in 0..part.len() {
        if words::starts_with_word(&part[i..], word) {
            return i;
        }
    }
    part.len()
}

// The dimension whose letters stand anywhere in `part`: `ZM`, else `Z`, else `M`.
fn dimension_in(part: &[u8]) -> u32
    ensures { result ≡ dimension_in part.now }
{
    let mut has_z = false;
    let mut has_m = false;
    for i in 0..part.len() {
        let rest = &part[i..];
        if names::starts_with_ending(rest, kinds::DIM_XYZM) {
            return kinds::DIM_XYZM;
        }
        has_z = has_z | names::starts_with_ending(rest, kinds::DIM_XYZ);
        has_m = has_m | names::starts_with_ending(rest, kinds::DIM_XYM);
    }
    if has_z {
        kinds::DIM_XYZ
    } else if has_m {
        kinds::DIM_XYM
    } else {
        kinds::DIM_XY
    }
}

// What `part`, with a `(` after it, is found to be: a name, and the dimension in the rest.
fn infer_with_paren(part: &[u8], place: usize) -> Inferred
    ensures { result ≡ with_paren place part.now }
{
    match names::front_of(part) {
        Some(name) => accept(name.kind, dimension_in(&part[name.len..])),
        None => refuse(UNSUPPORTED_NAME, place),
    }
}

// What `part`, the whole rest of a text, is found to be: a name, and the dimension between the first space and EMPTY.
fn infer_without_paren(part: &[u8], place: usize) -> Inferred
    ensures { result ≡ without_paren place part.now }
{
    let empty = find_word(part, &names::EMPTY);
    if empty == part.len() {
        return refuse(NEITHER_PAREN_NOR_EMPTY, place);
    }
    let before = &part[0..empty];
    let space = find_word(before, &SPACE);
    if space == empty {
        return refuse(EMPTY_WITHOUT_SPACE, place);
    }
    let dimension = dimension_in(&before[space + 1..]);
    match names::front_of(part) {
        Some(name) => accept(name.kind, dimension),
        None => refuse(UNSUPPORTED_NAME, place),
    }
}

// What `text`, however long and of any bytes, is found to be by the part of it that is looked at.
fn infer_looked(text: &[u8]) -> Inferred
    ensures { result ≡ infer_looked text.now }
{
    let start = trim_start(text);
    let end = looked_end(text, start);
    let part = &text[start..end];
    if end == text.len() {
        return infer_without_paren(part, start);
    }
    if text[end] == b'(' {
        infer_with_paren(part, start)
    } else {
        refuse(NON_ASCII, end)
    }
}

// The kind and the dimension that the front of `text` names.
pub fn infer_type(text: &[u8]) -> Inferred
    ensures { result ≡ infer_type text.now }
{
    if limits::is_over(text) {
        return refuse(TEXT_TOO_LONG, limits::TEXT_LIMIT);
    }
    let ill = utf8::first_ill_formed(text);
    if ill != text.len() {
        return refuse(ILL_FORMED_UTF8, ill);
    }
    infer_looked(text)
}
