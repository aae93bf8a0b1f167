// A token as the grammar asks of it: by its sort, a number.
#![tactic(auto)]

ghost use Rattle.std.specs.Prelude.{◌≡◌, cond, eqb};
ghost use Rattle.token.specs.Tokens.{bad_at};
ghost use Rattle.tokenizer.specs.Tokens.{cursor_at, take_at};
ghost use Rattle.grammar.specs.Tokens.{sort_bad};
ghost use Rattle.grammar.specs.Grammar.{refusal};
ghost use Rattle.sorts.specs.Taken.{taken, clipped, spelt_as, told, taken_at};

use token::{Found, Refusal, Token};
use tokenizer::{Cursor, Held};

pub const NONE: u32 = 0;

pub const BAD: u32 = 1;

pub const OPEN: u32 = 2;

pub const CLOSE: u32 = 3;

pub const COMMA: u32 = 4;

pub const NUMBER: u32 = 5;

pub const WORD: u32 = 6;

// A token that was taken: its sort and place, the span of a number's text or of a word, and the place behind it, where
// nothing is held.
#[derive(Clone, Copy)]
pub struct Taken {
    pub sort: u32,
    pub place: usize,
    pub start: usize,
    pub len: usize,
    pub at: usize,
}

#[derive(Clone, Copy)]
struct Clipped {
    start: usize,
    len: usize,
}

// A span without what lies past the text's end. No cursor that was made by this library holds such a span.
fn clip(text: &[u8], start: usize, len: usize) -> Clipped
    ensures { result ≡ clipped text.now start len }
{
    if text.len() <= start {
        return Clipped {
            start: text.len(),
            len: 0,
        };
    }
    let room = text.len() - start;
    if room < len {
        Clipped { start, len: room }
    } else {
        Clipped { start, len }
    }
}

// A token whose text is not asked for.
fn mark(sort: u32, place: usize, at: usize) -> Taken
    ensures { result ≡ taken sort place 0 0 at }
{
    Taken {
        sort,
        place,
        start: 0,
        len: 0,
        at,
    }
}

// A token with the span of its text.
fn spelt(text: &[u8], sort: u32, place: usize, start: usize, len: usize, at: usize) -> Taken
    ensures { result ≡ spelt_as text.now sort place start len at }
{
    let part = clip(text, start, len);
    Taken {
        sort,
        place,
        start: part.start,
        len: part.len,
        at,
    }
}

// What is told of a token that was found.
fn told(text: &[u8], found: Found, at: usize) -> Taken
    ensures { result ≡ told text.now found at }
{
    match found {
        Found::NoToken(place) => mark(NONE, place, at),
        Found::BadNumber(place) => mark(BAD, place, at),
        Found::Is(place, token) => match token {
            Token::ParenOpen => mark(OPEN, place, at),
            Token::ParenClose => mark(CLOSE, place, at),
            Token::Comma => mark(COMMA, place, at),
            Token::Number(start, len) => spelt(text, NUMBER, place, start, len, at),
            Token::Word(start, len) => spelt(text, WORD, place, start, len, at),
        },
    }
}

// The next token where nothing is held.
pub fn take_at(text: &[u8], at: usize) -> Taken
    ensures { result ≡ taken_at text.now (cursor_at at) }
{
    let read = token::read_at(text, at);
    let found = read.found;
    told(text, found, read.at)
}

// The next token: what is held comes out as it is.
pub fn take(text: &[u8], cursor: Cursor) -> Taken
    ensures { result ≡ taken_at text.now cursor }
{
    let at = cursor.at;
    let held = cursor.held;
    match held {
        Held::Nothing => take_at(text, at),
        Held::NoToken(p) => told(text, Found::NoToken(p), at),
        Held::BadNumber(p) => told(text, Found::BadNumber(p), at),
        Held::Is(p, token) => told(text, Found::Is(p, token), at),
    }
}

// The refusal at a token of `sort` at `place` that was taken and is not the one asked for.
pub fn refusal_at(text: &[u8], number: u32, sort: u32, place: usize) -> Refusal
    ensures { result ≡ cond (eqb sort sort_bad) (bad_at text.now place) (refusal number place) }
{
    if sort == BAD {
        return token::bad_number_at(text, place);
    }
    Refusal { number, place }
}
