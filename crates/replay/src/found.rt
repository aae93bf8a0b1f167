// What demands for a token found, compared.
use token::{Found, Token};

// What was found as numbers: its sort, its place, and the span of a number's text or of a word, 0 where there is none.
#[derive(Drop)]
struct Told {
    sort: usize,
    place: usize,
    start: usize,
    len: usize,
}

const NONE: usize = 0;

const BAD: usize = 1;

const COMMA: usize = 2;

const CLOSE: usize = 3;

const OPEN: usize = 4;

const NUMBER: usize = 5;

const WORD: usize = 6;

fn spanned(sort: usize, place: usize, start: usize, len: usize) -> Told {
    Told {
        sort,
        place,
        start,
        len,
    }
}

fn placed(sort: usize, place: usize) -> Told {
    spanned(sort, place, 0, 0)
}

fn numbers_of_token(place: usize, token: Token) -> Told {
    match token {
        Token::Comma => placed(COMMA, place),
        Token::Number(start, len) => spanned(NUMBER, place, start, len),
        Token::ParenClose => placed(CLOSE, place),
        Token::ParenOpen => placed(OPEN, place),
        Token::Word(start, len) => spanned(WORD, place, start, len),
    }
}

fn numbers_of(found: Found) -> Told {
    match found {
        Found::NoToken(place) => placed(NONE, place),
        Found::BadNumber(place) => placed(BAD, place),
        Found::Is(place, token) => numbers_of_token(place, token),
    }
}

pub(crate) fn same(first: Found, second: Found) -> bool {
    let a = numbers_of(first);
    let b = numbers_of(second);
    (a.sort == b.sort) & (a.place == b.place) & (a.start == b.start) & (a.len == b.len)
}
