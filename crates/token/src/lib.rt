// The token that stands at a place of a text: what `tokenizer.rs` of the Rust reads with one call of `next`.
#![tactic(auto)]

ghost use Rattle.std.specs.Prelude.{◌≡◌, ◌<◌, length};
ghost use Rattle.token.specs.Tokens.{number_at, word_at, read_at, bad_at};

use bad_numbers::wrong_at;
use number::read_lexeme;
use refusals::{NOTHING_AFTER_PLUS, NUMBER_GOES_WRONG};
use scan::{after_blank, after_plus, is_numberlike, skip_blanks, token_end};

const NUL: u8 = 0;

#[derive(Clone, Copy)]
pub enum Token {
    Comma,
    // Where the number's text starts, after a dropped `+`, and its length.
    Number(usize, usize),
    ParenClose,
    ParenOpen,
    // Where the word starts, and its length.
    Word(usize, usize),
}

// What a demand for a token finds, with the place where it starts.
#[derive(Clone, Copy)]
pub enum Found {
    // NUL, or the end of the text.
    NoToken(usize),
    BadNumber(usize),
    Is(usize, Token),
}

// What was read, and the place to read on from.
#[derive(Clone, Copy)]
pub struct Read {
    pub found: Found,
    pub at: usize,
}

// A refusal's number and place.
#[derive(Clone, Copy)]
pub struct Refusal {
    pub number: u32,
    pub place: usize,
}

// The refusal of the bad number that starts at `place`: nothing is left after its plus, or it goes wrong.
pub fn bad_number_at(text: &[u8], place: usize) -> Refusal
    ensures { result ≡ bad_at text.now place }
{
    let start = after_plus(text, place);
    let end = token_end(text, start);
    if end <= start {
        return Refusal {
            number: NOTHING_AFTER_PLUS,
            place,
        };
    }
    Refusal {
        number: NUMBER_GOES_WRONG,
        place: start + wrong_at(&text[start..end]),
    }
}

// The number that starts at `p`.
fn read_number(text: &[u8], p: usize) -> Read
    requires { p < length text.now }
    ensures { result ≡ number_at text.now p }
{
    let start = after_plus(text, p);
    let lexeme = read_lexeme(text, start);
    let end = lexeme.end;
    let found = if lexeme.good {
        Found::Is(p, Token::Number(start, end - start))
    } else {
        Found::BadNumber(p)
    };
    Read {
        found,
        at: after_blank(text, end),
    }
}

// The word that starts at `p`.
fn read_word(text: &[u8], p: usize) -> Read
    requires { p < length text.now }
    ensures { result ≡ word_at text.now p }
{
    let end = token_end(text, p);
    Read {
        found: Found::Is(p, Token::Word(p, end - p)),
        at: after_blank(text, end),
    }
}

// What stands from `from` on, after blanks.
pub fn read_at(text: &[u8], from: usize) -> Read
    ensures { result ≡ read_at text.now from }
{
    let p = skip_blanks(text, from);
    if text.len() <= p {
        return Read {
            found: Found::NoToken(text.len()),
            at: text.len(),
        };
    }
    let b = text[p];
    let past = p + 1;
    let found = match b {
        NUL => Found::NoToken(p),
        b'(' => Found::Is(p, Token::ParenOpen),
        b')' => Found::Is(p, Token::ParenClose),
        b',' => Found::Is(p, Token::Comma),
        _ => {
            if is_numberlike(b) {
                return read_number(text, p);
            }
            return read_word(text, p);
        }
    };
    Read { found, at: past }
}
