// What stands after a name, and a name with it: `infer_geom_dimension` of the Rust, and the start of `from_tokens_with_parens`.
#![tactic(auto)]

ghost use Rattle.std.specs.Prelude.{◌≡◌, ◌+◌, ◌≤◌, length};
ghost use Rattle.scan.specs.Bytes.{is_ascii};
ghost use Rattle.std.specs.List.{list_all};
ghost use Rattle.tokenizer.specs.Tokens.{cursor_at};
ghost use Rattle.grammar.specs.Grammar.{opener, header, by_name, child_head, root_head};
ghost use Rattle.headings.specs.Heads.{MetHead, empty_at};

use kinds::DIM_XY;
use names::Name;
use refusals::{
    NO_CHILD, NO_HEADER, NO_ROOT, NON_ASCII_ROOT, NOT_OPENED, UNKNOWN_HEADER, UNKNOWN_NAME,
};
use sorts::{OPEN, Taken, WORD};
use token::Refusal;
use tokenizer::Cursor;

// `(` or EMPTY, with the kind, the dimension, its place and the place behind it, where nothing is held.
#[derive(Clone, Copy)]
pub enum Head {
    Opens(u32, u32, usize, usize),
    Empty(u32, u32, usize, usize),
}

// Why no heading was read: the refusal, and the cursor to go on with, which holds what was only looked at.
#[derive(Clone, Copy)]
pub struct NoHead {
    pub refusal: Refusal,
    pub next: Cursor,
}

// EMPTY, where `token` was taken and is not `(`.
fn empty(text: &[u8], kind: u32, dimension: u32, token: Taken) -> Result<Head, NoHead>
    requires { token.start + token.len ≤ length text.now }
    ensures { result ≡ empty_at text.now kind dimension token }
{
    if token.sort != WORD {
        return Err(NoHead {
            refusal: sorts::refusal_at(text, NOT_OPENED, token.sort, token.place),
            next: Cursor::new(token.at),
        });
    }
    let start = token.start;
    let end = start + token.len;
    if names::is_empty_word(&text[start..end]) {
        Ok(Head::Empty(kind, dimension, token.place, token.at))
    } else {
        Err(NoHead {
            refusal: Refusal {
                number: NOT_OPENED,
                place: token.place,
            },
            next: Cursor::new(token.at),
        })
    }
}

// `(` or EMPTY.
pub fn opener(text: &[u8], kind: u32, dimension: u32, at: usize) -> Result<Head, NoHead>
    ensures { MetHead text.now (opener kind dimension) (cursor_at at) result }
{
    let cursor = Cursor::new(at);
    let opened = cursor.pass_open(text);
    let here = opened.next;
    if opened.opens {
        return Ok(Head::Opens(kind, dimension, opened.place, here.at));
    }
    empty(text, kind, dimension, sorts::take(text, here))
}

// What follows a bare name: a dimension's word is taken, any other token is only looked at.
fn header(text: &[u8], kind: u32, at: usize) -> Result<Head, NoHead>
    ensures { MetHead text.now (header kind) (cursor_at at) result }
{
    let cursor = Cursor::new(at);
    let opened = cursor.pass_open(text);
    let here = opened.next;
    if opened.opens {
        return Ok(Head::Opens(kind, DIM_XY, opened.place, here.at));
    }
    let token = sorts::take(text, here);
    // Where it is refused, what was looked at stays held.
    if token.sort < OPEN {
        return Err(NoHead {
            refusal: Refusal {
                number: NO_HEADER,
                place: token.place,
            },
            next: here,
        });
    }
    if token.sort != WORD {
        return empty(text, kind, DIM_XY, token);
    }
    let start = token.start;
    let end = start + token.len;
    let word = &text[start..end];
    match names::ending_of(word) {
        Some(dimension) => opener(text, kind, dimension, token.at),
        None => {
            if names::is_empty_word(word) {
                Ok(Head::Empty(kind, DIM_XY, token.place, token.at))
            } else {
                Err(NoHead {
                    refusal: Refusal {
                        number: UNKNOWN_HEADER,
                        place: token.place,
                    },
                    next: here,
                })
            }
        }
    }
}

// What follows the word at `place` that means `name`, if anything.
fn by_name(text: &[u8], place: usize, name: Option<Name>, at: usize) -> Result<Head, NoHead>
    ensures { MetHead text.now (by_name place name) (cursor_at at) result }
{
    let Some(name) = name else {
        return Err(NoHead {
            refusal: Refusal {
                number: UNKNOWN_NAME,
                place,
            },
            next: Cursor::new(at),
        });
    };
    match name {
        Name::Bare(kind) => header(text, kind, at),
        Name::Joined(kind, dimension) => opener(text, kind, dimension, at),
    }
}

// The name of a collection's child, and what follows it.
pub fn child_head(text: &[u8], at: usize) -> Result<Head, NoHead>
    ensures { MetHead text.now child_head (cursor_at at) result }
{
    let token = sorts::take_at(text, at);
    if token.sort == WORD {
        let start = token.start;
        let end = start + token.len;
        let name = names::name_of(&text[start..end]);
        return by_name(text, token.place, name, token.at);
    }
    Err(NoHead {
        refusal: sorts::refusal_at(text, NO_CHILD, token.sort, token.place),
        next: Cursor::new(token.at),
    })
}

// Whether every byte of `w` is ASCII.
fn is_ascii(w: &[u8]) -> bool
    ensures { result ≡ list_all is_ascii w.now }
{
    w.iter().all(|b| *b <= 127)
}

// The name of the root, and what follows it.
pub fn root_head(text: &[u8], at: usize) -> Result<Head, NoHead>
    ensures { MetHead text.now root_head (cursor_at at) result }
{
    let token = sorts::take_at(text, at);
    if token.sort != WORD {
        return Err(NoHead {
            refusal: sorts::refusal_at(text, NO_ROOT, token.sort, token.place),
            next: Cursor::new(token.at),
        });
    }
    let start = token.start;
    let end = start + token.len;
    let word = &text[start..end];
    if is_ascii(word) {
        by_name(text, token.place, names::name_of(word), token.at)
    } else {
        Err(NoHead {
            refusal: Refusal {
                number: NON_ASCII_ROOT,
                place: token.place,
            },
            next: Cursor::new(token.at),
        })
    }
}
