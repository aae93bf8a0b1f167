// The tokens of a text, one at a time: `Peekable` of the Rust as a cursor that is handed on by value.
#![tactic(auto)]

ghost use Rattle.std.specs.Prelude.{◌≡◌};
ghost use Rattle.tokenizer.specs.Tokens.{cursor_at, take_at, hold, look_at, is_comma, is_open, is_close_token, place_in, stands_at, pass_comma, pass_open, closes_at};

use token::{Found, Token, read_at};

// What was looked at and not yet taken.
// Kept (1): document 01, "The form each place takes": "The cursor struct holds an enum: nothing held, no token, bad number with place, or a token with its span".
#[derive(Clone, Copy)]
pub enum Held {
    Nothing,
    NoToken(usize),
    BadNumber(usize),
    Is(usize, Token),
}

// A place in a text, and what is held of what stands before it.
#[derive(Clone, Copy)]
pub struct Cursor {
    pub at: usize,
    pub held: Held,
}

// An answer, with the cursor to go on with.
#[derive(Clone, Copy)]
pub struct Step {
    pub found: Found,
    pub next: Cursor,
}

// Whether a comma was passed over, and the cursor to go on with, which holds any other token.
// Kept (1): the cursor counts in both cases, so neither an Option nor a Result says more.
#[derive(Clone, Copy)]
pub struct Passed {
    pub comma: bool,
    pub next: Cursor,
}

// Whether `(` was passed over, where the token starts that was looked at, and the cursor to go on with, which holds any
// other token.
// Kept (1): the place and the cursor count in both cases, so neither an Option nor a Result says more.
#[derive(Clone, Copy)]
pub struct PassedOpen {
    pub opens: bool,
    pub place: usize,
    pub next: Cursor,
}

// What was found, as what is held.
impl From<Found> for Held {
    ghost from_gives = { λ found held. held ≡ hold found };

    fn from(found: Found) -> Held {
        match found {
            Found::NoToken(p) => Held::NoToken(p),
            Found::BadNumber(p) => Held::BadNumber(p),
            Found::Is(p, token) => Held::Is(p, token),
        }
    }
}

fn is_comma(found: Found) -> bool
    ensures { result ≡ is_comma found }
{
    matches!(found, Found::Is(_, Token::Comma))
}

fn is_open(found: Found) -> bool
    ensures { result ≡ is_open found }
{
    matches!(found, Found::Is(_, Token::ParenOpen))
}

fn is_close(token: Token) -> bool
    ensures { result ≡ is_close_token token }
{
    matches!(token, Token::ParenClose)
}

fn place_in(found: Found) -> usize
    ensures { result ≡ place_in found }
{
    match found {
        Found::NoToken(p) | Found::BadNumber(p) | Found::Is(p, _) => p,
    }
}

impl Cursor {
    // A cursor at a place of a text, with nothing held.
    pub fn new(place: usize) -> Self
        ensures { result ≡ cursor_at place }
    {
        Cursor {
            at: place,
            held: Held::Nothing,
        }
    }

    // Whether nothing is held and the byte `mark` stands at the cursor, with no blank in front.
    fn stands_at(self, text: &[u8], mark: u8) -> bool
        ensures { result ≡ stands_at text.now mark self }
    {
        let at = self.at;
        at < text.len() && matches!(self.held, Held::Nothing) && text[at] == mark
    }

    // The next token, which is passed over.
    pub fn take(self, text: &[u8]) -> Step
        ensures { result ≡ take_at text.now self }
    {
        let found = match self.held {
            Held::Nothing => {
                let read = read_at(text, self.at);
                return Step {
                    found: read.found,
                    next: Cursor::new(read.at),
                };
            }
            Held::NoToken(p) => Found::NoToken(p),
            Held::BadNumber(p) => Found::BadNumber(p),
            Held::Is(p, token) => Found::Is(p, token),
        };
        Step {
            found,
            next: Cursor::new(self.at),
        }
    }

    // The next token, which is held and comes out again.
    pub fn look(self, text: &[u8]) -> Step
        ensures { result ≡ look_at text.now self }
    {
        let step = self.take(text);
        Step {
            found: step.found,
            next: Cursor {
                at: step.next.at,
                held: Held::from(step.found),
            },
        }
    }

    // Looks at the next token, and takes it if it is a comma.
    pub fn pass_comma(self, text: &[u8]) -> Passed
        ensures { result ≡ pass_comma text.now self }
    {
        let at = self.at;
        // Most commas stand right behind what they follow, and so does most of what is no comma: `)`.
        if self.stands_at(text, b',') {
            return Passed {
                comma: true,
                next: Cursor::new(at + 1),
            };
        }
        if self.stands_at(text, b')') {
            return Passed {
                comma: false,
                next: Cursor {
                    at: at + 1,
                    held: Held::Is(at, Token::ParenClose),
                },
            };
        }
        let step = self.look(text);
        let comma = is_comma(step.found);
        Passed {
            comma,
            next: if comma {
                Cursor::new(step.next.at)
            } else {
                step.next
            },
        }
    }

    // Looks at the next token, and takes it if it is `(`.
    pub fn pass_open(self, text: &[u8]) -> PassedOpen
        ensures { result ≡ pass_open text.now self }
    {
        let at = self.at;
        // Most of them stand right behind what they follow.
        if self.stands_at(text, b'(') {
            return PassedOpen {
                opens: true,
                place: at,
                next: Cursor::new(at + 1),
            };
        }
        let step = self.look(text);
        let opens = is_open(step.found);
        PassedOpen {
            opens,
            place: place_in(step.found),
            next: if opens {
                Cursor::new(step.next.at)
            } else {
                step.next
            },
        }
    }

    // The place behind `)`, where it is held, or nothing is held and it stands at the cursor.
    pub fn closes(self, text: &[u8]) -> Option<usize>
        ensures { result ≡ closes_at text.now self }
    {
        match self.held {
            Held::Nothing => {
                if self.stands_at(text, b')') {
                    Some(self.at + 1)
                } else {
                    None
                }
            }
            Held::NoToken(_) | Held::BadNumber(_) => None,
            Held::Is(_, token) => { if is_close(token) { Some(self.at) } else { None } }
        }
    }
}
