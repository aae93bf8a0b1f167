// The token reader: a lent text and the place in it together, `Tokens` of the Rust's tokenizer.rs.
// Each function over this struct is thin: it takes the struct apart and leaves the work to the cursor's own step.
// Those that step or make a reader are proved by walks of their code, by hand: one argument for each kind, over the name of the function that is called.
#![tactic(auto)]

ghost use Rattle.std.specs.Prelude.{◌≡◌};
ghost use Rattle.tokenizer.specs.Tokens.{cursor_at, take_at, look_at};
ghost use Rattle.token_reader.specs.Reader.{reader, next_of, after_next, peek_of, after_peek, nth_from};

use token::Found;
use tokenizer::{Cursor, Step};

const START: usize = 0;

#[derive(Clone, Copy)]
pub struct Tokens<'a> {
    pub text: &'a [u8],
    pub cursor: Cursor,
}

impl<'a> Tokens<'a> {
    // A reader of a text, at a cursor.
    pub fn new(text: &'a [u8], cursor: Cursor) -> Tokens<'a>
        ensures { result ≡ reader text.entry cursor }
    {
        Tokens { text, cursor }
    }

    // A reader of a text from a place on, with nothing held.
    pub fn at(text: &'a [u8], place: usize) -> Tokens<'a>
        ensures { result ≡ reader text.entry (cursor_at place) }
    {
        Tokens::new(text, Cursor::new(place))
    }

    // A reader of a text from its start on.
    pub fn from_slice(text: &'a [u8]) -> Tokens<'a>
        ensures { result ≡ reader text.entry (cursor_at 0) }
    {
        Tokens::at(text, START)
    }

    // The next token, and the cursor after it.
    pub fn take(self) -> Step
        ensures { result ≡ take_at self.entry.text.now self.entry.cursor }
    {
        self.cursor.take(self.text)
    }

    // The next token, and the cursor that holds it.
    pub fn look(self) -> Step
        ensures { result ≡ look_at self.entry.text.now self.entry.cursor }
    {
        self.cursor.look(self.text)
    }

    // The reader handed back, at another cursor.
    pub fn moved(self, cursor: Cursor) -> Tokens<'a>
        ensures { result ≡ reader self.entry.text cursor }
    {
        Tokens {
            text: self.text,
            cursor,
        }
    }

    // The next token, which is passed over.
    pub fn next(&mut self) -> Found
        ensures { (result ≡ next_of self.old) × (self.new ≡ after_next self.old) }
    {
        let step = self.cursor.take(self.text);
        self.cursor = step.next;
        step.found
    }

    // The next token, which is held and comes out again.
    pub fn peek(&mut self) -> Found
        ensures { (result ≡ peek_of self.old) × (self.new ≡ after_peek self.old) }
    {
        let step = self.cursor.look(self.text);
        self.cursor = step.next;
        step.found
    }
}

// The four steps from a slice and a cursor, through a reader: by value, and lent.
// Kept (2): each calls a method of its own name. With the method given as a closure each would still stand here, to give it, and one function more.
pub fn take_from(text: &[u8], cursor: Cursor) -> Step
    ensures { result ≡ take_at text.now cursor }
{
    Tokens::from_slice(text).moved(cursor).take()
}

pub fn look_from(text: &[u8], cursor: Cursor) -> Step
    ensures { result ≡ look_at text.now cursor }
{
    Tokens::from_slice(text).moved(cursor).look()
}

pub fn next_from(text: &[u8], cursor: Cursor) -> Step
    ensures { result ≡ take_at text.now cursor }
{
    let mut tokens = Tokens::new(text, cursor);
    let found = tokens.next();
    Step {
        found,
        next: tokens.cursor,
    }
}

pub fn peek_from(text: &[u8], cursor: Cursor) -> Step
    ensures { result ≡ look_at text.now cursor }
{
    let mut tokens = Tokens::new(text, cursor);
    let found = tokens.peek();
    Step {
        found,
        next: tokens.cursor,
    }
}

// The first token from a place on.
pub fn first(text: &[u8], place: usize) -> Found
    ensures { result ≡ next_of (reader text.entry (cursor_at place)) }
{
    next_from(text, Cursor::new(place)).found
}

// The token that comes after `n` others, from a place on.
pub fn nth(text: &[u8], place: usize, n: usize) -> Found
    ensures { result ≡ nth_from text.now n (cursor_at place) }
{
    let mut cursor = Cursor::new(place);
    for _ in 0..n {
        cursor = take_from(text, cursor).next;
    }
    take_from(text, cursor).found
}
