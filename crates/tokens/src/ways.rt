// The ways to come by the next token, each a step: what was found, and the cursor to go on with.
ghost use Rattle.std.specs.Prelude.{◌≡◌, List, ℕ};
ghost use Rattle.tokenizer.specs.Tokens.{take_at, look_at, cursor_at, step};
ghost use Rattle.token_reader.specs.Reader.{nth_from};
ghost use Rattle.tokens.specs.Ways.{Steps, shown_of, step_of};

use token_reader::{look_from, next_from, nth, peek_from, take_from};
use tokenizer::{Cursor, Step};

// Which of three is shown: a look, another, and what is taken after both.
#[derive(Clone, Copy)]
pub(crate) enum Look {
    First,
    Second,
    Taken,
}

// Kept (7): `step_by` says of all ways at once that they find one token (`step_of`), which docs/DEMANDS.md names; of a closure for each it would be said nine times.
#[derive(Clone, Copy)]
pub(crate) enum Way {
    // By a reader that is lent: taken, or looked at twice and then taken.
    Next,
    Peek(Look),
    // By a reader that is passed by value.
    Take,
    Look(Look),
    // Counted off from the place asked for.
    Nth,
}

// What one of three steps found, with the cursor of the last.
fn shown(look: Look, first: Step, second: Step, taken: Step) -> Step
    ensures { result ≡ shown_of look first second taken }
{
    let next = taken.next;
    let found = match look {
        Look::First => first.found,
        Look::Second => second.found,
        Look::Taken => taken.found,
    };
    Step { found, next }
}

// Looks twice and then takes, by a look and a taking that are given.
fn by_looks<L: Fn(Cursor) -> Step, T: Fn(Cursor) -> Step>(
    show: Look,
    cursor: Cursor,
    look: L,
    take: T,
) -> Step
    requires looks { L.IsAlwaysCallable look }
    requires takes { T.IsAlwaysCallable take }
    ensures { (text : List ℕ) → Steps (L.post look) (look_at text) → Steps (T.post take) (take_at text) → result ≡ take_at text cursor }
{
    let first = look(cursor);
    let second = look(first.next);
    shown(show, first, second, take(second.next))
}

// The token that comes after `i` others from `place` on; the cursor stays.
fn by_nth(text: &[u8], cursor: Cursor, place: usize, i: usize) -> Step
    ensures { result ≡ step (nth_from text.now i (cursor_at place)) cursor }
{
    let found = nth(text, place, i);
    Step {
        found,
        next: cursor,
    }
}

// The token at a cursor, which is the one after `i` others from `place` on.
pub(crate) fn step_by(way: Way, text: &[u8], cursor: Cursor, place: usize, i: usize) -> Step
    ensures { result ≡ step_of way text.now cursor place i }
{
    match way {
        Way::Next => next_from(text, cursor),
        Way::Peek(show) => by_looks(show, cursor, |c| peek_from(text, c), |c| next_from(text, c)),
        Way::Take => take_from(text, cursor),
        Way::Look(show) => by_looks(show, cursor, |c| look_from(text, c), |c| take_from(text, c)),
        Way::Nth => by_nth(text, cursor, place, i),
    }
}
