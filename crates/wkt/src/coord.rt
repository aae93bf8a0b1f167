// Coordinates: `types/coord.rs` of the Rust.
ghost use Rattle.std.specs.Prelude.{◌+◌, ◌≤◌, ◌<◌, ◌^◌, length};
ghost use Rattle.store.specs.Rows.{number_room};
ghost use Rattle.grammar.specs.Grammar.{if_asked};
ghost use Rattle.answers.specs.Reading.{state_of};
ghost use Rattle.wkt.specs.Coords.{Ready, FitsNumbers, ReadyAfter, MetNumber, MetOn, MetCoord, MetPlains};
ghost use Rattle.wkt.specs.Parts.{coord_of};

use crate::parts::ByCommas;
use answers::{Spot, State, Unread, state_of};
use kinds::{has_m, has_z, width_of};
use plain_numbers::plain_number;
use refusals::{NO_M, NO_NUMBER_ROW, NO_X, NO_Y, NO_Z};
use sorts::NUMBER;
use token::Refusal;
use tokenizer::Cursor;

// A number and its row, or the refusal `missing`.
fn number(text: &[u8], numbers: &mut [u32], missing: u32, s: State) -> Result<Spot, Unread>
    requires { Ready text.now numbers.old s }
    ensures { MetNumber text.now missing s numbers.old result numbers.new }
{
    let used = s.numbers;
    let token = sorts::take(text, s.cursor);
    if token.sort != NUMBER {
        return Err(Unread::Refused(
            sorts::refusal_at(text, missing, token.sort, token.place),
            Cursor::new(token.at),
        ));
    }
    if used < store::number_room(numbers) {
        store::put_number(numbers, used, token.start as u32, token.len as u32);
        return Ok(Spot {
            at: token.at,
            nodes: s.nodes,
            numbers: used + 1,
        });
    }
    Err(Unread::Stopped(
        Refusal {
            number: NO_NUMBER_ROW,
            place: token.place,
        },
        Cursor::new(token.at),
    ))
}

// One number more, if the dimension asks for it and what came before it was read.
fn then_number(
    text: &[u8],
    numbers: &mut [u32],
    asked: bool,
    missing: u32,
    prior: Result<Spot, Unread>,
) -> Result<Spot, Unread>
    requires { ReadyAfter text.now numbers.old prior }
    ensures { MetOn text.now (λ M. if_asked M asked missing) prior numbers.old result numbers.new }
{
    let end = prior?;
    if asked {
        number(text, numbers, missing, state_of(end))
    } else {
        Ok(end)
    }
}

// X, Y, then Z and M as the dimension asks, a token for each.
pub(crate) fn by_tokens(
    text: &[u8],
    numbers: &mut [u32],
    dimension: u32,
    s: State,
) -> Result<Spot, Unread>
    requires { Ready text.now numbers.old s }
    ensures { MetCoord text.now dimension s numbers.old result numbers.new }
{
    let x = number(text, numbers, NO_X, s);
    let y = then_number(text, numbers, true, NO_Y, x);
    let z = then_number(text, numbers, has_z(dimension), NO_Z, y);
    then_number(text, numbers, has_m(dimension), NO_M, z)
}

// The plain numbers of a coordinate and their rows: the place to read on from, or `at` where there are fewer, or no room for
// them.
// Kept (1): as an `Option` each turn of the loop over a fraction's digits sets both words of `None`: 11.5 instructions a byte
// where this takes 10.4, on polygons.
pub(crate) fn plain_coord(
    text: &[u8],
    numbers: &mut [u32],
    width: usize,
    at: usize,
    used: usize,
) -> usize
    requires { (length text.now + 2 < 2 ^ 32) × (used ≤ number_room numbers.old) × (width ≤ 4) }
    ensures { MetPlains text.now width at used numbers.old result numbers.new }
{
    if store::number_room(numbers) - used < width {
        return at;
    }
    let mut here = at;
    for k in 0..width {
        let Some(number) = plain_number(text, here) else {
            return at;
        };
        store::put_number(numbers, used + k, here as u32, (number.end - here) as u32);
        here = number.next;
    }
    here
}

// A coordinate where nothing is held: plain numbers at once, whatever else token by token.
fn coord(text: &[u8], numbers: &mut [u32], dimension: u32, s: Spot) -> Result<Spot, Unread>
    requires { FitsNumbers text.now numbers.old s }
    ensures { MetCoord text.now dimension (state_of s) numbers.old result numbers.new }
{
    let width = width_of(dimension);
    let end = plain_coord(text, numbers, width, s.at, s.numbers);
    if s.at < end {
        return Ok(Spot {
            at: end,
            nodes: s.nodes,
            numbers: s.numbers + width,
        });
    }
    by_tokens(text, numbers, dimension, state_of(s))
}

// What is read by commas: a coordinate.
pub(crate) struct Coordinate;

impl ByCommas for Coordinate {
    ghost means = { coord_of };

    fn read(
        text: &[u8],
        _nodes: &mut [u32],
        numbers: &mut [u32],
        dimension: u32,
        s: Spot,
    ) -> Result<Spot, Unread> {
        coord(text, numbers, dimension, s)
    }
}
