// The answers of the entries for C, each laid out in the four places that a caller lends for it; that of a move has five.
#![tactic(auto)]

ghost use Rattle.std.specs.Prelude.{◌≡◌};
ghost use Rattle.c_answers.specs.Answers.{read_places, write_places, strict_places, infer_places, box_places, places_of, token_places, move_places};

use bounds::BoxAnswer;
use infer_type::Inferred;
use store::{ReadAnswer, WriteAnswer};
use stored_moves::MoveAnswer;
use strict::StrictAnswer;
use token::{Found, Token};

// How many places an answer has. Those that an entry has no use for are zero.
pub const ANSWER_PLACES: usize = 4;

// And that of a move.
pub const MOVE_PLACES: usize = 5;

// Number, place, node count, number count.
pub fn read_places(a: ReadAnswer) -> [u64; ANSWER_PLACES]
    ensures { result ≡ read_places a }
{
    [
        a.number as u64,
        a.place as u64,
        a.nodes as u64,
        a.numbers as u64,
    ]
}

// Number, place, length.
pub fn write_places(a: WriteAnswer) -> [u64; ANSWER_PLACES]
    ensures { result ≡ write_places a }
{
    [a.number as u64, a.place as u64, a.length as u64, 0]
}

// Number, letter, node row.
pub fn strict_places(a: StrictAnswer) -> [u64; ANSWER_PLACES]
    ensures { result ≡ strict_places a }
{
    [a.number as u64, a.letter as u64, a.row as u64, 0]
}

// Number, place, kind, dimension.
pub fn infer_places(a: Inferred) -> [u64; ANSWER_PLACES]
    ensures { result ≡ infer_places a }
{
    [
        a.number as u64,
        a.place as u64,
        a.kind as u64,
        a.dimension as u64,
    ]
}

// Number, place.
pub fn box_places(a: BoxAnswer) -> [u64; ANSWER_PLACES]
    ensures { result ≡ box_places a }
{
    [a.number as u64, a.place as u64, 0, 0]
}

// Number, place, length, node count, number count.
pub fn move_places(a: MoveAnswer) -> [u64; MOVE_PLACES]
    ensures { result ≡ move_places a }
{
    let nodes = a.nodes as u64;
    let numbers = a.numbers as u64;
    [
        a.number as u64,
        a.place as u64,
        a.length as u64,
        nodes,
        numbers,
    ]
}

// The sorts of what a demand for a token finds.
const NO_TOKEN: u64 = 0;

const BAD_NUMBER: u64 = 1;

const COMMA: u64 = 2;

const PAREN_CLOSE: u64 = 3;

const PAREN_OPEN: u64 = 4;

const NUMBER: u64 = 5;

const WORD: u64 = 6;

// Sort, place, start, length of a token that stands at `place`.
fn places_of(place: usize, token: Token) -> [u64; ANSWER_PLACES]
    ensures { result ≡ places_of place token }
{
    match token {
        Token::Comma => [COMMA, place as u64, 0, 0],
        Token::Number(start, len) => [NUMBER, place as u64, start as u64, len as u64],
        Token::ParenClose => [PAREN_CLOSE, place as u64, 0, 0],
        Token::ParenOpen => [PAREN_OPEN, place as u64, 0, 0],
        Token::Word(start, len) => [WORD, place as u64, start as u64, len as u64],
    }
}

// Sort, place, start, length.
pub fn token_places(found: Found) -> [u64; ANSWER_PLACES]
    ensures { result ≡ token_places found }
{
    match found {
        Found::NoToken(place) => [NO_TOKEN, place as u64, 0, 0],
        Found::BadNumber(place) => [BAD_NUMBER, place as u64, 0, 0],
        Found::Is(place, token) => places_of(place, token),
    }
}
