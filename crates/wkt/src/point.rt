// Points: `types/point.rs` of the Rust.
ghost use Rattle.kinds.specs.Kinds.{kind_point};
ghost use Rattle.wkt.specs.Coords.{FitsHeld, ReadsHeld};
ghost use Rattle.wkt.specs.Parts.{point_body_of, bare_point_of, point_of};

use crate::coord::{by_tokens, plain_coord};
use crate::parts::{ByCommas, InParens, in_parens};
use answers::{
    Spot, State, Unread, after_refusal, at_cursor, closing, ended, moved, open_node, spot_of,
    state_of,
};
use kinds::{KIND_POINT, width_of};
use tokenizer::Cursor;

// A point: one coordinate. In parentheses or bare it is what a multipoint has by commas.
pub(crate) struct Point;

impl InParens for Point {
    ghost KIND = { kind_point };

    ghost holds = { point_body_of };

    const KIND: u32 = KIND_POINT;

    fn body(
        text: &[u8],
        nodes: &mut [u32],
        numbers: &mut [u32],
        row: usize,
        dimension: u32,
        s: Spot,
    ) -> Result<Spot, Unread> {
        // Kept (2): `coord` reads the same, but with a second caller it is no part of the loop over coordinates any more: a
        // third more instructions a byte on line strings of short numbers.
        let width = width_of(dimension);
        let end = plain_coord(text, numbers, width, s.at, s.numbers);
        if s.at < end {
            let here = Spot {
                at: end,
                nodes: s.nodes,
                numbers: s.numbers + width,
            };
            return closing(text, nodes, row, 1, state_of(here));
        }
        let end = after_refusal(text, by_tokens(text, numbers, dimension, state_of(s)))?;
        closing(text, nodes, row, 1, state_of(end))
    }
}

// A point without parentheses: its row is used before anything is known of the token at `place`, which is held.
fn bare(
    text: &[u8],
    nodes: &mut [u32],
    numbers: &mut [u32],
    dimension: u32,
    place: usize,
    s: State,
) -> Result<Spot, Unread>
    requires { FitsHeld text.now nodes.old numbers.old s }
    ensures { ReadsHeld text.now (bare_point_of dimension place) s nodes.old numbers.old result nodes.new numbers.new }
{
    let row = s.nodes;
    let cursor = s.cursor;
    match open_node(nodes, KIND_POINT, dimension, place, spot_of(s)) {
        Ok(here) => {
            let end = by_tokens(text, numbers, dimension, at_cursor(cursor, here))?;
            ended(nodes, row, 1, end)
        }
        Err(Unread::Refused(r, _)) => Err(Unread::Stopped(r, cursor)),
        Err(Unread::Stopped(r, _)) => Err(Unread::Stopped(r, cursor)),
    }
}

// In parentheses, or bare where the token looked at is not `(`.
impl ByCommas for Point {
    ghost means = { point_of };

    fn read(
        text: &[u8],
        nodes: &mut [u32],
        numbers: &mut [u32],
        dimension: u32,
        s: Spot,
    ) -> Result<Spot, Unread> {
        let cursor = Cursor::new(s.at);
        let opened = cursor.pass_open(text);
        let next = opened.next;
        let place = opened.place;
        if opened.opens {
            in_parens::<Point>(text, nodes, numbers, dimension, place, moved(next.at, s))
        } else {
            bare(text, nodes, numbers, dimension, place, at_cursor(next, s))
        }
    }
}
