// What reading a part comes to, and what every body is read with: a row, what follows a part, the closing token.
#![tactic(auto)]

ghost use Rattle.std.specs.Prelude.{◌≡◌};
ghost use Rattle.tokenizer.specs.Tokens.{cursor_at, pass_comma};
ghost use Rattle.store.specs.Rows.{open_row};
ghost use Rattle.answers.specs.declared.Unread.TheVariants.{Refused};
ghost use Rattle.answers.specs.Reading.{spot, state, state_of, ended_nodes, not_closed_at, closed_at, closed_nodes, after_refusal, row_for};

use headings::NoHead;
use refusals::{NO_NODE_ROW, NOT_CLOSED};
use sorts::{CLOSE, Taken};
use token::Refusal;
use tokenizer::{Cursor, Passed};

// The cursor that a reader stands at, and how many rows are used.
#[derive(Clone, Copy)]
pub struct State {
    pub cursor: Cursor,
    pub nodes: usize,
    pub numbers: usize,
}

// A state where nothing is held: a place is enough.
#[derive(Clone, Copy)]
pub struct Spot {
    pub at: usize,
    pub nodes: usize,
    pub numbers: usize,
}

// Why a part was not read: after `Refused` the closing token is still taken, from the cursor; `Stopped` ends the reading at
// once. Behind a part that was read nothing is held: it ended at a spot.
#[derive(Clone, Copy)]
pub enum Unread {
    Refused(Refusal, Cursor),
    Stopped(Refusal, Cursor),
}

// What has no heading is refused.
impl From<NoHead> for Unread {
    ghost from_gives = { λ e u. u ≡ Refused e.refusal e.next };

    fn from(e: NoHead) -> Unread {
        Unread::Refused(e.refusal, e.next)
    }
}

// The same rows used, at another place.
pub fn moved(at: usize, s: Spot) -> Spot
    ensures { result ≡ spot at s.nodes s.numbers }
{
    Spot {
        at,
        nodes: s.nodes,
        numbers: s.numbers,
    }
}

// The same rows used, at a cursor.
pub fn at_cursor(cursor: Cursor, s: Spot) -> State
    ensures { result ≡ state cursor s.nodes s.numbers }
{
    State {
        cursor,
        nodes: s.nodes,
        numbers: s.numbers,
    }
}

// The state of a spot.
pub fn state_of(s: Spot) -> State
    ensures { result ≡ state_of s }
{
    State {
        cursor: Cursor::new(s.at),
        nodes: s.nodes,
        numbers: s.numbers,
    }
}

// The place of a state, and the rows used.
pub fn spot_of(s: State) -> Spot
    ensures { result ≡ spot s.cursor.at s.nodes s.numbers }
{
    let cursor = s.cursor;
    Spot {
        at: cursor.at,
        nodes: s.nodes,
        numbers: s.numbers,
    }
}

// What follows a part that was read up to `end`: a comma is passed over, any other token is held.
pub fn after_part(text: &[u8], end: Spot) -> Passed
    ensures { result ≡ pass_comma text.now (cursor_at end.at) }
{
    let cursor = Cursor::new(end.at);
    cursor.pass_comma(text)
}

// A node that was read up to `end`: its row is closed.
pub fn ended(nodes: &mut [u32], row: usize, parts: u32, end: Spot) -> Result<Spot, Unread>
    ensures { (result ≡ Ok end) × (nodes.new ≡ ended_nodes nodes.old row parts end) }
{
    store::close_row(nodes, row, parts);
    Ok(end)
}

// What was taken in the closing token's place, and is not it.
fn not_closed(text: &[u8], token: Taken) -> Result<Spot, Unread>
    ensures { result ≡ not_closed_at text.now token }
{
    Err(Unread::Refused(
        sorts::refusal_at(text, NOT_CLOSED, token.sort, token.place),
        Cursor::new(token.at),
    ))
}

// The closing token behind a body that was read, and the end of its node.
pub fn closing(
    text: &[u8],
    nodes: &mut [u32],
    row: usize,
    parts: u32,
    s: State,
) -> Result<Spot, Unread>
    ensures { (result ≡ closed_at text.now s) × (nodes.new ≡ closed_nodes text.now s nodes.old row parts) }
{
    let cursor = s.cursor;
    let rows = s.nodes;
    let used = s.numbers;
    // Most often it is held, or stands right behind the body.
    let at = match cursor.closes(text) {
        Some(at) => at,
        None => {
            let token = sorts::take(text, cursor);
            if token.sort != CLOSE {
                return not_closed(text, token);
            }
            token.at
        }
    };
    ended(
        nodes,
        row,
        parts,
        Spot {
            at,
            nodes: rows,
            numbers: used,
        },
    )
}

// The closing token behind a body that was not read: it is taken also where the body was refused.
pub fn after_refusal(text: &[u8], got: Result<Spot, Unread>) -> Result<Spot, Unread>
    ensures { result ≡ after_refusal text.now got }
{
    match got {
        Ok(_) => got,
        Err(Unread::Refused(r, cursor)) => {
            let token = sorts::take(text, cursor);
            if token.sort == CLOSE {
                Err(Unread::Refused(r, Cursor::new(token.at)))
            } else {
                not_closed(text, token)
            }
        }
        Err(Unread::Stopped(_, _)) => got,
    }
}

// A node for what stands at `place`: its row is opened and used, or there is none.
pub fn open_node(
    nodes: &mut [u32],
    kind: u32,
    dimension: u32,
    place: usize,
    s: Spot,
) -> Result<Spot, Unread>
    ensures { (result ≡ row_for nodes.old place s) × (nodes.new ≡ open_row nodes.old s.nodes kind dimension) }
{
    let row = s.nodes;
    let room = store::node_room(nodes);
    store::open_row(nodes, row, kind, dimension);
    if row < room {
        return Ok(Spot {
            at: s.at,
            nodes: row + 1,
            numbers: s.numbers,
        });
    }
    Err(Unread::Stopped(
        Refusal {
            number: NO_NODE_ROW,
            place,
        },
        Cursor::new(s.at),
    ))
}
