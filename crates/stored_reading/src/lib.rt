// Reading a stored tree: the head, then every field is looked at before a row is asked for, then the rows are put. The reader is one for all versions of
// the form.
#![tactic(auto)]

ghost use Rattle.std.specs.Prelude.{◌≡◌, true, ◌≤◌, ◌<◌, ◌^◌, length};
ghost use Rattle.store.specs.Rows.{node_room, number_room, flat_rows, flat_spans};
ghost use Rattle.store.specs.Answers.{Leaves};
ghost use Rattle.stored_form.specs.Form.{version_of, first_node};
ghost use Rattle.stored_form.specs.Reading.{head_in, nodes_from, numbers_from, place_after, reading_of, Right};
ghost use Rattle.stored_reading.specs.Looks.{nodes_seen, Looked, Filled};

use fields::HEAD;
use refusals::{
    FAULTY_FIELD, ILL_FORMED_STORE, NO_NODE_ROW, NO_NUMBER_ROW, TEXT_TOO_LONG, UNKNOWN_VERSION,
};
use store::ReadAnswer;
use stored_form::{Counts, Edition, HEAD_TAG, NODE_TAG, Refusal, Seen};
use walk::{FRAMES, NO_FRAME};

// Where the version stands, and where the counts begin.
const VERSION_AT: usize = 3;

const COUNTS_AT: usize = 4;

// The bytes of a node before its parts: kind and dimension.
const BEFORE_PARTS: usize = 2;

// How many fields there are, and where those of the numbers begin.
#[derive(Clone, Copy)]
struct Layout {
    counts: Counts,
    middle: usize,
}

// Where the node fields begin, behind a head whose counts have so many bytes.
fn first_node(width: usize) -> usize
    requires { width ≤ 4 }
    ensures { result ≡ first_node width }
{
    COUNTS_AT + 2 * width
}

// How many nodes and numbers the head tells of.
fn look_at_head(bytes: &[u8], edition: Edition) -> Result<Counts, Refusal>
    ensures { result ≡ head_in (version_of edition) bytes.now }
{
    let v = stored_form::version_of(edition);
    let len = bytes.len();
    if v.limit < len {
        return Err(Refusal {
            number: TEXT_TOO_LONG,
            place: v.limit,
        });
    }
    if VERSION_AT < len {
        if (bytes[0] == HEAD_TAG) & (bytes[VERSION_AT] != v.number) {
            return Err(Refusal {
                number: UNKNOWN_VERSION,
                place: VERSION_AT,
            });
        }
    }
    if !fields::is_sized(bytes, 0, HEAD_TAG, 1 + 2 * v.width) {
        return Err(Refusal {
            number: FAULTY_FIELD,
            place: 0,
        });
    }
    let middle = COUNTS_AT + v.width;
    let end = middle + v.width;
    Ok(Counts {
        nodes: fields::count_in(&bytes[COUNTS_AT..middle]) as usize,
        numbers: fields::count_in(&bytes[middle..end]) as usize,
    })
}

// The node fields that a head with these counts tells of: whether they are one tree that needs so many numbers. Fields after the one that makes it none are
// still looked at: a faulty one is told first.
fn look_at_nodes(bytes: &[u8], width: usize, c: Counts) -> Result<Seen, Refusal>
    requires { (width ≤ 4) × (c.nodes < 2 ^ 32) }
    ensures { result ≡ nodes_seen width bytes.now (first_node width) c.nodes c.numbers }
{
    let mut frames = [NO_FRAME; FRAMES];
    let mut w = walk::start(&mut frames);
    let mut well = true;
    let mut at = first_node(width);
    for _ in 0..c.nodes {
        if !fields::is_sized(bytes, at, NODE_TAG, BEFORE_PARTS + width) {
            return Err(Refusal {
                number: FAULTY_FIELD,
                place: at,
            });
        }
        let content = at + HEAD;
        let parts = content + BEFORE_PARTS;
        let end = parts + width;
        if well {
            well = walk::advance(
                &mut frames,
                c.numbers,
                &mut w,
                bytes[content] as u32,
                bytes[content + 1] as u32,
                fields::count_in(&bytes[parts..end]),
            );
        }
        at = end;
    }
    Ok(Seen {
        well: well & walk::has_ended(&frames, c.numbers, w),
        end: at,
    })
}

// The place of the number field after `count` others.
fn place_after(bytes: &[u8], first: usize, count: usize) -> usize
    requires { Right (numbers_from bytes.now first count) }
    ensures { result ≡ place_after bytes.now first count }
{
    let mut at = first;
    for _ in 0..count {
        let start = at + HEAD;
        at = start + (fields::count_in(&bytes[at + 1..start]) as usize);
    }
    at
}

// Every field is looked at before a row is asked for, of which there are so many. What is found is the fields of one tree, for each of which there is a row.
fn look_at_fields(
    bytes: &[u8],
    edition: Edition,
    node_room: usize,
    number_room: usize,
) -> Result<Layout, Refusal>
    ensures { Looked (version_of edition) node_room number_room bytes.now result }
{
    let width = stored_form::version_of(edition).width;
    let counts = look_at_head(bytes, edition)?;
    let nodes = look_at_nodes(bytes, width, counts)?;
    let numbers = stored_numbers::look_at_numbers(bytes, nodes.end, counts.numbers)?;
    if !(nodes.well & numbers.well) {
        return Err(Refusal {
            number: ILL_FORMED_STORE,
            place: 0,
        });
    }
    if node_room < counts.nodes {
        return Err(Refusal {
            number: NO_NODE_ROW,
            place: first_node(width) + node_room * (HEAD + BEFORE_PARTS + width),
        });
    }
    if number_room < counts.numbers {
        return Err(Refusal {
            number: NO_NUMBER_ROW,
            place: place_after(bytes, nodes.end, number_room),
        });
    }
    Ok(Layout {
        counts,
        middle: nodes.end,
    })
}

fn fill_nodes(bytes: &[u8], width: usize, count: usize, nodes: &mut [u32])
    requires { (width ≤ 4) × (count ≤ node_room nodes.old) × Right (nodes_from width bytes.now (first_node width) count) }
    ensures { Filled flat_rows (nodes_from width bytes.now (first_node width) count) nodes.old nodes.new }
{
    let mut at = first_node(width);
    for i in 0..count {
        let content = at + HEAD;
        let parts = content + BEFORE_PARTS;
        let end = parts + width;
        store::put_row(
            nodes,
            i,
            bytes[content] as u32,
            bytes[content + 1] as u32,
            fields::count_in(&bytes[parts..end]),
        );
        at = end;
    }
    store::clear(nodes, store::node_places(nodes, count));
}

fn fill_numbers(bytes: &[u8], first: usize, count: usize, numbers: &mut [u32])
    requires { (length bytes.now < 2 ^ 32) × (count ≤ number_room numbers.old) × Right (numbers_from bytes.now first count) }
    ensures { Filled flat_spans (numbers_from bytes.now first count) numbers.old numbers.new }
{
    let mut at = first;
    for i in 0..count {
        let start = at + HEAD;
        let length = fields::count_in(&bytes[at + 1..start]);
        store::put_number(numbers, i, start as u32, length);
        at = start + (length as usize);
    }
    store::clear(numbers, store::number_places(numbers, count));
}

// Reads stored bytes of a version into rows of both slices. Spans point into `bytes`. Every place after the used rows is zero, and on a refusal every
// place.
pub fn read(bytes: &[u8], edition: Edition, nodes: &mut [u32], numbers: &mut [u32]) -> ReadAnswer
    ensures { Leaves (reading_of (version_of edition) (node_room nodes.old) (number_room numbers.old) bytes.now) nodes.old numbers.old result nodes.new numbers.new }
{
    let node_room = store::node_room(nodes);
    let number_room = store::number_room(numbers);
    match look_at_fields(bytes, edition, node_room, number_room) {
        Err(refusal) => store::refuse(nodes, numbers, refusal.number, refusal.place),
        Ok(layout) => {
            let c = layout.counts;
            let width = stored_form::version_of(edition).width;
            fill_nodes(bytes, width, c.nodes, nodes);
            fill_numbers(bytes, layout.middle, c.numbers, numbers);
            ReadAnswer {
                number: 0,
                place: 0,
                nodes: c.nodes,
                numbers: c.numbers,
            }
        }
    }
}
