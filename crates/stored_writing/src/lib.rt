// Writing a store as stored bytes: it is checked, then measured, then its fields are put. And moving stored bytes to another version: they are read into a
// store, of which head and nodes are put anew, and their number fields, which are the same in every version, are copied. Both are one for all versions of the form.
#![tactic(auto)]

ghost use Rattle.std.specs.Prelude.{◌≡◌, false, ◌≤◌, ◌<◌, ◌^◌, length};
ghost use mathlib.Core.List.{◌++◌, flat_map};
ghost use Rattle.lists.specs.Lists.{All};
ghost use Rattle.store.specs.Rows.{node_room, number_room, cleared};
ghost use Rattle.store.specs.Answers.{wrote, Writes};
ghost use Rattle.pen.specs.Pen.{pen, Emits};
ghost use Rattle.shape.specs.Store.{all_rows, all_texts};
ghost use Rattle.stored_form.specs.Form.{version_of, head_field, node_field, number_field, node_place, stored_of};
ghost use Rattle.stored_moves.specs.Moving.{move_answer, refused, moving_of, Moves};
ghost use Rattle.stored_writing.specs.Writing.{lengths_in, numbers_measure, measure_of, SmallRow, RowsFit, rows_before, StoredIn};

use fields::{HEAD, LONGEST};
use pen::Pen;
use refusals::{DOES_NOT_FIT, ILL_FORMED_STORE, NO_ROOM};
use store::WriteAnswer;
use stored_form::{Edition, HEAD_TAG, NODE_TAG, NUMBER_TAG};
use stored_moves::MoveAnswer;

// The most bytes that a head's content can have, and a node's: with counts of four bytes.
// Kept (6): their contents lie in arrays of that length, and the part in use is borrowed from them: no heap.
const HEAD_CONTENT: usize = 9;

const NODE_CONTENT: usize = 6;

// How many bytes the number fields have; one more than the limit where a text doesn't fit a field, or where all of them don't fit the limit.
fn measure_numbers(numbers: &[u32], limit: usize) -> usize
    requires { limit < 2 ^ 32 }
    ensures { result ≡ numbers_measure limit (lengths_in numbers.now) }
{
    let mut bytes = 0;
    for i in 0..store::number_room(numbers) {
        let length = store::length_at(numbers, i) as usize;
        if LONGEST < length {
            return limit + 1;
        }
        bytes = bytes + HEAD + length;
        if limit < bytes {
            return limit + 1;
        }
    }
    bytes
}

// Where the fields of so many nodes end, behind the head.
fn nodes_end(width: usize, count: usize) -> usize
    requires { (width ≤ 4) × (count < 2 ^ 32) }
    ensures value { result ≡ node_place width count }
    ensures upper_bound { result < 2 ^ 37 }
{
    HEAD + 1 + 2 * width + count * (HEAD + 2 + width)
}

// How many bytes the fields of a tree have; more than the limit where something doesn't fit. Parts always fit where the counts do: a node has no more
// children than there are nodes, and no more coordinates than there are numbers.
fn measure(nodes: &[u32], numbers: &[u32], edition: Edition) -> usize
    ensures { result ≡ measure_of (version_of edition) (node_room nodes.now) (lengths_in numbers.now) }
{
    let v = stored_form::version_of(edition);
    let node_count = store::node_room(nodes);
    let number_count = store::number_room(numbers);
    if (v.largest < node_count) | (v.largest < number_count) {
        return v.limit + 1;
    }
    nodes_end(v.width, node_count) + measure_numbers(numbers, v.limit)
}

fn put_head(out: &mut [u8], p: Pen, edition: Edition, nodes: usize, numbers: usize) -> Pen
    requires { (nodes ≤ (version_of edition).largest) × (numbers ≤ (version_of edition).largest) }
    ensures { Emits (λ rest. head_field (version_of edition) nodes numbers ++ rest) p out.old result out.new }
{
    let v = stored_form::version_of(edition);
    let mut content = [0u8; HEAD_CONTENT];
    let middle = 1 + v.width;
    let end = middle + v.width;
    content[0] = v.number;
    fields::put_count(&mut content[1..middle], nodes as u32);
    fields::put_count(&mut content[middle..end], numbers as u32);
    fields::put_field(out, p, HEAD_TAG, &content[..end])
}

fn put_nodes(out: &mut [u8], p: Pen, width: usize, nodes: &[u32]) -> Pen
    requires { (width ≤ 4) × All SmallRow (all_rows nodes.now) }
    ensures { Emits (λ rest. flat_map (node_field width) (all_rows nodes.now) ++ rest) p out.old result out.new }
{
    let end = 2 + width;
    let mut content = [0u8; NODE_CONTENT];
    let mut q = p;
    for i in 0..store::node_room(nodes) {
        content[0] = store::kind_at(nodes, i) as u8;
        content[1] = store::dimension_at(nodes, i) as u8;
        fields::put_count(&mut content[2..end], store::parts_at(nodes, i));
        q = fields::put_field(out, q, NODE_TAG, &content[..end]);
    }
    q
}

fn put_numbers(out: &mut [u8], p: Pen, text: &[u8], numbers: &[u32]) -> Pen
    ensures { Emits (λ rest. flat_map number_field (all_texts text.now numbers.now) ++ rest) p out.old result out.new }
{
    let count = store::number_room(numbers);
    let mut q = p;
    for i in 0..count {
        q = fields::put_field(out, q, NUMBER_TAG, shape::number_text(text, numbers, i));
    }
    q
}

// Puts the head and the node fields of a tree, which stand before its number fields.
fn put_rows(out: &mut [u8], nodes: &[u32], numbers: &[u32], edition: Edition) -> Pen
    requires { RowsFit (version_of edition) nodes.now numbers.now }
    ensures { Emits (rows_before (version_of edition) nodes.now numbers.now) (pen 0 false) out.old result out.new }
{
    let p = put_head(
        out,
        Pen { at: 0, full: false },
        edition,
        store::node_room(nodes),
        store::number_room(numbers),
    );
    put_nodes(out, p, stored_form::version_of(edition).width, nodes)
}

// What the pen has put is all: what lies after it in the room is zeroed.
fn finish(out: &mut [u8], p: Pen) -> WriteAnswer
    ensures answer { result ≡ wrote p.at }
    ensures bytes { out.new ≡ cleared out.old p.at }
{
    store::clear_any(out, p.at);
    WriteAnswer {
        number: 0,
        place: 0,
        length: p.at,
    }
}

// Writes a store as stored bytes of a version, if it is well formed and fits the version, and if there is room; what lies after them in the room is zero.
pub fn write(
    text: &[u8],
    nodes: &[u32],
    numbers: &[u32],
    edition: Edition,
    out: &mut [u8],
) -> WriteAnswer
    ensures { Writes (stored_of (version_of edition) text.now nodes.now numbers.now) (length out.old) result out.new }
{
    if !shape::check(text, nodes, numbers) {
        return pen::refuse(out, ILL_FORMED_STORE);
    }
    let bytes = measure(nodes, numbers, edition);
    if stored_form::version_of(edition).limit < bytes {
        return pen::refuse(out, DOES_NOT_FIT);
    }
    if out.len() < bytes {
        return pen::refuse(out, NO_ROOM);
    }
    let p = put_rows(out, nodes, numbers, edition);
    let q = put_numbers(out, p, text, numbers);
    finish(out, q)
}

// Writes a tree that was read from stored bytes of a version as those of another one, if it fits that and there is room. No text has to be looked at: those of the one version fit
// every other, and its number fields are the same in every version: they are copied as they stand in the source.
fn rewrite(
    source: &[u8],
    from: Edition,
    nodes: &[u32],
    numbers: &[u32],
    to: Edition,
    out: &mut [u8],
) -> WriteAnswer
    requires { StoredIn (version_of from) source.now nodes.now numbers.now }
    ensures { Writes (stored_of (version_of to) source.now nodes.now numbers.now) (length out.old) result out.new }
{
    let v = stored_form::version_of(to);
    let node_count = store::node_room(nodes);
    let number_count = store::number_room(numbers);
    if (v.largest < node_count) | (v.largest < number_count) {
        return pen::refuse(out, DOES_NOT_FIT);
    }
    let middle = nodes_end(stored_form::version_of(from).width, node_count);
    let length = nodes_end(v.width, node_count) + (source.len() - middle);
    if v.limit < length {
        return pen::refuse(out, DOES_NOT_FIT);
    }
    if out.len() < length {
        return pen::refuse(out, NO_ROOM);
    }
    let p = put_rows(out, nodes, numbers, to);
    let q = pen::put(out, p, &source[middle..]);
    finish(out, q)
}

fn refused_move(number: u32, place: usize) -> MoveAnswer
    ensures { result ≡ move_answer (refused number place) }
{
    MoveAnswer {
        number,
        place,
        length: 0,
        nodes: 0,
        numbers: 0,
    }
}

// Moves stored bytes of a version to another, through a lent store: what the reader leaves there is a well-formed store over the bytes, and is written without another check
// and without another look at its texts. The store is left so; on a refusal all of it is zero, and all of the room.
pub fn move_between(
    bytes: &[u8],
    from: Edition,
    to: Edition,
    nodes: &mut [u32],
    numbers: &mut [u32],
    out: &mut [u8],
) -> MoveAnswer
    ensures { Moves (moving_of (version_of from) (version_of to) (node_room nodes.old) (number_room numbers.old) (length out.old) bytes.now) nodes.old numbers.old (length out.old) result nodes.new numbers.new out.new }
{
    let read = stored_reading::read(bytes, from, nodes, numbers);
    if read.number != 0 {
        store::clear_any(out, 0);
        return refused_move(read.number, read.place);
    }
    let node_places = store::node_places(nodes, read.nodes);
    let number_places = store::number_places(numbers, read.numbers);
    let wrote = rewrite(
        bytes,
        from,
        &nodes[0..node_places],
        &numbers[0..number_places],
        to,
        out,
    );
    if wrote.number != 0 {
        store::clear(nodes, 0);
        store::clear(numbers, 0);
        return refused_move(wrote.number, wrote.place);
    }
    MoveAnswer {
        number: 0,
        place: 0,
        length: wrote.length,
        nodes: read.nodes,
        numbers: read.numbers,
    }
}
