// The letter `b`: the boxes, lent the rows of the record and a table that is full of ones. Fields: table length, node slice length, number slice length;
// the rows of both slices stand behind them.
use bounds::{BOX_WIDTH, BoxAnswer};
use printing::Out;
use records::lines::{put_bad_record, put_left_over};
use records::parts::{FIRST, SECOND, behind, field};
use records::slices::{MAX_SLICE, load};
use signed_lines::places::{put_signed_places, signed_left};

// Every bit.
const ONES: i64 = -1;

// How many places of the table are told: those of the nodes' rows, of a refusal none.
fn told(answer: BoxAnswer, nodes: &[u32], table: &[i64]) -> usize {
    if answer.number == 0 {
        return store::node_room(nodes).min(table.len() / BOX_WIDTH) * BOX_WIDTH;
    }
    0
}

// The told places, each after a space, or nothing after a space.
fn put_rows(out: &mut Out, table: &[i64], used: usize) {
    out.put(b" ;");
    if used == 0 {
        out.put(b" ");
    } else {
        put_signed_places(out, table, used);
    }
}

// `NUMBER PLACE ; table rows ; K`
fn put_boxes(out: &mut Out, answer: BoxAnswer, table: &[i64], used: usize) {
    out.put_number(answer.number as usize);
    out.put_spaced(answer.place);
    put_rows(out, table, used);
    put_left_over(out, signed_left(table, used));
}

fn fill_and_put(text: &[u8], nodes: &[u32], numbers: &[u32], table: &mut [i64], out: &mut Out) {
    let answer = node_boxes::boxes(text, nodes, numbers, table);
    put_boxes(out, answer, table, told(answer, nodes, table));
}

// The line of a record of this letter.
pub(crate) fn answer(record: &[u8], out: &mut Out) {
    let places = field(record, FIRST);
    if MAX_SLICE < places {
        put_bad_record(out);
        return;
    }
    let mut nodes = [0u32; MAX_SLICE];
    let mut numbers = [0u32; MAX_SLICE];
    let mut table = [ONES; MAX_SLICE];
    let slices = behind(record, SECOND);
    match load(slices, &mut nodes, &mut numbers) {
        Some(brought) => fill_and_put(
            &slices[brought.text..],
            &nodes[0..brought.nodes],
            &numbers[0..brought.numbers],
            &mut table[0..places],
            out,
        ),
        None => put_bad_record(out),
    }
}
