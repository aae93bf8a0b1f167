// The letter `s`: the strict check, lent the rows of the record. Fields: node slice length, number slice length; the rows
// of both stand behind them.
use printing::Out;
use records::lines::{put_bad_record, put_three};
use records::parts::{FIRST, behind};
use records::slices::{MAX_SLICE, load};
use strict::StrictAnswer;

fn put_answer(out: &mut Out, answer: StrictAnswer) {
    put_three(
        out,
        answer.number as usize,
        usize::from(answer.letter),
        answer.row,
    );
    out.put(b"\n");
}

// The line of a record of this letter.
pub(crate) fn answer(record: &[u8], out: &mut Out) {
    let mut nodes = [0u32; MAX_SLICE];
    let mut numbers = [0u32; MAX_SLICE];
    let slices = behind(record, FIRST);
    match load(slices, &mut nodes, &mut numbers) {
        Some(brought) => {
            let answer = strict::strict(
                &slices[brought.text..],
                &nodes[0..brought.nodes],
                &numbers[0..brought.numbers],
            );
            put_answer(out, answer);
        },
        None => put_bad_record(out),
    }
}
