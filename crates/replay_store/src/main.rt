// Answers the records of the store's functions on standard input, a line each, by calls of the proved functions (records: what a record is). A letter has
// an arm in `answer` and a file:
//
//   b  boxes.rt
//
// A record that is cut, too large or of another letter is answered `bad record`. What a letter lends is an array of its own, made anew for each record, as
// in `replay`.
#![tactic(auto)]

mod boxes;

use printing::Out;
use records::input::{INPUT_BYTES, OUT_BYTES, answer_records};
use records::lines::put_bad_record;

// The line of a record, given what follows its count.
fn answer(record: &[u8], out: &mut Out) {
    if record.len() == 0 {
        put_bad_record(out);
        return;
    }
    match record[0] {
        b'b' => boxes::answer(record, out),
        _ => put_bad_record(out),
    }
}

fn main() {
    let mut input = [0u8; INPUT_BYTES];
    let mut bytes = [0u8; OUT_BYTES];
    answer_records(&mut input, &mut bytes, answer);
}
