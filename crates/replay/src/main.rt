// Answers the records on standard input, a line each, by calls of the proved functions (records: what a record is). A letter has an arm in `answer`
// and a file:
//
//   t, p  tokens.rt
//   r     reading.rt
//   w     writing.rt
//   s     checking.rt
//   i     inferred.rt
//
// A record that is cut, too large or of another letter is answered `bad record`. What a letter lends is an array of its own,
// made anew for each record: passed down from `main`, five buffers would make each function on the way slow to prove.
#![tactic(auto)]

mod checking;
mod found;
mod inferred;
mod reading;
mod tokens;
mod writing;

use printing::Out;
use records::input::{INPUT_BYTES, OUT_BYTES, answer_records};
use records::lines::put_bad_record;
use tokens::Asking;

// The line of a record, given what follows its count.
fn answer(record: &[u8], out: &mut Out) {
    if record.len() == 0 {
        put_bad_record(out);
        return;
    }
    match record[0] {
        b't' => tokens::answer(record, Asking::Take, out),
        b'p' => tokens::answer(record, Asking::LookAndTake, out),
        b'r' => reading::answer(record, out),
        b'w' => writing::answer(record, out),
        b's' => checking::answer(record, out),
        b'i' => inferred::answer(record, out),
        _ => put_bad_record(out),
    }
}

fn main() {
    let mut input = [0u8; INPUT_BYTES];
    let mut bytes = [0u8; OUT_BYTES];
    answer_records(&mut input, &mut bytes, answer);
}
