// Answers the records of the stored form on standard input, a line each, by calls of the proved functions (records: what a record is). A letter has
// an arm in `answer_version` and a file; its first field is the version, of `m` that which is read:
//
//   S  writing.rt
//   L  reading.rt
//   m  moving.rt
//
// A record that is cut, too large, of another letter or of a version that there is not is answered `bad record`. What a letter lends is an array of
// its own, made anew for each record, as in `replay`.
#![tactic(auto)]

mod moving;
mod reading;
mod writing;

use printing::Out;
use records::input::{INPUT_BYTES, OUT_BYTES, answer_records};
use records::lines::put_bad_record;
use records::parts::{FIRST, field};
use stored_form::Edition;

// The line of a record of this letter and version.
fn answer_version(record: &[u8], letter: u8, edition: Edition, out: &mut Out) {
    match letter {
        b'S' => writing::answer(record, edition, out),
        b'L' => reading::answer(record, edition, out),
        b'm' => moving::answer(record, edition, out),
        _ => put_bad_record(out),
    }
}

// The line of a record, given what follows its count.
fn answer(record: &[u8], out: &mut Out) {
    if record.len() == 0 {
        put_bad_record(out);
        return;
    }
    let letter = record[0];
    match field(record, FIRST) {
        1 => answer_version(record, letter, Edition::First, out),
        2 => answer_version(record, letter, Edition::Second, out),
        _ => put_bad_record(out),
    }
}

fn main() {
    let mut input = [0u8; INPUT_BYTES];
    let mut bytes = [0u8; OUT_BYTES];
    answer_records(&mut input, &mut bytes, answer);
}
