// The letter `m`: the move from a version to another, lent two slices and an output that are full of ones. Fields: version read, version written, node slice
// length, number slice length, output length.
use console::U32_BYTES;
use printing::Out;
use records::lines::{put_bad_record, put_moved};
use records::parts::{MAX_OUTPUT, SECOND, THIRD, behind, field};
use records::slices::{MAX_SLICE, told};
use store::ReadAnswer;
use stored_form::Edition;

// The output's length stands behind those of the slices, and the stored bytes behind it.
const OUTPUT_AT: usize = 2 * U32_BYTES;

const BYTES_AT: usize = 3 * U32_BYTES;

fn move_and_put(
    data: &[u8],
    from: Edition,
    to: Edition,
    nodes: &mut [u32],
    numbers: &mut [u32],
    output: &mut [u8],
    out: &mut Out,
) {
    let answer = stored_writing::move_between(data, from, to, nodes, numbers, output);
    let read = ReadAnswer {
        number: answer.number,
        place: answer.place,
        nodes: answer.nodes,
        numbers: answer.numbers,
    };
    put_moved(out, read, answer.length, output, nodes, numbers);
}

// The line of a record of this letter and of these two versions.
fn answer_between(record: &[u8], from: Edition, to: Edition, out: &mut Out) {
    let slices = behind(record, THIRD);
    let bytes = field(slices, OUTPUT_AT);
    if MAX_OUTPUT < bytes {
        put_bad_record(out);
        return;
    }
    let mut nodes = [u32::MAX; MAX_SLICE];
    let mut numbers = [u32::MAX; MAX_SLICE];
    let mut output = [u8::MAX; MAX_OUTPUT];
    match told(slices, BYTES_AT) {
        Some(asked) => move_and_put(
            &slices[asked.text..],
            from,
            to,
            &mut nodes[0..asked.nodes],
            &mut numbers[0..asked.numbers],
            &mut output[0..bytes],
            out,
        ),
        None => put_bad_record(out),
    }
}

// The line of a record of this letter.
pub(crate) fn answer(record: &[u8], from: Edition, out: &mut Out) {
    match field(record, SECOND) {
        1 => answer_between(record, from, Edition::First, out),
        2 => answer_between(record, from, Edition::Second, out),
        _ => put_bad_record(out),
    }
}
