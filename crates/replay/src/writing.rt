// The letter `w`: the writer, lent the rows of the record and an output that is full of ones. Fields: output length, node
// slice length, number slice length; the rows of both slices stand behind them.
use printing::Out;
use records::lines::{put_bad_record, put_written};
use records::parts::{FIRST, MAX_OUTPUT, SECOND, behind, field};
use records::slices::{MAX_SLICE, load};

fn write_and_put(text: &[u8], nodes: &[u32], numbers: &[u32], output: &mut [u8], out: &mut Out) {
    let answer = to_wkt::write(text, nodes, numbers, output);
    put_written(out, answer, output);
}

// The line of a record of this letter.
pub(crate) fn answer(record: &[u8], out: &mut Out) {
    let bytes = field(record, FIRST);
    if MAX_OUTPUT < bytes {
        put_bad_record(out);
        return;
    }
    let mut nodes = [0u32; MAX_SLICE];
    let mut numbers = [0u32; MAX_SLICE];
    let mut output = [u8::MAX; MAX_OUTPUT];
    let slices = behind(record, SECOND);
    match load(slices, &mut nodes, &mut numbers) {
        Some(brought) => write_and_put(
            &slices[brought.text..],
            &nodes[0..brought.nodes],
            &numbers[0..brought.numbers],
            &mut output[0..bytes],
            out,
        ),
        None => put_bad_record(out),
    }
}
