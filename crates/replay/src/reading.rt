// The letter `r`: the reader, lent two slices that are full of ones. Fields: node slice length, number slice length.
use printing::Out;
use records::lines::{put_bad_record, put_read};
use records::parts::{FIRST, behind};
use records::slices::{MAX_SLICE, lent};

fn read_and_put(text: &[u8], nodes: &mut [u32], numbers: &mut [u32], out: &mut Out) {
    let answer = wkt::read(text, nodes, numbers);
    put_read(out, answer, nodes, numbers);
}

// The line of a record of this letter.
pub(crate) fn answer(record: &[u8], out: &mut Out) {
    let mut nodes = [u32::MAX; MAX_SLICE];
    let mut numbers = [u32::MAX; MAX_SLICE];
    let slices = behind(record, FIRST);
    match lent(slices) {
        Some(asked) => read_and_put(
            &slices[asked.text..],
            &mut nodes[0..asked.nodes],
            &mut numbers[0..asked.numbers],
            out,
        ),
        None => put_bad_record(out),
    }
}
