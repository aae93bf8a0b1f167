// The letter `L`: the stored reader, lent two slices that are full of ones. Fields: version, node slice length, number
// slice length.
use printing::Out;
use records::lines::{put_bad_record, put_read};
use records::parts::{SECOND, behind};
use records::slices::{MAX_SLICE, lent};
use store::ReadAnswer;
use stored_form::Edition;

fn read_version(
    data: &[u8],
    edition: Edition,
    nodes: &mut [u32],
    numbers: &mut [u32],
) -> ReadAnswer {
    match edition {
        Edition::First => stored::read_1(data, nodes, numbers),
        Edition::Second => stored::read_2(data, nodes, numbers),
    }
}

fn read_and_put(
    data: &[u8],
    edition: Edition,
    nodes: &mut [u32],
    numbers: &mut [u32],
    out: &mut Out,
) {
    let answer = read_version(data, edition, nodes, numbers);
    put_read(out, answer, nodes, numbers);
}

// The line of a record of this letter.
pub(crate) fn answer(record: &[u8], edition: Edition, out: &mut Out) {
    let mut nodes = [u32::MAX; MAX_SLICE];
    let mut numbers = [u32::MAX; MAX_SLICE];
    let slices = behind(record, SECOND);
    match lent(slices) {
        Some(asked) => read_and_put(
            &slices[asked.text..],
            edition,
            &mut nodes[0..asked.nodes],
            &mut numbers[0..asked.numbers],
            out,
        ),
        None => put_bad_record(out),
    }
}
