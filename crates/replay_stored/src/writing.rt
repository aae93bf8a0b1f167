// The letter `S`: the stored writer, lent the rows of the record and an output that is full of ones. Fields: version, output
// length, node slice length, number slice length; the rows of both slices stand behind them.
use printing::Out;
use records::lines::{put_bad_record, put_written};
use records::parts::{MAX_OUTPUT, SECOND, THIRD, behind, field};
use records::slices::{MAX_SLICE, load};
use store::WriteAnswer;
use stored_form::Edition;

fn write_version(
    text: &[u8],
    nodes: &[u32],
    numbers: &[u32],
    edition: Edition,
    output: &mut [u8],
) -> WriteAnswer {
    match edition {
        Edition::First => stored::write_1(text, nodes, numbers, output),
        Edition::Second => stored::write_2(text, nodes, numbers, output),
    }
}

fn write_and_put(
    text: &[u8],
    nodes: &[u32],
    numbers: &[u32],
    edition: Edition,
    output: &mut [u8],
    out: &mut Out,
) {
    let answer = write_version(text, nodes, numbers, edition, output);
    put_written(out, answer, output);
}

// The line of a record of this letter.
pub(crate) fn answer(record: &[u8], edition: Edition, out: &mut Out) {
    let bytes = field(record, SECOND);
    if MAX_OUTPUT < bytes {
        put_bad_record(out);
        return;
    }
    let mut nodes = [0u32; MAX_SLICE];
    let mut numbers = [0u32; MAX_SLICE];
    let mut output = [u8::MAX; MAX_OUTPUT];
    let slices = behind(record, THIRD);
    match load(slices, &mut nodes, &mut numbers) {
        Some(brought) => write_and_put(
            &slices[brought.text..],
            &nodes[0..brought.nodes],
            &numbers[0..brought.numbers],
            edition,
            &mut output[0..bytes],
            out,
        ),
        None => put_bad_record(out),
    }
}
