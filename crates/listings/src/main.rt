// Lists many texts, for the gate: what `listing` prints of each, by the same code and with the same rooms, and an
// empty line behind it. Standard input has records: a u32, little-endian, with the count of the bytes that follow,
// and those bytes, which are a text. `tools/listings` makes the input and what must be printed.
#![tactic(auto)]

use console::{NODE_PLACES, NUMBER_PLACES, U32_BYTES, u32_at};
use printing::{Out, STDIN_FILENO};
use row_lines::list;

const INPUT_BYTES: usize = 524_288;

const OUTPUT_BYTES: usize = 65_536;

// The record at a place begins with its count, and a text of so many bytes follows; both are cut where the input ends.
fn list_all(input: &[u8], nodes: &mut [u32], numbers: &mut [u32], out: &mut Out) {
    // Kept (3): each turn goes on by as many bytes as its record has, so there is no range to count.
    let mut at = 0;
    while at < input.len() {
        let start = at + U32_BYTES.min(input.len() - at);
        let count = u32_at(input, at) as usize;
        let end = start + count.min(input.len() - start);
        list(&input[start..end], nodes, numbers, out);
        out.put(b"\n");
        at = end;
    }
}

// The buffers come as arrays, whose types tell their lengths: lent as slices, the proof of `main` would have to count them out.
fn run(
    input: &mut [u8; INPUT_BYTES],
    nodes: &mut [u32; NODE_PLACES],
    numbers: &mut [u32; NUMBER_PLACES],
    bytes: &mut [u8; OUTPUT_BYTES],
) {
    let count = io::read_full(STDIN_FILENO, input);
    let mut out = Out::new(bytes);
    list_all(&input[..count], nodes, numbers, &mut out);
    out.flush();
}

fn main() {
    let mut input = [0u8; INPUT_BYTES];
    let mut nodes = [0u32; NODE_PLACES];
    let mut numbers = [0u32; NUMBER_PLACES];
    let mut bytes = [0u8; OUTPUT_BYTES];
    run(&mut input, &mut nodes, &mut numbers, &mut bytes);
}
