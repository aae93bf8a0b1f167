// Checks the geometry that the text on standard input begins with by the strict rules: `strict ok`, the letter of
// the first rule that fails and the row of its node, or the refusal's number and place.
// `POLYGON((0 0,1 0,1 1,0 1))` is `strict C 1`, since its ring isn't closed.
#![tactic(auto)]

use console::{
    INPUT_BYTES, NODE_PLACES, NUMBER_PLACES, is_over, put_refusal, put_too_long, read_input,
};
use printing::Out;
use store::ReadAnswer;
use strict::StrictAnswer;

const OUTPUT_BYTES: usize = 64;

fn put_strict(out: &mut Out, answer: StrictAnswer) {
    if answer.number != 0 {
        put_refusal(out, answer.number, 0, b"\n");
    } else if answer.letter == 0 {
        out.put(b"strict ok\n");
    } else {
        out.put(b"strict ");
        out.put(&[answer.letter]);
        out.put_spaced(answer.row);
        out.put(b"\n");
    }
}

// What the rules say of the rows that were read.
fn put_checked(out: &mut Out, text: &[u8], nodes: &[u32], numbers: &[u32], read: ReadAnswer) {
    let node_places = store::node_places(nodes, read.nodes);
    let number_places = store::number_places(numbers, read.numbers);
    let answer = strict::strict(text, &nodes[0..node_places], &numbers[0..number_places]);
    put_strict(out, answer);
}

fn put_check(out: &mut Out, text: &[u8], nodes: &mut [u32], numbers: &mut [u32]) {
    if is_over(text) {
        put_too_long(out);
        return;
    }
    let read = wkt::read(text, nodes, numbers);
    if read.number == 0 {
        put_checked(out, text, nodes, numbers, read);
    } else {
        put_refusal(out, read.number, read.place, b"\n");
    }
}

// The buffers come as arrays, whose types tell their lengths.
fn print_check(
    text: &[u8],
    nodes: &mut [u32; NODE_PLACES],
    numbers: &mut [u32; NUMBER_PLACES],
    bytes: &mut [u8; OUTPUT_BYTES],
) {
    let mut out = Out::new(bytes);
    put_check(&mut out, text, nodes, numbers);
    out.flush();
}

fn main() {
    let mut input = [0u8; INPUT_BYTES];
    let mut nodes = [0u32; NODE_PLACES];
    let mut numbers = [0u32; NUMBER_PLACES];
    let mut bytes = [0u8; OUTPUT_BYTES];
    let count = read_input(&mut input);
    print_check(&input[..count], &mut nodes, &mut numbers, &mut bytes);
}
