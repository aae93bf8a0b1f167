// Explains a refusal as an editor needs it: its number, place and message, the line around the place, and a caret
// under the character at fault. `GEOMETRYCOLLECTION(京(1 2))` is explained as
//
//   refused 13 22: Missing closing parenthesis for type
//   GEOMETRYCOLLECTION(京(1 2))
//                        ^
//
// a number that goes wrong, as in `POINT(1 4x)`, with what was expected there,
//
//   refused 29 9: Unable to parse input number as the desired output type: nothing more was expected
//   POINT(1 4x)
//            ^
//
// and of a text that is read the counts of its nodes and numbers are told, as in `accepted 1 2`.
#![tactic(auto)]

mod characters;

use characters::put_part;
use console::{
    INPUT_BYTES, INPUT_LIMIT, NODE_PLACES, NUMBER_PLACES, is_over, put_line, put_refusal,
    read_input,
};
use expected::{expected_of, number_of};
use line_places::next_begin;
use messages::put_told;
use printing::Out;
use refusals::TEXT_TOO_LONG;

const OUTPUT_BYTES: usize = 4_096;

// How many bytes of a line are shown before a place and from it on, up to the character's end.
const SHOWN_BYTES: usize = 32;

// What stands for the bytes that are cut: as many dots, up to three. Under them stand blanks.
const DOTS: [u8; 3] = *b"...";

const BLANKS: [u8; 3] = *b"   ";

// The last characters before a place, or the blanks under them, behind a mark for what is cut.
fn put_before(out: &mut Out, before: &[u8], under: bool, mark: &[u8]) {
    let from = next_begin(before, before.len() - SHOWN_BYTES.min(before.len()));
    let cut = from.min(mark.len());
    out.put(&mark[0..cut]);
    put_part(out, &before[from..], under);
}

// The first characters from a place on, and dots for what is cut.
fn put_behind(out: &mut Out, behind: &[u8]) {
    let to = next_begin(behind, SHOWN_BYTES);
    put_part(out, &behind[0..to], false);
    let cut = DOTS.len().min(behind.len() - to);
    out.put(&DOTS[0..cut]);
}

fn put_shown_line(out: &mut Out, before: &[u8], behind: &[u8]) {
    put_before(out, before, false, &DOTS);
    put_behind(out, behind);
    out.put(b"\n");
}

fn put_caret(out: &mut Out, before: &[u8]) {
    put_before(out, before, true, &BLANKS);
    out.put(b"^\n");
}

// The line that `place` stands in, and a caret under it.
fn put_place(out: &mut Out, text: &[u8], place: usize) {
    let shown = line_places::shown_place(text, place);
    let head = &text[0..shown];
    let tail = &text[shown..];
    let start = line_places::line_start(head);
    let stop = line_places::line_end(tail, 0);
    put_shown_line(out, &head[start..], &tail[0..stop]);
    put_caret(out, &head[start..]);
}

fn put_explained(out: &mut Out, text: &[u8], number: u32, place: usize) {
    put_refusal(out, number, place, b": ");
    let expected = number_of(expected_of(text, number, place));
    put_told(out, number, expected);
    put_place(out, text, place);
}

fn put_answer(out: &mut Out, text: &[u8], nodes: &mut [u32], numbers: &mut [u32]) {
    if is_over(text) {
        put_explained(out, text, TEXT_TOO_LONG, INPUT_LIMIT);
        return;
    }
    let read = wkt::read(text, nodes, numbers);
    if read.number == 0 {
        put_line(out, b"accepted", read.nodes, read.numbers, b"\n");
    } else {
        put_explained(out, text, read.number, read.place);
    }
}

// The slices come as arrays, whose types tell their lengths.
fn print_answer(
    text: &[u8],
    nodes: &mut [u32; NODE_PLACES],
    numbers: &mut [u32; NUMBER_PLACES],
    bytes: &mut [u8; OUTPUT_BYTES],
) {
    let mut out = Out::new(bytes);
    put_answer(&mut out, text, nodes, numbers);
    out.flush();
}

fn main() {
    let mut input = [0u8; INPUT_BYTES];
    let mut nodes = [0u32; NODE_PLACES];
    let mut numbers = [0u32; NUMBER_PLACES];
    let mut bytes = [0u8; OUTPUT_BYTES];
    let count = read_input(&mut input);
    print_answer(&input[..count], &mut nodes, &mut numbers, &mut bytes);
}
