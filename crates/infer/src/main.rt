// Prints the kind and the dimension that the front of the text on standard input names, as `POINT XYZ`,
// or the refusal's number and place, as `refused 19 0`.
#![tactic(auto)]

use console::{INPUT_BYTES, is_over, put_refusal, put_too_long, read_input};
use infer_type::Inferred;
use kinds::KIND_POINT;
use names::{ENDING_COUNT, ENDING_LENGTHS, ENDINGS, NAME_COUNT, NAME_LENGTHS, NAMES};
use printing::Out;

const OUTPUT_BYTES: usize = 64;

fn put_letters(out: &mut Out, letters: &[u8], length: u8) {
    let end = letters.len().min(length as usize);
    out.put(&letters[0..end]);
}

// By infer_type's answers a kind is one of the seven, and a dimension one of the four.
fn put_kind(out: &mut Out, kind: u32) {
    if kind < KIND_POINT {
        return;
    }
    let row = (kind - KIND_POINT) as usize;
    if row < NAME_COUNT {
        put_letters(out, &NAMES[row], NAME_LENGTHS[row]);
    }
}

fn put_ending(out: &mut Out, dimension: u32) {
    let row = dimension as usize;
    if row < ENDING_COUNT {
        put_letters(out, &ENDINGS[row], ENDING_LENGTHS[row]);
    }
}

fn put_inferred(out: &mut Out, inferred: Inferred) {
    if inferred.number != 0 {
        put_refusal(out, inferred.number, inferred.place, b"\n");
        return;
    }
    put_kind(out, inferred.kind);
    out.put(b" XY");
    put_ending(out, inferred.dimension);
    out.put(b"\n");
}

fn print_inferred(text: &[u8], bytes: &mut [u8; OUTPUT_BYTES]) {
    let mut out = Out::new(bytes);
    if is_over(text) {
        put_too_long(&mut out);
    } else {
        put_inferred(&mut out, infer_type::infer_type(text));
    }
    out.flush();
}

fn main() {
    let mut input = [0u8; INPUT_BYTES];
    let mut bytes = [0u8; OUTPUT_BYTES];
    let count = read_input(&mut input);
    print_inferred(&input[..count], &mut bytes);
}
