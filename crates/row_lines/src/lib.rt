// The lines that a text is listed as: its rows, a line each, or the refusal's number and place. `POINT Z(1 2 +3)` is
// listed as
//
//   accepted 1 3
//   node 1 1 1
//   number 1
//   number 2
//   number 3
//
// and `POINT(x 2)` as `refused 13 8`.
#![tactic(auto)]

ghost use Rattle.std.specs.Prelude.{◌≡◌};
ghost use Rattle.printing.specs.Printing.{held, Prints};
ghost use Rattle.row_lines.specs.Lines.{node_line, number_line, answer_line, listing_lines, Listed};

use console::{is_over, put_line, put_refusal, put_too_long};
use printing::Out;
use store::{NODE_WIDTH, ReadAnswer};

// All that the row of a node says: its numbers, column by column, each after a space.
fn put_node(out: &mut Out, nodes: &[u32], row: usize)
    ensures { Prints (node_line nodes.now row) out.old out.new }
{
    out.put(b"node");
    for column in 0..NODE_WIDTH {
        out.put_spaced(store::node_column(nodes, row, column) as usize);
    }
    out.put(b"\n");
}

// The kept text of a number.
fn put_number(out: &mut Out, text: &[u8], numbers: &[u32], row: usize)
    ensures { Prints (number_line text.now numbers.now row) out.old out.new }
{
    let start = text.len().min(store::start_at(numbers, row) as usize);
    let len = (text.len() - start).min(store::length_at(numbers, row) as usize);
    let end = start + len;
    out.put(b"number ");
    out.put(&text[start..end]);
    out.put(b"\n");
}

// The first line.
fn put_answer(out: &mut Out, answer: ReadAnswer)
    ensures { Prints (answer_line answer) out.old out.new }
{
    if answer.number == 0 {
        put_line(out, b"accepted", answer.nodes, answer.numbers, b"\n");
    } else {
        put_refusal(out, answer.number, answer.place, b"\n");
    }
}

// All lines of what was read; of what was refused there are no rows.
pub fn put_lines(out: &mut Out, answer: ReadAnswer, text: &[u8], nodes: &[u32], numbers: &[u32])
    ensures { Prints (listing_lines answer text.now nodes.now numbers.now) out.old out.new }
{
    put_answer(out, answer);
    for row in 0..answer.nodes {
        put_node(out, nodes, row);
    }
    for row in 0..answer.numbers {
        put_number(out, text, numbers, row);
    }
}

// Reads a text into lent rows, and puts its lines.
pub fn list(text: &[u8], nodes: &mut [u32], numbers: &mut [u32], out: &mut Out)
    ensures same_bytes { out.new.bytes.ghost_name ≡ out.old.bytes.ghost_name }
    ensures listed { Listed text.now nodes.old numbers.old (held out.old) nodes.new numbers.new (held out.new) }
{
    if is_over(text) {
        put_too_long(out);
        return;
    }
    let answer = wkt::read(text, nodes, numbers);
    put_lines(out, answer, text, nodes, numbers);
}
