// The lines that the boxes beside a store's nodes are told as, one for each node: its row, the number of its kind, and low X, high X, low Y and high Y as
// decimals with seven places, one space between; or `-` in place of the four where the node has no coordinates. `GEOMETRYCOLLECTION(POINT(1 -2.5),POINT EMPTY)`
// has these:
//
//   0 7 1.0000000 1.0000000 -2.5000000 -2.5000000
//   1 1 1.0000000 1.0000000 -2.5000000 -2.5000000
//   2 1 -
#![tactic(auto)]

ghost use Rattle.printing.specs.Printing.{Prints};
ghost use Rattle.box_lines.specs.Lines.{heading, pair, box_text, row_line, box_lines};

use bounds::BOX_WIDTH;
use printing::Out;
use signed_lines::numbers::{put_spaced_units, size_of};
use signed_lines::places::number_at;

// The columns of a row of the table, after its first.
const LEFT: usize = 1;

const RIGHT: usize = 2;

const BOTTOM: usize = 3;

const TOP: usize = 4;

fn put_heading(out: &mut Out, row: usize, kind: u32)
    ensures { Prints (heading row kind) out.old out.new }
{
    out.put_number(row);
    out.put_spaced(kind as usize);
}

// A low and a high side.
fn put_pair(out: &mut Out, low: i64, high: i64)
    ensures { Prints (pair low high) out.old out.new }
{
    put_spaced_units(out, low);
    put_spaced_units(out, high);
}

// What a row of the table says, which stands at the front.
fn put_box(out: &mut Out, rows: &[i64])
    ensures { Prints (box_text rows.now) out.old out.new }
{
    if size_of(number_at(rows, 0)) == 0 {
        out.put(b" -");
    } else {
        put_pair(out, number_at(rows, LEFT), number_at(rows, RIGHT));
        put_pair(out, number_at(rows, BOTTOM), number_at(rows, TOP));
    }
}

// The line of a node.
fn put_row(out: &mut Out, row: usize, kind: u32, rows: &[i64])
    ensures { Prints (row_line row kind rows.now) out.old out.new }
{
    put_heading(out, row, kind);
    put_box(out, rows);
    out.put(b"\n");
}

// The lines of so many nodes, or of as many as the table has rows.
pub fn put_boxes(out: &mut Out, nodes: &[u32], table: &[i64], rows: usize)
    ensures { Prints (box_lines nodes.now table.now rows) out.old out.new }
{
    let last = rows.min(table.len() / BOX_WIDTH);
    for row in 0..last {
        let from = row * BOX_WIDTH;
        put_row(out, row, store::kind_at(nodes, row), &table[from..]);
    }
}
