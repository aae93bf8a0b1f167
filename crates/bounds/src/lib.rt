// Boxes, and rows of them in a lent table, which is filled while the nodes of a store are met.
#![tactic(auto)]

ghost use Rattle.std.specs.Prelude.{◌≡◌, ◌<◌};
ghost use Rattle.bounds.specs.Bounds.{merge, five, five_of, done_row, put_five, box_cell, bounds_at, opened, widened, widened_above, settled, closed, Refuses};

// How many numbers a row has: 1 or 0, and the four sides.
pub const BOX_WIDTH: usize = 5;

// The columns of a row, after its first: low X, high X, low Y, high Y.
const LEFT: usize = 1;

const RIGHT: usize = 2;

const BOTTOM: usize = 3;

const TOP: usize = 4;

// The sides of a box around nothing: farther in than any number's.
const EDGE: i64 = 1000000000000000000;

const NO_EDGE: i64 = -1000000000000000000;

// A box: low X, high X, low Y, high Y.
#[derive(Clone, Copy, PartialEq, Eq)]
pub struct Bounds {
    pub left: i64,
    pub right: i64,
    pub bottom: i64,
    pub top: i64,
}

// The box around nothing.
pub const NOTHING: Bounds = Bounds {
    left: EDGE,
    right: NO_EDGE,
    bottom: EDGE,
    top: NO_EDGE,
};

// What stands in the row of a node without coordinates.
const NO_BOX: Bounds = Bounds {
    left: 0,
    right: 0,
    bottom: 0,
    top: 0,
};

impl Bounds {
    // The box around both.
    pub fn around(self, other: Bounds) -> Bounds
        ensures { result ≡ merge self other }
    {
        Bounds {
            left: self.left.min(other.left),
            right: self.right.max(other.right),
            bottom: self.bottom.min(other.bottom),
            top: self.top.max(other.top),
        }
    }
}

// What the boxes answer: a refusal's number and place, or zeros.
#[derive(Clone, Copy)]
pub struct BoxAnswer {
    pub number: u32,
    pub place: usize,
}

// Puts a row. Where there is no such row nothing changes, here as below.
fn put_five(table: &mut [i64], row: usize, first: i64, b: Bounds)
    ensures { table.new ≡ put_five table.old row (five first b) }
{
    if row < table.len() / BOX_WIDTH {
        let at = row * BOX_WIDTH;
        table[at] = first;
        table[at + 1] = b.left;
        table[at + 2] = b.right;
        table[at + 3] = b.bottom;
        table[at + 4] = b.top;
    }
}

fn cell_at(table: &[i64], row: usize, column: usize) -> i64
    requires { column < 5 }
    ensures { result ≡ box_cell table.now row column }
{
    if row < table.len() / BOX_WIDTH {
        return table[row * BOX_WIDTH + column];
    }
    0
}

// The box that stands in a row.
fn bounds_at(table: &[i64], row: usize) -> Bounds
    ensures { result ≡ bounds_at table.now row }
{
    Bounds {
        left: cell_at(table, row, LEFT),
        right: cell_at(table, row, RIGHT),
        bottom: cell_at(table, row, BOTTOM),
        top: cell_at(table, row, TOP),
    }
}

// A node is opened below the row `parent`: its box is around nothing yet. The parent's row stands in its first place until it has ended.
pub fn open(table: &mut [i64], row: usize, parent: usize)
    ensures { table.new ≡ opened table.old row parent }
{
    if parent < table.len() / BOX_WIDTH {
        put_five(table, row, parent as i64, NOTHING);
    }
}

// The box of a row is widened, so that it holds another.
fn widen(table: &mut [i64], row: usize, b: Bounds)
    ensures { table.new ≡ widened table.old row b }
{
    let first = cell_at(table, row, 0);
    let both = bounds_at(table, row).around(b);
    put_five(table, row, first, both);
}

// The box of a row is known: zeros, if it is around nothing.
fn put_done(table: &mut [i64], row: usize, b: Bounds)
    ensures { table.new ≡ put_five table.old row (five_of (done_row b)) }
{
    if b.right < b.left {
        put_five(table, row, 0, NO_BOX);
    } else {
        put_five(table, row, 1, b);
    }
}

// The box of a row's parent is widened. The root has no parent, and its own row in that place.
fn widen_above(table: &mut [i64], row: usize, parent: usize, b: Bounds)
    ensures { table.new ≡ widened_above table.old row parent b }
{
    if parent < row {
        widen(table, parent, b);
    }
}

// A node below the row `parent` has ended: its box is known, and widens that of its parent.
pub fn settle(table: &mut [i64], row: usize, parent: usize, b: Bounds)
    ensures { table.new ≡ settled table.old row parent b }
{
    widen_above(table, row, parent, b);
    put_done(table, row, b);
}

// An open node has ended: its parent and the box around what was met under it stand in its row.
pub fn close(table: &mut [i64], row: usize)
    ensures { table.new ≡ closed table.old row }
{
    let first = cell_at(table, row, 0);
    if first < 0 {
        return;
    }
    let b = bounds_at(table, row);
    settle(table, row, first as usize, b);
}

// A refusal: the whole table is zeroed.
pub fn refuse(table: &mut [i64], number: u32, place: usize) -> BoxAnswer
    ensures { Refuses number place table.old result table.new }
{
    store::clear_any(table, 0);
    BoxAnswer { number, place }
}
