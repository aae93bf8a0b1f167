// Rows in lent slices: nodes and numbers, as document 01's "The store" lays them out.
#![tactic(auto)]

ghost use Rattle.std.specs.Prelude.{◌≡◌, ◌≤◌, ◌<◌, ◌+◌, ◌*◌, ◌/◌, IfSome, IfNone, length, pos};
ghost use Rattle.store.specs.Rows.{node_width, number_width, node_room, number_room, places_of, open_row, close_row, put_row, put_span, cleared_to, cleared, kind_at, dimension_at, parts_at, node_column, span_start_at, span_length_at, cell};
ghost use Rattle.store.specs.Answers.{Accepts, refused, Leaves};

pub const NODE_WIDTH: usize = 3;

pub const NUMBER_WIDTH: usize = 2;

// What a reader into a store answers: the counts of the used rows, with number and place 0; or a refusal's number and place, with zeros after them.
#[derive(Clone, Copy)]
pub struct ReadAnswer {
    pub number: u32,
    pub place: usize,
    pub nodes: usize,
    pub numbers: usize,
}

// What a writer of a store answers: how many bytes it wrote, with number and place 0; or a refusal's number and place, with a zero after them.
#[derive(Clone, Copy)]
pub struct WriteAnswer {
    pub number: u32,
    pub place: usize,
    pub length: usize,
}

// The columns of a node row.
const KIND: usize = 0;

const DIMENSION: usize = 1;

const PARTS: usize = 2;

// The columns of a number row.
const START: usize = 0;

const LENGTH: usize = 1;

// How many whole node rows the slice has.
// Kept (2): this and `number_room` are one division each, by their own constants; calls of one function for both would be as long.
pub fn node_room(nodes: &[u32]) -> usize
    ensures { result ≡ node_room nodes.now }
{
    nodes.len() / NODE_WIDTH
}

// How many whole number rows the slice has.
pub fn number_room(numbers: &[u32]) -> usize
    ensures { result ≡ number_room numbers.now }
{
    numbers.len() / NUMBER_WIDTH
}

// How many places the first `rows` rows of `WIDTH` numbers take: all of them where there are fewer rows.
fn places<const WIDTH: usize>(slice: &[u32], rows: usize) -> usize
    requires { 0 < WIDTH }
    ensures value { result ≡ places_of WIDTH slice.now rows }
    ensures upper_bound { result ≤ length slice.now }
{
    if rows <= slice.len() / WIDTH {
        rows * WIDTH
    } else {
        slice.len()
    }
}

pub fn node_places(nodes: &[u32], rows: usize) -> usize
    ensures value { result ≡ places_of node_width nodes.now rows }
    ensures upper_bound { result ≤ length nodes.now }
{
    places::<NODE_WIDTH>(nodes, rows)
}

pub fn number_places(numbers: &[u32], rows: usize) -> usize
    ensures value { result ≡ places_of number_width numbers.now rows }
    ensures upper_bound { result ≤ length numbers.now }
{
    places::<NUMBER_WIDTH>(numbers, rows)
}

// Where a row of `WIDTH` numbers begins, if there is one.
fn row_start<const WIDTH: usize>(slice: &[u32], row: usize) -> Option<usize>
    requires { 0 < WIDTH }
    ensures there { IfSome result (λ at. (row < length slice.now / WIDTH) × (at ≡ row * WIDTH) × (at + WIDTH ≤ length slice.now)) }
    ensures none { IfNone result (length slice.now / WIDTH ≤ row) }
{
    if row < slice.len() / WIDTH {
        Some(row * WIDTH)
    } else {
        None
    }
}

// Opens a node row: what follows from the parts is 0 until the row is closed. Where there is no such row nothing
// changes, here as below.
pub fn open_row(nodes: &mut [u32], row: usize, kind: u32, dimension: u32)
    ensures { nodes.new ≡ open_row nodes.old row kind dimension }
{
    put_row(nodes, row, kind, dimension, 0);
}

// Closes a node row: its parts are counted.
pub fn close_row(nodes: &mut [u32], row: usize, parts: u32)
    ensures { nodes.new ≡ close_row nodes.old row parts }
{
    if let Some(at) = row_start::<NODE_WIDTH>(nodes, row) {
        nodes[at + PARTS] = parts;
    }
}

// Puts a number row.
pub fn put_number(numbers: &mut [u32], row: usize, start: u32, length: u32)
    ensures { numbers.new ≡ put_span numbers.old row start length }
{
    if let Some(at) = row_start::<NUMBER_WIDTH>(numbers, row) {
        numbers[at + START] = start;
        numbers[at + LENGTH] = length;
    }
}

// Puts a whole node row.
pub fn put_row(nodes: &mut [u32], row: usize, kind: u32, dimension: u32, parts: u32)
    ensures { nodes.new ≡ put_row nodes.old row kind dimension parts }
{
    if let Some(at) = row_start::<NODE_WIDTH>(nodes, row) {
        nodes[at + KIND] = kind;
        nodes[at + DIMENSION] = dimension;
        nodes[at + PARTS] = parts;
    }
}

// A kind of numbers with a zero, for places that are cleared.
pub trait Zero: Copy {
    ghost ZERO: { Self };

    const ZERO: Self;

    // A copy of the zero is made without fail, and is the zero.
    ghost copied: { Self.is_infallible ZERO };

    ghost same: { (x : Self) → Self.is_clone ZERO x → x ≡ ZERO };
}

impl Zero for u8 {
    ghost ZERO = { 0 };

    const ZERO: u8 = 0;

    ghost copied = { tt };

    ghost same = { λ x e. e };
}

impl Zero for u32 {
    ghost ZERO = { 0 };

    const ZERO: u32 = 0;

    ghost copied = { tt };

    ghost same = { λ x e. e };
}

impl Zero for i64 {
    ghost ZERO = { pos 0 };

    const ZERO: i64 = 0;

    ghost copied = { tt };

    ghost same = { λ x e. e };
}

// Zeroes a slice of any numbers from `from` on.
pub fn clear_any<T: Zero>(slice: &mut [T], from: usize)
    ensures { slice.new ≡ cleared_to T.ZERO slice.old from }
{
    if from < slice.len() {
        slice[from..].fill(T::ZERO);
    }
}

// Zeroes the slice from `from` on. It takes rows of a store alone, so that an array of bare numbers that is lent to it is one of u32.
pub fn clear(slice: &mut [u32], from: usize)
    ensures { slice.new ≡ cleared slice.old from }
{
    clear_any(slice, from);
}

// The number in a column of a row of `WIDTH` numbers, or 0 where there is no such row.
fn cell_at<const WIDTH: usize>(slice: &[u32], row: usize, column: usize) -> u32
    requires { column < WIDTH }
    ensures { result ≡ cell WIDTH slice.now row column }
{
    match row_start::<WIDTH>(slice, row) {
        Some(at) => slice[at + column],
        None => 0,
    }
}

pub fn kind_at(nodes: &[u32], row: usize) -> u32
    ensures { result ≡ kind_at nodes.now row }
{
    cell_at::<NODE_WIDTH>(nodes, row, KIND)
}

pub fn dimension_at(nodes: &[u32], row: usize) -> u32
    ensures { result ≡ dimension_at nodes.now row }
{
    cell_at::<NODE_WIDTH>(nodes, row, DIMENSION)
}

pub fn parts_at(nodes: &[u32], row: usize) -> u32
    ensures { result ≡ parts_at nodes.now row }
{
    cell_at::<NODE_WIDTH>(nodes, row, PARTS)
}

// The number in a column of a node row, for who asks for all NODE_WIDTH of them; 0 where there is no such column.
pub fn node_column(nodes: &[u32], row: usize, column: usize) -> u32
    ensures { result ≡ node_column nodes.now row column }
{
    if column < NODE_WIDTH {
        cell_at::<NODE_WIDTH>(nodes, row, column)
    } else {
        0
    }
}

pub fn start_at(numbers: &[u32], row: usize) -> u32
    ensures { result ≡ span_start_at numbers.now row }
{
    cell_at::<NUMBER_WIDTH>(numbers, row, START)
}

pub fn length_at(numbers: &[u32], row: usize) -> u32
    ensures { result ≡ span_length_at numbers.now row }
{
    cell_at::<NUMBER_WIDTH>(numbers, row, LENGTH)
}

// A reader accepts: so many rows of both slices are used, and what lies after them is zeroed.
pub fn accept(nodes: &mut [u32], numbers: &mut [u32], rows: usize, used: usize) -> ReadAnswer
    ensures { Accepts nodes.old numbers.old rows used result nodes.new numbers.new }
{
    clear(nodes, node_places(nodes, rows));
    clear(numbers, number_places(numbers, used));
    ReadAnswer {
        number: 0,
        place: 0,
        nodes: rows,
        numbers: used,
    }
}

// A reader refuses: both slices are zeroed.
pub fn refuse(nodes: &mut [u32], numbers: &mut [u32], number: u32, place: usize) -> ReadAnswer
    ensures { Leaves (refused number place) nodes.old numbers.old result nodes.new numbers.new }
{
    clear(nodes, 0);
    clear(numbers, 0);
    ReadAnswer {
        number,
        place,
        nodes: 0,
        numbers: 0,
    }
}
