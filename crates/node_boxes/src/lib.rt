// A box beside each node: the lowest and highest X and Y of its own and its descendants' coordinates, in units of a ten-millionth.
#![tactic(auto)]

ghost use Rattle.std.specs.Prelude.{◌≡◌, ◌+◌, ◌≤◌, ◌<◌, false, cond};
ghost use Rattle.store.specs.Rows.{node_room, number_room};
ghost use Rattle.walk.specs.Walk.{CoordinatesIn, NumbersIn};
ghost use Rattle.kinds.specs.Kinds.{width};
ghost use Rattle.shape.specs.Walk.{whole_walk};
ghost use Rattle.shape.specs.Store.{are_whole};
ghost use Rattle.nodes.specs.Nodes.{is_leaf};
ghost use Rattle.bounds.specs.Bounds.{nothing, box_room, settled, closed};
ghost use Rattle.node_boxes.specs.Boxes.{or_first, boxes_of, FillsTable};
ghost use Rattle.node_boxes.specs.Turns.{reckoned_at, are_good, seen, offence_in, unseen, found_on, seen_next, seen_up_to, seen_on, widened_axis, sided_up_to, around_on, own, entered, verdict, FilledBy};

use bounds::{BOX_WIDTH, Bounds, BoxAnswer, NOTHING};
use kinds::KIND_LINESTRING;
use nodes::{Met, Visit};
use refusals::{ILL_FORMED_STORE, NO_FINITE_NUMBER, NO_ROOM, NUMBER_TOO_LARGE};
use rounding::{NoSides, Sides};
use store::{NODE_WIDTH, NUMBER_WIDTH};
use walk::{FRAMES, NO_FRAME};

// How many numbers of a coordinate have sides: X and Y, each on an axis of its own.
const AXES: usize = 2;

// What was seen of coordinates: whether all their numbers are some, and the first offence or zeros.
#[derive(Drop)]
struct Seen {
    good: bool,
    number: u32,
    place: usize,
}

// What a number row comes to.
fn reckon_at(text: &[u8], numbers: &[u32], i: usize) -> Result<Sides, NoSides>
    ensures { result ≡ reckoned_at text.now numbers.now i }
{
    let start = store::start_at(numbers, i) as usize;
    let end = start + (store::length_at(numbers, i) as usize);
    if text.len() < end {
        return Err(NoSides::NoNumber);
    }
    decimal::reckon(&text[start..end])
}

// Whether `count` numbers from `first` on are numbers in the text: Z and M need be no more.
fn are_good(text: &[u8], numbers: &[u32], first: usize, count: usize) -> bool
    requires { first + count ≤ number_room numbers.now }
    ensures { result ≡ are_good text.now numbers.now first count }
{
    (first..first + count).all(|i| shape::is_number_at(text, numbers, i))
}

// The offence that was found, or else that of a node's coordinates.
fn or_other(found: BoxAnswer, s: Seen) -> BoxAnswer
    ensures { result ≡ or_first found (offence_in s) }
{
    if found.number != 0 {
        return found;
    }
    BoxAnswer {
        number: s.number,
        place: s.place,
    }
}

fn nothing_seen() -> Seen
    ensures { result ≡ unseen }
{
    Seen {
        good: true,
        number: 0,
        place: 0,
    }
}

// An X or Y is no number: the rows are no store, whatever else offends.
fn no_number(s: Seen) -> Seen
    ensures { result ≡ seen false (offence_in s) }
{
    Seen { good: false, ..s }
}

// An X or Y has no place in a box: it counts, if none before it did.
fn offended(s: Seen, numbers: &[u32], i: usize, number: u32) -> Seen
    ensures { result ≡ found_on numbers.now i number s }
{
    if s.number != 0 {
        return s;
    }
    Seen {
        good: s.good,
        number,
        place: store::start_at(numbers, i) as usize,
    }
}

// An X or Y has no sides.
fn without_sides(s: Seen, numbers: &[u32], i: usize, why: NoSides) -> Seen
    ensures { result ≡ seen_next numbers.now i (Err why) s }
{
    match why {
        NoSides::Named => offended(s, numbers, i, NO_FINITE_NUMBER),
        NoSides::Beyond => offended(s, numbers, i, NUMBER_TOO_LARGE),
        NoSides::NoNumber => no_number(s),
    }
}

// The box is widened on an axis, so that it holds two other sides there.
fn widen_axis(b: Bounds, axis: usize, s: Sides) -> Bounds
    ensures { result ≡ widened_axis axis s.low s.high b }
{
    if axis == 0 {
        Bounds {
            left: b.left.min(s.low),
            right: b.right.max(s.high),
            ..b
        }
    } else {
        Bounds {
            bottom: b.bottom.min(s.low),
            top: b.top.max(s.high),
            ..b
        }
    }
}

// X and Y of the coordinate at `at`: each widens the box on its axis, or has no sides.
fn look_at_both(text: &[u8], numbers: &[u32], around: &mut Bounds, at: usize, before: Seen) -> Seen
    requires { at + 2 ≤ number_room numbers.now }
    ensures seen { result ≡ seen_up_to text.now numbers.now at 2 before }
    ensures around { around.new ≡ sided_up_to text.now numbers.now at 2 around.old }
{
    let mut s = before;
    for axis in 0..AXES {
        let i = at + axis;
        let x = reckon_at(text, numbers, i);
        match x {
            Ok(sides) => {
                *around = widen_axis(*around, axis, sides);
            },
            Err(why) => {
                s = without_sides(s, numbers, i, why);
            },
        }
    }
    s
}

// The coordinates of a node that has them itself: the box around them is its own, and is known when all are seen.
fn look_at_all(text: &[u8], numbers: &[u32], table: &mut [i64], v: Visit) -> Seen
    requires { CoordinatesIn (number_room numbers.now) v }
    ensures seen { result ≡ seen_on text.now numbers.now (width v.dimension) v.number v.parts unseen }
    ensures table { table.new ≡ settled table.old v.row v.parent.row (around_on text.now numbers.now (width v.dimension) v.number v.parts nothing) }
{
    let width = kinds::width_of(v.dimension);
    let mut around = NOTHING;
    let mut s = nothing_seen();
    let mut at = v.number;
    for _ in 0..v.parts {
        s = look_at_both(text, numbers, &mut around, at, s);
        if AXES < width {
            s.good = s.good & are_good(text, numbers, at + AXES, width - AXES);
        }
        at += width;
    }
    bounds::settle(table, v.row, v.parent.row, around);
    s
}

// A node without child rows has ended.
fn end_leaf(table: &mut [i64], v: Visit)
    ensures { table.new ≡ cond (is_leaf v) (closed table.old v.row) table.old }
{
    if nodes::is_leaf(v) {
        bounds::close(table, v.row);
    }
}

// A node is met. One that has coordinates itself has ended when they are seen; any other is opened, and without child rows it has ended.
fn enter(text: &[u8], numbers: &[u32], table: &mut [i64], v: Visit) -> Seen
    requires { NumbersIn (number_room numbers.now) v }
    ensures seen { result ≡ own text.now numbers.now v }
    ensures table { table.new ≡ entered text.now numbers.now v table.old }
{
    if v.kind <= KIND_LINESTRING {
        return look_at_all(text, numbers, table, v);
    }
    bounds::open(table, v.row, v.parent.row);
    end_leaf(table, v);
    nothing_seen()
}

// 22 comes before 30 and 31: they count only where all numbers are some.
fn verdict_of(good: bool, found: BoxAnswer) -> BoxAnswer
    ensures { result ≡ verdict good found }
{
    if good {
        return found;
    }
    BoxAnswer {
        number: ILL_FORMED_STORE,
        place: 0,
    }
}

// The boxes of the nodes on the way through the rows, if they are a tree. A node's box is known when it has ended, and widens that of the node around it: none
// is worked out from its leaves again.
fn fill(text: &[u8], nodes: &[u32], numbers: &[u32], table: &mut [i64]) -> BoxAnswer
    ensures { FilledBy text.now numbers.now table.old result table.new (whole_walk nodes.now (number_room numbers.now)) }
{
    let count = store::number_room(numbers);
    let mut frames = [NO_FRAME; FRAMES];
    let mut w = walk::start(&mut frames);
    let mut good = true;
    let mut found = BoxAnswer {
        number: 0,
        place: 0,
    };
    // Kept (3): what is met next stands in the step that the walk answers, which takes the lent frames anew at each turn.
    loop {
        let s = walk::step(nodes, count, &mut frames, w);
        let met = s.met;
        match met {
            Met::Node(v) => {
                let own = enter(text, numbers, table, v);
                good = good & own.good;
                found = or_other(found, own);
                w = s.next;
            }
            Met::End(row, _) => {
                bounds::close(table, row);
                w = s.next;
            }
            Met::Done => {
                return verdict_of(good, found);
            }
            Met::Ill => {
                return verdict_of(false, found);
            }
        }
    }
}

// Whether the slices hold whole rows.
fn are_whole(nodes: &[u32], numbers: &[u32]) -> bool
    ensures { result ≡ are_whole nodes.now numbers.now }
{
    (nodes.len() % NODE_WIDTH == 0) & (numbers.len() % NUMBER_WIDTH == 0)
}

// A table with fewer rows than there are nodes: 23, if the store is well formed.
fn too_small(text: &[u8], nodes: &[u32], numbers: &[u32], table: &mut [i64]) -> BoxAnswer
    requires { box_room table.old < node_room nodes.now }
    ensures { FillsTable (boxes_of text.now nodes.now numbers.now (box_room table.old)) table.old result table.new }
{
    if shape::check(text, nodes, numbers) {
        return bounds::refuse(table, NO_ROOM, 0);
    }
    bounds::refuse(table, ILL_FORMED_STORE, 0)
}

// The boxes of a store's nodes, a row of five for each, in their order: 1, low X, high X, low Y, high Y, or zeros without coordinates.
pub fn boxes(text: &[u8], nodes: &[u32], numbers: &[u32], table: &mut [i64]) -> BoxAnswer
    ensures { FillsTable (boxes_of text.now nodes.now numbers.now (box_room table.old)) table.old result table.new }
{
    let rows = store::node_room(nodes);
    if table.len() / BOX_WIDTH < rows {
        return too_small(text, nodes, numbers, table);
    }
    if !are_whole(nodes, numbers) {
        return bounds::refuse(table, ILL_FORMED_STORE, 0);
    }
    let found = fill(text, nodes, numbers, table);
    if found.number != 0 {
        return bounds::refuse(table, found.number, found.place);
    }
    store::clear_any(table, rows * BOX_WIDTH);
    found
}
