// Reading well-known text into rows of two lent slices: `lib.rs` of the Rust, whose other files are the modules below.
#![tactic(auto)]

mod coord;
mod geometrycollection;
mod linestring;
mod multipoint;
mod multipolygon;
mod parts;
mod point;
mod polygon;

ghost use Rattle.std.specs.Prelude.{◌≡◌, ◌+◌, ◌<◌, ◌^◌, length};
ghost use Rattle.store.specs.Rows.{node_room, number_room};
ghost use Rattle.grammar.specs.Reading.{reading};
ghost use Rattle.answers.specs.Reading.{spot, Fits, Within, Reads, closed_of};
ghost use Rattle.wkt.specs.Parts.{simple_kind, body_of, simple_of, child_of, root_of};
ghost use Rattle.wkt.specs.Leaves.{Leaves, Finishes, root_in};

use answers::{Spot, Unread, moved, open_node};
use coord::Coordinate;
use headings::Head;
use kinds::{
    KIND_GEOMETRYCOLLECTION, KIND_LINESTRING, KIND_MULTILINESTRING, KIND_MULTIPOINT,
    KIND_MULTIPOLYGON, KIND_POINT,
};
use limits::{DEPTH_LIMIT, TEXT_LIMIT};
use linestring::LineString;
use parts::{InParens, by_commas};
use point::Point;
use refusals::{ILL_FORMED_UTF8, TEXT_TOO_LONG};
use store::ReadAnswer;

// The body and the closing token of a geometry of kinds 1 to 6, whose row is `row`. The body of a multi line string is a
// polygon's.
fn body(
    text: &[u8],
    nodes: &mut [u32],
    numbers: &mut [u32],
    kind: u32,
    row: usize,
    dimension: u32,
    s: Spot,
) -> Result<Spot, Unread>
    requires { (row < s.nodes) × Fits text.now nodes.old numbers.old s }
    ensures { Reads text.now (closed_of (body_of kind dimension row)) s nodes.old numbers.old result nodes.new numbers.new }
{
    match kind {
        KIND_POINT => Point::body(text, nodes, numbers, row, dimension, s),
        KIND_LINESTRING => by_commas::<Coordinate>(text, nodes, numbers, row, dimension, s),
        KIND_MULTIPOINT => multipoint::points(text, nodes, numbers, row, dimension, s),
        KIND_MULTIPOLYGON => multipolygon::polygons(text, nodes, numbers, row, dimension, s),
        _ => by_commas::<LineString>(text, nodes, numbers, row, dimension, s),
    }
}

// The kind of a row that is opened and is no collection's: any number but 1 to 5 stands for a multipolygon.
fn simple_kind(kind: u32) -> u32
    ensures { result ≡ simple_kind kind }
{
    if (KIND_POINT <= kind) & (kind <= KIND_MULTILINESTRING) {
        kind
    } else {
        KIND_MULTIPOLYGON
    }
}

// A geometry of kinds 1 to 6 whose `(` was taken at `place`.
fn simple(
    text: &[u8],
    nodes: &mut [u32],
    numbers: &mut [u32],
    kind: u32,
    dimension: u32,
    place: usize,
    s: Spot,
) -> Result<Spot, Unread>
    requires { Fits text.now nodes.old numbers.old s }
    ensures { Reads text.now (simple_of kind dimension place) s nodes.old numbers.old result nodes.new numbers.new }
{
    let row = s.nodes;
    let named = simple_kind(kind);
    let here = open_node(nodes, named, dimension, place, s)?;
    body(text, nodes, numbers, named, row, dimension, here)
}

// A geometry of a collection, from its name on; `depth` more collections may be opened.
#[cycle(geometry_collection)]
fn geometry(
    text: &[u8],
    nodes: &mut [u32],
    numbers: &mut [u32],
    depth: u32,
    s: Spot,
) -> Result<Spot, Unread>
    requires { Fits text.now nodes.old numbers.old s }
    ensures { Reads text.now (child_of depth) s nodes.old numbers.old result nodes.new numbers.new }
{
    let head = headings::child_head(text, s.at)?;
    match head {
        Head::Opens(kind, dimension, place, at) => {
            let here = moved(at, s);
            if kind == KIND_GEOMETRYCOLLECTION {
                geometrycollection::collection(text, nodes, numbers, dimension, place, depth, here)
            } else {
                simple(text, nodes, numbers, kind, dimension, place, here)
            }
        }
        Head::Empty(kind, dimension, place, at) => {
            open_node(nodes, kind, dimension, place, moved(at, s))
        }
    }
}

// The geometry that a text begins with.
fn root(text: &[u8], nodes: &mut [u32], numbers: &mut [u32]) -> Result<Spot, Unread>
    requires { length text.now + 2 < 2 ^ 32 }
    ensures { Reads text.now root_of (spot 0 0 0) nodes.old numbers.old result nodes.new numbers.new }
{
    let head = headings::root_head(text, 0)?;
    match head {
        Head::Opens(kind, dimension, place, at) => {
            let here = Spot {
                at,
                nodes: 0,
                numbers: 0,
            };
            if kind == KIND_GEOMETRYCOLLECTION {
                let depth = DEPTH_LIMIT;
                geometrycollection::collection(text, nodes, numbers, dimension, place, depth, here)
            } else {
                simple(text, nodes, numbers, kind, dimension, place, here)
            }
        }
        Head::Empty(kind, dimension, place, at) => {
            open_node(
                nodes,
                kind,
                dimension,
                place,
                Spot {
                    at,
                    nodes: 0,
                    numbers: 0,
                },
            )
        }
    }
}

// What the slices are left with: the rows used and zeros, or all zeros.
fn finish(nodes: &mut [u32], numbers: &mut [u32], got: Result<Spot, Unread>) -> ReadAnswer
    requires { Within (node_room nodes.old) (number_room numbers.old) got }
    ensures { Finishes got nodes.old numbers.old result nodes.new numbers.new }
{
    match got {
        Ok(end) => store::accept(nodes, numbers, end.nodes, end.numbers),
        Err(Unread::Refused(r, _)) => store::refuse(nodes, numbers, r.number, r.place),
        Err(Unread::Stopped(r, _)) => store::refuse(nodes, numbers, r.number, r.place),
    }
}

// The geometry that a text of whole characters begins with.
fn read_root(text: &[u8], nodes: &mut [u32], numbers: &mut [u32]) -> ReadAnswer
    requires { length text.now + 2 < 2 ^ 32 }
    ensures { Leaves (root_in (node_room nodes.old) (number_room numbers.old) text.now) nodes.old numbers.old result nodes.new numbers.new }
{
    let got = root(text, nodes, numbers);
    finish(nodes, numbers, got)
}

// The geometry that `text` begins with, as rows of both slices; every place after the used rows is zero, and on a
// refusal every place.
pub fn read(text: &[u8], nodes: &mut [u32], numbers: &mut [u32]) -> ReadAnswer
    ensures { Leaves (reading (node_room nodes.old) (number_room numbers.old) text.now) nodes.old numbers.old result nodes.new numbers.new }
{
    if limits::is_over(text) {
        return store::refuse(nodes, numbers, TEXT_TOO_LONG, TEXT_LIMIT);
    }
    let ill = utf8::first_ill_formed(text);
    if ill < text.len() {
        return store::refuse(nodes, numbers, ILL_FORMED_UTF8, ill);
    }
    read_root(text, nodes, numbers)
}
