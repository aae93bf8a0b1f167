// The canonical text of a store.
#![tactic(auto)]

ghost use Rattle.std.specs.Prelude.{◌≡◌, ◌∷◌, length};
ghost use Rattle.scan.specs.Bytes.{paren_open};
ghost use Rattle.pen.specs.Pen.{Emits};
ghost use Rattle.walk.specs.Walk.{NumbersIn};
ghost use Rattle.shape.specs.Walk.{whole_walk};
ghost use Rattle.store.specs.Rows.{number_room};
ghost use Rattle.to_wkt.specs.Canonical.{put_coordinate, put_coordinates, put_body, put_node};
ghost use Rattle.to_wkt.specs.Write.{HasCoordinate, HasCoordinates, Written};
ghost use Rattle.to_wkt.specs.Put.{PutRows};

use kinds::KIND_LINESTRING;
use names::EMPTY;
use nodes::{Met, Visit};
use pen::Pen;
use refusals::{ILL_FORMED_STORE, NO_ROOM};
use store::WriteAnswer;
use walk::{FRAMES, NO_FRAME};

// `width` numbers from `first` on, separated by blanks, after the byte `lead`.
fn put_coordinate(
    out: &mut [u8],
    p: Pen,
    lead: u8,
    text: &[u8],
    numbers: &[u32],
    first: usize,
    width: usize,
) -> Pen
    requires { HasCoordinate first width }
    ensures { Emits (λ rest. lead ∷ put_coordinate text.now numbers.now first width rest) p out.old result out.new }
{
    let mut q = p;
    let mut before = lead;
    for i in 0..width {
        q = pieces::put_number(out, q, before, text, numbers, first + i);
        before = b' ';
    }
    q
}

// A parenthesis that opens and `count` coordinates, their numbers from `first` on, separated by commas.
fn put_coordinates(
    out: &mut [u8],
    p: Pen,
    text: &[u8],
    numbers: &[u32],
    first: usize,
    width: usize,
    count: usize,
) -> Pen
    requires { HasCoordinates first width count }
    ensures { Emits (λ rest. paren_open ∷ put_coordinates text.now numbers.now first width count rest) p out.old result out.new }
{
    let mut q = p;
    let mut before = b'(';
    for i in 0..count {
        q = put_coordinate(out, q, before, text, numbers, first + i * width, width);
        before = b',';
    }
    q
}

// EMPTY, or the parenthesis that opens and, of kinds 1 and 2, the coordinates and the one that closes.
fn put_body(out: &mut [u8], p: Pen, text: &[u8], numbers: &[u32], v: Visit) -> Pen
    requires { NumbersIn (number_room numbers.now) v }
    ensures { Emits (put_body text.now numbers.now v) p out.old result out.new }
{
    if p.full {
        return p;
    }
    if v.parts == 0 {
        return pen::put(out, p, &EMPTY);
    }
    if KIND_LINESTRING < v.kind {
        return pen::put_byte(out, p, b'(');
    }
    let width = kinds::width_of(v.dimension);
    let q = put_coordinates(out, p, text, numbers, v.number, width, v.parts as usize);
    pen::put_byte(out, q, b')')
}

fn put_node(out: &mut [u8], p: Pen, text: &[u8], numbers: &[u32], v: Visit) -> Pen
    requires { NumbersIn (number_room numbers.now) v }
    ensures { Emits (put_node text.now numbers.now v) p out.old result out.new }
{
    if p.full {
        return p;
    }
    let comma = pieces::put_comma(out, p, v);
    let head = pieces::put_head(out, comma, v);
    put_body(out, head, text, numbers, v)
}

// Puts all that a walk over the rows meets: the pen after the text, if they are a tree.
// Kept (3): what is met next stands in the step that the walk answers, which takes the lent frames anew at each turn.
fn put_rows(out: &mut [u8], text: &[u8], nodes: &[u32], numbers: &[u32]) -> Option<Pen>
    ensures { PutRows text.now numbers.now (whole_walk nodes.now (number_room numbers.now)) result out.new }
{
    let count = store::number_room(numbers);
    let mut frames = [NO_FRAME; FRAMES];
    let mut w = walk::start(&mut frames);
    let mut pen = Pen { at: 0, full: false };
    loop {
        let s = walk::step(nodes, count, &mut frames, w);
        let met = s.met;
        match met {
            Met::Node(v) => {
                pen = put_node(out, pen, text, numbers, v);
                w = s.next;
            }
            Met::End(_, _) => {
                pen = pen::put_byte(out, pen, b')');
                w = s.next;
            }
            Met::Done => return Some(pen),
            Met::Ill => return None,
        }
    }
}

// Writes the canonical text; what lies after it in the room is zero.
pub fn write(text: &[u8], nodes: &[u32], numbers: &[u32], out: &mut [u8]) -> WriteAnswer
    ensures { Written text.now nodes.now numbers.now (length out.old) result out.new }
{
    if !shape::are_rows(text, nodes, numbers) {
        return pen::refuse(out, ILL_FORMED_STORE);
    }
    let Some(p) = put_rows(out, text, nodes, numbers) else {
        return pen::refuse(out, ILL_FORMED_STORE);
    };
    if p.full {
        return pen::refuse(out, NO_ROOM);
    }
    let length = p.at;
    store::clear_any(out, length);
    WriteAnswer {
        number: 0,
        place: 0,
        length,
    }
}
