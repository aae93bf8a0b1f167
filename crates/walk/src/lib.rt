// The walk over node rows that every later entry takes: over those of a slice, or over rows that are given one by one.
#![tactic(auto)]

ghost use Rattle.std.specs.Prelude.{◌≡◌, true};
ghost use Rattle.store.specs.Rows.{row, row_at};
ghost use Rattle.nodes.specs.Nodes.{visit_of, may_open, frame_of};
ghost use Rattle.walk.specs.declared.Coming.TheVariants.{Child};
ghost use Rattle.walk.specs.Walk.{HasChild, beginning, coming_next, passing_leaf, pushing, meeting, wanted_from, entering, advancing, has_ended, last_met, walk_step};

use kinds::KIND_GEOMETRYCOLLECTION;
use nodes::{Frame, Met, NO_KIND, Visit};

// How many frames a walk needs: the one above the root, the collections, and in the last of them a multipolygon with a polygon.
pub const FRAMES: usize = 35;

// What stands above the root: its one child is the root.
pub const ABOVE: Frame = Frame {
    row: 0,
    kind: NO_KIND,
    dimension: 0,
    depth: 0,
    parts: 1,
    next: 0,
};

// What a frame is before a walk puts one there: all zero, so that an array of them is cleared at once.
pub const NO_FRAME: Frame = Frame {
    row: 0,
    kind: NO_KIND,
    dimension: 0,
    depth: 0,
    parts: 0,
    next: 0,
};

// Where a walk stands: the next row, the next number, and the open nodes, the innermost in frame `top`, the outermost in the last.
#[derive(Clone, Copy)]
pub struct Walk {
    pub row: usize,
    pub number: usize,
    pub top: usize,
}

// What comes next of a walk: a child of an open node, so that a row is wanted; the end of a node, by its row and how many rows it took, and the walk
// after it; or nothing, as the root has ended.
#[derive(Clone, Copy)]
pub enum Coming {
    Child(Frame),
    End(usize, usize, Walk),
    Last,
}

// What a step met, and the walk after it. On `Done` and `Ill` the walk stays.
#[derive(Clone, Copy)]
pub struct Walked {
    pub met: Met,
    pub next: Walk,
}

// The frame of a node that is opened.
fn opened(v: Visit) -> Frame
    requires { may_open v ≡ true }
    ensures { result ≡ frame_of v }
{
    let mut depth = v.parent.depth;
    if v.kind == KIND_GEOMETRYCOLLECTION {
        depth += 1;
    }
    Frame {
        row: v.row,
        kind: v.kind,
        dimension: v.dimension,
        depth,
        parts: v.parts,
        next: 0,
    }
}

// A walk that stands above the root.
pub fn start(frames: &mut [Frame; FRAMES]) -> Walk
    ensures { (result, frames.new) ≡ beginning frames.old }
{
    let top = FRAMES - 1;
    frames[top] = ABOVE;
    Walk {
        row: 0,
        number: 0,
        top,
    }
}

// What comes next of a walk, by its innermost frame.
pub fn next(frames: &[Frame; FRAMES], w: Walk) -> Coming
    ensures { result ≡ coming_next frames.now w }
{
    if FRAMES <= w.top {
        return Coming::Last;
    }
    let f = frames[w.top];
    if f.next < f.parts {
        return Coming::Child(f);
    }
    if f.kind == NO_KIND {
        return Coming::Last;
    }
    let outer = Walk {
        top: w.top + 1,
        ..w
    };
    Coming::End(f.row, w.row.saturating_sub(f.row), outer)
}

// A node without child rows is met: it takes its numbers.
#[inline(always)]
fn pass(frames: &mut [Frame; FRAMES], count: usize, w: Walk, v: Visit) -> Option<Walk>
    requires { HasChild w v }
    ensures { (result, frames.new) ≡ passing_leaf frames.old count w v }
{
    let number = v.number.checked_add(nodes::numbers_of(v))?;
    if count < number {
        return None;
    }
    frames[w.top].next = v.parent.next + 1;
    Some(Walk {
        row: w.row + 1,
        number,
        top: w.top,
    })
}

// A node whose children follow is met: it gets a frame, if there is one.
#[inline(always)]
fn push(frames: &mut [Frame; FRAMES], w: Walk, v: Visit) -> Option<Walk>
    requires { HasChild w v }
    ensures { (result, frames.new) ≡ pushing frames.old w v }
{
    if !nodes::may_open(v) {
        return None;
    }
    let top = w.top.checked_sub(1)?;
    frames[w.top].next = v.parent.next + 1;
    frames[top] = opened(v);
    Some(Walk {
        row: w.row + 1,
        number: v.number,
        top,
    })
}

// A node is met in its place, if it may stand there.
#[inline(always)]
fn meet(frames: &mut [Frame; FRAMES], count: usize, w: Walk, v: Visit) -> Option<Walk>
    requires { HasChild w v }
    ensures { (result, frames.new) ≡ meeting frames.old count w v }
{
    if !nodes::is_allowed(v) {
        return None;
    }
    if nodes::is_leaf(v) {
        return pass(frames, count, w, v);
    }
    push(frames, w, v)
}

// The innermost open node that wants a child, from the frame `top` on: those inside it have ended.
fn wanting(frames: &[Frame; FRAMES], top: usize) -> Option<usize>
    ensures { result ≡ wanted_from frames.now top }
{
    for at in top..FRAMES {
        let f = frames[at];
        if f.next < f.parts {
            return Some(at);
        }
        if f.kind == NO_KIND {
            return None;
        }
    }
    None
}

// The walk after a row that is given, or none where the row is ill. This, and `meet`, `pass` and `push` in it, is a part of both functions that are asked:
// as a call it would answer through memory, once more for each row.
#[inline(always)]
fn after_row(
    frames: &mut [Frame; FRAMES],
    count: usize,
    w: Walk,
    kind: u32,
    dimension: u32,
    parts: u32,
) -> Option<Walk>
    ensures { (result, frames.new) ≡ entering frames.old count w (row kind dimension parts) }
{
    let top = wanting(frames, w.top)?;
    if w.row == usize::MAX {
        return None;
    }
    let v = Visit {
        row: w.row,
        number: w.number,
        kind,
        dimension,
        parts,
        parent: frames[top],
    };
    meet(frames, count, Walk { top, ..w }, v)
}

// Meets a row that is given by what it says, of rows that have `count` numbers: nodes that have ended before it are passed. Whoever has the rows
// elsewhere than in a slice gives them one by one, and asks `has_ended` after the last. It answers the walk after the row, or none where the row is ill.
#[inline(never)]
pub fn enter(
    frames: &mut [Frame; FRAMES],
    count: usize,
    w: Walk,
    kind: u32,
    dimension: u32,
    parts: u32,
) -> Option<Walk>
    ensures { (result, frames.new) ≡ entering frames.old count w (row kind dimension parts) }
{
    after_row(frames, count, w, kind, dimension, parts)
}

// The same of a walk that is lent, and taken on in place: whether the row is met. Where it is ill, the walk stays.
#[inline(never)]
pub fn advance(
    frames: &mut [Frame; FRAMES],
    count: usize,
    w: &mut Walk,
    kind: u32,
    dimension: u32,
    parts: u32,
) -> bool
    ensures { (result, w.new, frames.new) ≡ advancing frames.old count w.old (row kind dimension parts) }
{
    match after_row(frames, count, *w, kind, dimension, parts) {
        Some(after) => {
            *w = after;
            true
        }
        None => false,
    }
}

// Whether all that was opened has ended and no number is left.
pub fn has_ended(frames: &[Frame; FRAMES], count: usize, w: Walk) -> bool
    ensures { result ≡ has_ended frames.now count w }
{
    wanting(frames, w.top).is_none() && w.number == count
}

// The node of a row below a parent.
fn visit_at(nodes: &[u32], w: Walk, parent: Frame) -> Visit
    ensures { result ≡ visit_of w.row w.number parent (row_at nodes.now w.row) }
{
    Visit {
        row: w.row,
        number: w.number,
        kind: store::kind_at(nodes, w.row),
        dimension: store::dimension_at(nodes, w.row),
        parts: store::parts_at(nodes, w.row),
        parent,
    }
}

// The end of the walk: no row and no number is left.
fn last(nodes: &[u32], count: usize, w: Walk) -> Met
    ensures { result ≡ last_met nodes.now count w }
{
    if (store::node_room(nodes) <= w.row) & (w.number == count) {
        return Met::Done;
    }
    Met::Ill
}

// A row that is wanted below `parent` is met.
fn step_in(
    nodes: &[u32],
    count: usize,
    frames: &mut [Frame; FRAMES],
    w: Walk,
    parent: Frame,
) -> Walked
    requires { coming_next frames.old w ≡ Child parent }
    ensures { (result, frames.new) ≡ walk_step nodes.now count frames.old w }
{
    if w.row < store::node_room(nodes) {
        let v = visit_at(nodes, w, parent);
        if let Some(next) = enter(frames, count, w, v.kind, v.dimension, v.parts) {
            return Walked {
                met: Met::Node(v),
                next,
            };
        }
    }
    Walked {
        met: Met::Ill,
        next: w,
    }
}

// What is met next of rows that have `count` numbers.
pub fn step(nodes: &[u32], count: usize, frames: &mut [Frame; FRAMES], w: Walk) -> Walked
    ensures { (result, frames.new) ≡ walk_step nodes.now count frames.old w }
{
    let coming = next(frames, w);
    match coming {
        Coming::Child(parent) => step_in(nodes, count, frames, w, parent),
        Coming::End(row, rows, after) => Walked {
            met: Met::End(row, rows),
            next: after,
        },
        Coming::Last => Walked {
            met: last(nodes, count, w),
            next: w,
        },
    }
}
