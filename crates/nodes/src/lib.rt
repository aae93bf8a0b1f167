// Nodes in their places: what a node row is below its parent, and whether it may stand there.
#![tactic(auto)]

ghost use Rattle.std.specs.Prelude.{◌≡◌};
ghost use Rattle.nodes.specs.Nodes.{is_leaf, numbers_of, is_free, child_kind, is_geometry, is_child, is_allowed, may_open};

use kinds::{
    DIM_XYZM, KIND_GEOMETRYCOLLECTION, KIND_LINESTRING, KIND_MULTIPOINT, KIND_MULTIPOLYGON,
    KIND_POINT, KIND_POLYGON,
};
use limits::DEPTH_LIMIT;

// Above the root stands no kind.
pub const NO_KIND: u32 = 0;

// An open node, some of whose children are still to come: its row, what the row says, how many collections are open with it, and
// the index of the child that comes next. The outermost frame stands above the root: its kind is NO_KIND, and its one child is the root.
#[derive(Clone, Copy)]
pub struct Frame {
    pub row: usize,
    pub kind: u32,
    pub dimension: u32,
    pub depth: u32,
    pub parts: u32,
    pub next: u32,
}

// A node in its place: its row, the index of its first number, what its row says, and its parent, in which it is the child `parent.next`.
#[derive(Clone, Copy)]
pub struct Visit {
    pub row: usize,
    pub number: usize,
    pub kind: u32,
    pub dimension: u32,
    pub parts: u32,
    pub parent: Frame,
}

// What a walk meets: a node; the end of a node that has child rows, by its row and by how many rows it and all that is under it took; that
// all rows and numbers were passed, and are a tree; or that they are none.
#[derive(Clone, Copy)]
pub enum Met {
    Node(Visit),
    End(usize, usize),
    Done,
    Ill,
}

// How many numbers a node has itself.
pub fn numbers_of(v: Visit) -> usize
    ensures { result ≡ numbers_of v }
{
    if v.kind <= KIND_LINESTRING {
        return (v.parts as usize) * kinds::width_of(v.dimension);
    }
    0
}

// Whether a node has no child rows.
pub fn is_leaf(v: Visit) -> bool
    ensures { result ≡ is_leaf v }
{
    (v.kind <= KIND_LINESTRING) | (v.parts == 0)
}

// Whether geometries of all kinds may stand below this kind.
pub fn is_free(parent: u32) -> bool
    ensures { result ≡ is_free parent }
{
    (parent == NO_KIND) | (parent == KIND_GEOMETRYCOLLECTION)
}

// The one kind that may stand below kinds 3 to 6.
fn child_kind(parent: u32) -> u32
    ensures { result ≡ child_kind parent }
{
    if parent == KIND_MULTIPOINT {
        return KIND_POINT;
    }
    if parent == KIND_MULTIPOLYGON {
        return KIND_POLYGON;
    }
    KIND_LINESTRING
}

// Whether a node may stand at the root or in a collection.
fn is_geometry(v: Visit) -> bool
    ensures { result ≡ is_geometry v }
{
    let known = (KIND_POINT <= v.kind)
        & (v.kind <= KIND_GEOMETRYCOLLECTION)
        & (v.dimension <= DIM_XYZM);
    known & ((v.kind != KIND_POINT) | (v.parts <= 1))
}

// Whether a node may stand below kinds 3 to 6.
fn is_child(v: Visit) -> bool
    ensures { result ≡ is_child v }
{
    let alike = (v.kind == child_kind(v.parent.kind)) & (v.dimension == v.parent.dimension);
    alike & ((v.parent.kind != KIND_MULTIPOINT) | (v.parts == 1))
}

// Whether a node may stand where it does.
pub fn is_allowed(v: Visit) -> bool
    ensures { result ≡ is_allowed v }
{
    if is_free(v.parent.kind) {
        return is_geometry(v);
    }
    is_child(v)
}

// Whether a node whose children follow may be opened where it stands.
pub fn may_open(v: Visit) -> bool
    ensures { result ≡ may_open v }
{
    (v.kind != KIND_GEOMETRYCOLLECTION) | (v.parent.depth < DEPTH_LIMIT)
}
