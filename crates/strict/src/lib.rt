// The strict check: rules A to D over the nodes of a well-formed store.
#![tactic(auto)]

ghost use Rattle.std.specs.Prelude.{◌≡◌};
ghost use Rattle.refusals.specs.Refusals.{ill_formed_store};
ghost use Rattle.store.specs.Rows.{number_room};
ghost use Rattle.walk.specs.Walk.{CoordinatesIn, NumbersIn};
ghost use Rattle.shape.specs.Walk.{whole_walk};
ghost use Rattle.strict.specs.Rules.{no_letter, same_texts, is_ring, is_short, fails_a, fails_b, fails_c, fails_d, closed, fault, BothFit};
ghost use Rattle.strict.specs.Strict.{answer, fault_at, or_else, told, of_walk, strict_of};

use kinds::{KIND_GEOMETRYCOLLECTION, KIND_LINESTRING, KIND_POLYGON};
use nodes::{Met, Visit};
use refusals::ILL_FORMED_STORE;
use walk::{FRAMES, NO_FRAME};

// The fewest coordinates of a line string and of a ring that are not empty.
const LINE_MIN: u32 = 2;

const RING_MIN: u32 = 4;

// The letter and the row of the first rule that fails, or zeros; or a refusal's number.
#[derive(Clone, Copy)]
pub struct StrictAnswer {
    pub number: u32,
    pub letter: u8,
    pub row: usize,
}

// A rule that fails, by its letter, and the row of the node that it belongs to.
#[derive(Clone, Copy)]
struct Fault {
    letter: u8,
    row: usize,
}

// Whether `width` numbers from `first` on have the texts of those from `last` on.
fn same_texts(text: &[u8], numbers: &[u32], first: usize, last: usize, width: usize) -> bool
    requires { BothFit first last width }
    ensures { result ≡ same_texts text.now numbers.now first last width }
{
    (0..width).all(|i| {
        shape::number_text(text, numbers, first + i) == shape::number_text(text, numbers, last + i)
    })
}

// Whether a ring's first and last coordinate are the same.
fn is_closed(text: &[u8], numbers: &[u32], v: Visit) -> bool
    requires { CoordinatesIn (number_room numbers.now) v }
    ensures { result ≡ closed text.now numbers.now v }
{
    if v.parts == 0 {
        return true;
    }
    let width = kinds::width_of(v.dimension);
    let last = v.number + ((v.parts - 1) as usize) * width;
    same_texts(text, numbers, v.number, last, width)
}

fn is_ring(v: Visit) -> bool
    ensures { result ≡ is_ring v }
{
    (v.kind == KIND_LINESTRING) & (v.parent.kind == KIND_POLYGON)
}

// Whether a node is not empty and has fewer than `min` coordinates.
fn is_short(v: Visit, min: u32) -> bool
    ensures { result ≡ is_short v min }
{
    (v.parts != 0) & (v.parts < min)
}

// A line string that is not empty has at least 2 coordinates.
fn fails_a(v: Visit) -> bool
    ensures { result ≡ fails_a v }
{
    (v.kind == KIND_LINESTRING) & is_short(v, LINE_MIN)
}

// A ring that is not empty has at least 4.
fn fails_b(v: Visit) -> bool
    ensures { result ≡ fails_b v }
{
    is_ring(v) & is_short(v, RING_MIN)
}

// A ring is closed.
fn fails_c(text: &[u8], numbers: &[u32], v: Visit) -> bool
    requires { NumbersIn (number_room numbers.now) v }
    ensures { result ≡ fails_c text.now numbers.now v }
{
    if is_ring(v) {
        return !is_closed(text, numbers, v);
    }
    false
}

// A collection's children have its dimension.
fn fails_d(v: Visit) -> bool
    ensures { result ≡ fails_d v }
{
    (v.parent.kind == KIND_GEOMETRYCOLLECTION) & (v.dimension != v.parent.dimension)
}

// The lowest letter of the rules that a node fails.
fn fault_of(text: &[u8], numbers: &[u32], v: Visit) -> Option<u8>
    requires { NumbersIn (number_room numbers.now) v }
    ensures { result ≡ fault text.now numbers.now v }
{
    if fails_a(v) {
        return Some(b'A');
    }
    if fails_b(v) {
        return Some(b'B');
    }
    if fails_c(text, numbers, v) {
        return Some(b'C');
    }
    if fails_d(v) {
        return Some(b'D');
    }
    None
}

// The first fault of the nodes so far, or else that of one more node.
fn or_fault(text: &[u8], numbers: &[u32], found: Option<Fault>, v: Visit) -> Option<Fault>
    requires { NumbersIn (number_room numbers.now) v }
    ensures { result ≡ or_else found (fault_at v (fault text.now numbers.now v)) }
{
    if found.is_some() {
        return found;
    }
    let letter = fault_of(text, numbers, v)?;
    Some(Fault { letter, row: v.row })
}

// The answer for a well-formed store.
fn told(found: Option<Fault>) -> StrictAnswer
    ensures { result ≡ told found }
{
    match found {
        Some(f) => StrictAnswer {
            number: 0,
            letter: f.letter,
            row: f.row,
        },
        None => StrictAnswer {
            number: 0,
            letter: 0,
            row: 0,
        },
    }
}

// The refusal of a store that is ill formed.
fn ill_formed() -> StrictAnswer
    ensures { result ≡ answer ill_formed_store no_letter 0 }
{
    StrictAnswer {
        number: ILL_FORMED_STORE,
        letter: 0,
        row: 0,
    }
}

// The first rule that fails on the way through the rows, if they are a tree: the walk goes on after it, as 22 comes before all rules.
fn first_fault(text: &[u8], nodes: &[u32], numbers: &[u32]) -> StrictAnswer
    ensures { result ≡ of_walk text.now numbers.now (whole_walk nodes.now (number_room numbers.now)) }
{
    let count = store::number_room(numbers);
    let mut frames = [NO_FRAME; FRAMES];
    let mut w = walk::start(&mut frames);
    let mut found = None;
    // Kept (3): what is met next stands in the step that the walk answers, which takes the lent frames anew at each turn.
    loop {
        let s = walk::step(nodes, count, &mut frames, w);
        let met = s.met;
        match met {
            Met::Node(v) => {
                found = or_fault(text, numbers, found, v);
                w = s.next;
            }
            Met::End(_, _) => {
                w = s.next;
            }
            Met::Done => {
                return told(found);
            }
            Met::Ill => {
                return ill_formed();
            }
        }
    }
}

// The first rule that fails, in node order.
pub fn strict(text: &[u8], nodes: &[u32], numbers: &[u32]) -> StrictAnswer
    ensures { result ≡ strict_of text.now nodes.now numbers.now }
{
    if shape::are_rows(text, nodes, numbers) {
        return first_fault(text, nodes, numbers);
    }
    ill_formed()
}
