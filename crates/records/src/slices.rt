// The two slices of a record: how many places each is asked to have, and the rows that the record brings for them. All is told from the bytes where
// the two lengths stand.
ghost use Rattle.std.specs.Prelude.{◌≡◌, ◌≤◌, length, IfSome};
ghost use Rattle.records.specs.Records.{max_slice, text_after_rows, slices_at, Within, lent_in, filled, Loads};

use crate::parts::{behind, field, has_text};
use console::{U32_BYTES, u32_at};

// A record that asks for a longer slice is too large.
pub const MAX_SLICE: usize = 98_304;

// Behind the lengths: the rows, and else the text.
const AFTER_LENGTHS: usize = 2 * U32_BYTES;

// What a record says of its slices: the places of the nodes and of the numbers, and where the text starts. Nothing is told of slices that don't fit, or
// where no text stands behind or one that is too long.
#[derive(Clone, Copy)]
pub struct Slices {
    pub nodes: usize,
    pub numbers: usize,
    pub text: usize,
}

// Of a record whose text, or what else it has, stands from a place on.
pub fn told(bytes: &[u8], text: usize) -> Option<Slices>
    ensures value { result ≡ slices_at bytes.now text }
    ensures within { IfSome result (λ s. Within s (length bytes.now)) }
{
    let nodes = field(bytes, 0);
    let numbers = field(bytes, U32_BYTES);
    if (nodes <= MAX_SLICE) & (numbers <= MAX_SLICE) & has_text(bytes, text) {
        Some(Slices {
            nodes,
            numbers,
            text,
        })
    } else {
        None
    }
}

// Of a record that asks for slices to be filled: the text stands behind their lengths.
pub fn lent(bytes: &[u8]) -> Option<Slices>
    ensures value { result ≡ lent_in bytes.now }
    ensures within { IfSome result (λ s. Within s (length bytes.now)) }
{
    told(bytes, AFTER_LENGTHS)
}

fn text_after_rows(bytes: &[u8]) -> usize
    ensures { result ≡ text_after_rows bytes.now }
{
    AFTER_LENGTHS + (field(bytes, 0) + field(bytes, U32_BYTES)) * U32_BYTES
}

// Fills so many places with the numbers that stand one after the other.
fn copy(bytes: &[u8], slice: &mut [u32], places: usize)
    requires { places ≤ length slice.old }
    ensures { slice.new ≡ filled bytes.now places slice.old }
{
    for i in 0..places {
        slice[i] = u32_at(bytes, i * U32_BYTES);
    }
}

// Of a record that brings its rows: those of the nodes, then at once those of the numbers, then the text. They stand at the front of what is lent
// after it, and nothing else of it has changed.
pub fn load(
    bytes: &[u8],
    nodes: &mut [u32; MAX_SLICE],
    numbers: &mut [u32; MAX_SLICE],
) -> Option<Slices>
    ensures loads { Loads bytes.now nodes.old numbers.old result nodes.new numbers.new }
    ensures within { IfSome result (λ s. Within s (length bytes.now)) }
    ensures nodes_len { (length nodes.new ≡ max_slice) × (length numbers.new ≡ max_slice) }
{
    let slices = told(bytes, text_after_rows(bytes))?;
    copy(behind(bytes, AFTER_LENGTHS), nodes, slices.nodes);
    let middle = AFTER_LENGTHS + slices.nodes * U32_BYTES;
    copy(behind(bytes, middle), numbers, slices.numbers);
    Some(slices)
}
