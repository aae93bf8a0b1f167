// Whether a store is well formed.
#![tactic(auto)]

ghost use Rattle.std.specs.Prelude.{◌≡◌};
ghost use Rattle.lists.specs.Options.{is_some};
ghost use Rattle.shape.specs.Numbers.{text_at, is_number_at, are_numbers};
ghost use Rattle.shape.specs.Store.{well_formed};
ghost use Rattle.shape.specs.Walk.{are_rows, whole_walk};

use store::{NODE_WIDTH, NUMBER_WIDTH};
use walk::{FRAMES, NO_FRAME};

// Whether the rows are exactly one tree that needs `count` numbers.
fn is_tree(nodes: &[u32], count: usize) -> bool
    ensures { result ≡ is_some (whole_walk nodes.now count) }
{
    let mut frames = [NO_FRAME; FRAMES];
    let mut w = walk::start(&mut frames);
    for i in 0..store::node_room(nodes) {
        let entered = walk::enter(
            &mut frames,
            count,
            w,
            store::kind_at(nodes, i),
            store::dimension_at(nodes, i),
            store::parts_at(nodes, i),
        );
        let Some(after) = entered else {
            return false;
        };
        w = after;
    }
    walk::has_ended(&frames, count, w)
}

// The text of a number: what of its span lies in the text.
pub fn number_text<'a>(text: &'a [u8], numbers: &[u32], i: usize) -> &'a [u8]
    ensures { result.now ≡ text_at text.now numbers.now i }
{
    let start = store::start_at(numbers, i) as usize;
    let end = start + (store::length_at(numbers, i) as usize);
    if end <= text.len() {
        return &text[start..end];
    }
    if start <= text.len() {
        return &text[start..];
    }
    &text[0..0]
}

// Whether a number lies in the text and is a lexeme.
pub fn is_number_at(text: &[u8], numbers: &[u32], i: usize) -> bool
    ensures { result ≡ is_number_at text.now numbers.now i }
{
    let start = store::start_at(numbers, i) as usize;
    let end = start + (store::length_at(numbers, i) as usize);
    if text.len() < end {
        return false;
    }
    let w = &text[start..end];
    number::is_plain(w) || number::is_lexeme(w)
}

// Whether each number lies in the text and is a lexeme.
fn are_numbers(text: &[u8], numbers: &[u32]) -> bool
    ensures { result ≡ are_numbers text.now numbers.now }
{
    for i in 0..store::number_room(numbers) {
        if !is_number_at(text, numbers, i) {
            return false;
        }
    }
    true
}

// Whether the slices hold whole rows, and each number lies in the text and is a lexeme.
pub fn are_rows(text: &[u8], nodes: &[u32], numbers: &[u32]) -> bool
    ensures { result ≡ are_rows text.now nodes.now numbers.now }
{
    if (nodes.len() % NODE_WIDTH != 0) | (numbers.len() % NUMBER_WIDTH != 0) {
        return false;
    }
    are_numbers(text, numbers)
}

// Whether a store is well formed.
pub fn check(text: &[u8], nodes: &[u32], numbers: &[u32]) -> bool
    ensures { result ≡ well_formed text.now nodes.now numbers.now }
{
    if are_rows(text, nodes, numbers) {
        return is_tree(nodes, store::number_room(numbers));
    }
    false
}
