// Collections: `types/geometrycollection.rs` of the Rust.
ghost use Rattle.std.specs.Prelude.{◌≡◌};
ghost use Rattle.refusals.specs.Refusals.{too_deep};
ghost use Rattle.tokenizer.specs.Tokens.{cursor_at};
ghost use Rattle.grammar.specs.Grammar.{refusal};
ghost use Rattle.answers.specs.declared.Unread.TheVariants.{Stopped};
ghost use Rattle.answers.specs.Reading.{Fits, Reads};
ghost use Rattle.wkt.specs.Parts.{collection_of};

use crate::geometry;
use answers::{Spot, Unread, after_part, after_refusal, at_cursor, closing, moved, open_node};
use kinds::KIND_GEOMETRYCOLLECTION;
use refusals::TOO_DEEP;
use token::Refusal;
use tokenizer::Cursor;

// The end of the reading at a collection whose `(` was taken at `place`, where no more may be opened.
fn too_deep(place: usize, s: Spot) -> Result<Spot, Unread>
    ensures { result ≡ Err (Stopped (refusal too_deep place) (cursor_at s.at)) }
{
    Err(Unread::Stopped(
        Refusal {
            number: TOO_DEEP,
            place,
        },
        Cursor::new(s.at),
    ))
}

// A collection whose `(` was taken at `place`; with this one `depth` more may be opened.
// Kept (2): the loop is that of `parts::by_commas`, but its children are geometries, which are given a depth: "Two parsing
// functions call each other" (document 01), and no trait stands between them.
#[cycle(geometry_collection)]
pub(crate) fn collection(
    text: &[u8],
    nodes: &mut [u32],
    numbers: &mut [u32],
    dimension: u32,
    place: usize,
    depth: u32,
    s: Spot,
) -> Result<Spot, Unread>
    requires { Fits text.now nodes.old numbers.old s }
    ensures { Reads text.now (collection_of depth dimension place) s nodes.old numbers.old result nodes.new numbers.new }
{
    if depth == 0 {
        return too_deep(place, s);
    }
    let row = s.nodes;
    let mut here = open_node(nodes, KIND_GEOMETRYCOLLECTION, dimension, place, s)?;
    let mut parts: u32 = 0;
    loop {
        let end = after_refusal(text, geometry(text, nodes, numbers, depth - 1, here))?;
        parts += 1;
        let passed = after_part(text, end);
        let next = passed.next;
        if !passed.comma {
            return closing(text, nodes, row, parts, at_cursor(next, end));
        }
        here = moved(next.at, end);
    }
}
