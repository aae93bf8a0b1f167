// What stands between commas, and what stands in parentheses without a name.
ghost use Rattle.std.specs.Prelude.{ℕ, ◌<◌};
ghost use Rattle.answers.specs.Reading.{Part, Fits, Reads, list_of, closed_of};
ghost use Rattle.wkt.specs.Parts.{with_body, unnamed_of};

use answers::{Spot, Unread, after_part, after_refusal, at_cursor, closing, moved, open_node};
use headings::{Head, opener};

// What is read by commas; `means` is what the grammar reads, by the dimension.
pub(crate) trait ByCommas {
    ghost means: { ℕ → Part };

    fn read(
        text: &[u8],
        nodes: &mut [u32],
        numbers: &mut [u32],
        dimension: u32,
        s: Spot,
    ) -> Result<Spot, Unread>
        requires { Fits text.now nodes.old numbers.old s }
        ensures { Reads text.now (means dimension) s nodes.old numbers.old result nodes.new numbers.new };
}

// Parts by commas and the closing token, of the node in `row`: `comma_many` of the Rust.
pub(crate) fn by_commas<P: ByCommas>(
    text: &[u8],
    nodes: &mut [u32],
    numbers: &mut [u32],
    row: usize,
    dimension: u32,
    s: Spot,
) -> Result<Spot, Unread>
    requires { (row < s.nodes) × Fits text.now nodes.old numbers.old s }
    ensures { Reads text.now (closed_of (list_of row (P.means dimension))) s nodes.old numbers.old result nodes.new numbers.new }
{
    let mut here = s;
    let mut parts: u32 = 0;
    // Kept (3): the parts end where no comma follows, so there is no range to count.
    loop {
        // Kept (1): `after_refusal` of all that was read, with `?`, copies it for each part: 10.9 instructions a byte where this
        // takes 10.4, on polygons, and more on shorter numbers.
        let end = match P::read(text, nodes, numbers, dimension, here) {
            Ok(end) => end,
            Err(unread) => return after_refusal(text, Err(unread)),
        };
        parts += 1;
        let passed = after_part(text, end);
        let next = passed.next;
        if !passed.comma {
            return closing(text, nodes, row, parts, at_cursor(next, end));
        }
        here = moved(next.at, end);
    }
}

// What stands in parentheses, of the kind `KIND`; `holds` is what the grammar reads there, by the dimension and the row.
pub(crate) trait InParens {
    ghost KIND: { ℕ };

    ghost holds: { ℕ → ℕ → Part };

    const KIND: u32;

    fn body(
        text: &[u8],
        nodes: &mut [u32],
        numbers: &mut [u32],
        row: usize,
        dimension: u32,
        s: Spot,
    ) -> Result<Spot, Unread>
        requires { (row < s.nodes) × Fits text.now nodes.old numbers.old s }
        ensures { Reads text.now (closed_of (holds dimension row)) s nodes.old numbers.old result nodes.new numbers.new };
}

// What stands in parentheses whose `(` was taken at `place`.
pub(crate) fn in_parens<B: InParens>(
    text: &[u8],
    nodes: &mut [u32],
    numbers: &mut [u32],
    dimension: u32,
    place: usize,
    s: Spot,
) -> Result<Spot, Unread>
    requires { Fits text.now nodes.old numbers.old s }
    ensures { Reads text.now (with_body B.KIND dimension (B.holds dimension) place) s nodes.old numbers.old result nodes.new numbers.new }
{
    let row = s.nodes;
    let here = open_node(nodes, B::KIND, dimension, place, s)?;
    B::body(text, nodes, numbers, row, dimension, here)
}

// The same without a name: in parentheses, or EMPTY.
pub(crate) fn unnamed<B: InParens>(
    text: &[u8],
    nodes: &mut [u32],
    numbers: &mut [u32],
    dimension: u32,
    s: Spot,
) -> Result<Spot, Unread>
    requires { Fits text.now nodes.old numbers.old s }
    ensures { Reads text.now (unnamed_of B.KIND B.holds dimension) s nodes.old numbers.old result nodes.new numbers.new }
{
    let head = opener(text, B::KIND, dimension, s.at)?;
    match head {
        Head::Opens(_, d, place, at) => {
            in_parens::<B>(text, nodes, numbers, d, place, moved(at, s))
        }
        Head::Empty(k, d, place, at) => open_node(nodes, k, d, place, moved(at, s)),
    }
}
