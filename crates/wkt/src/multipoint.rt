// Multipoints: `types/multipoint.rs` of the Rust.
ghost use Rattle.std.specs.Prelude.{◌<◌};
ghost use Rattle.answers.specs.Reading.{Fits, Reads, list_of, closed_of};
ghost use Rattle.wkt.specs.Parts.{point_of};

use crate::parts::by_commas;
use crate::point::Point;
use answers::{Spot, Unread};

// Points by commas and the closing token, of the multipoint in `row`.
pub(crate) fn points(
    text: &[u8],
    nodes: &mut [u32],
    numbers: &mut [u32],
    row: usize,
    dimension: u32,
    s: Spot,
) -> Result<Spot, Unread>
    requires { (row < s.nodes) × Fits text.now nodes.old numbers.old s }
    ensures { Reads text.now (closed_of (list_of row (point_of dimension))) s nodes.old numbers.old result nodes.new numbers.new }
{
    by_commas::<Point>(text, nodes, numbers, row, dimension, s)
}
