// Multipolygons: `types/multipolygon.rs` of the Rust.
ghost use Rattle.std.specs.Prelude.{◌<◌};
ghost use Rattle.answers.specs.Reading.{Fits, Reads, list_of, closed_of};
ghost use Rattle.wkt.specs.Parts.{polygon_of};

use crate::parts::by_commas;
use crate::polygon::Polygon;
use answers::{Spot, Unread};

// Polygons by commas and the closing token, of the multipolygon in `row`.
pub(crate) fn polygons(
    text: &[u8],
    nodes: &mut [u32],
    numbers: &mut [u32],
    row: usize,
    dimension: u32,
    s: Spot,
) -> Result<Spot, Unread>
    requires { (row < s.nodes) × Fits text.now nodes.old numbers.old s }
    ensures { Reads text.now (closed_of (list_of row (polygon_of dimension))) s nodes.old numbers.old result nodes.new numbers.new }
{
    by_commas::<Polygon>(text, nodes, numbers, row, dimension, s)
}
