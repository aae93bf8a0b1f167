// Polygons: `types/polygon.rs` of the Rust.
ghost use Rattle.kinds.specs.Kinds.{kind_polygon};
ghost use Rattle.answers.specs.Reading.{list_of};
ghost use Rattle.wkt.specs.Parts.{line_of, polygon_of};

use crate::linestring::LineString;
use crate::parts::{ByCommas, InParens, by_commas, unnamed};
use answers::{Spot, Unread};
use kinds::KIND_POLYGON;

// A polygon: line strings by commas. Without a name it is what a multipolygon has by commas.
pub(crate) struct Polygon;

impl InParens for Polygon {
    ghost KIND = { kind_polygon };

    ghost holds = { λ d i. list_of i (line_of d) };

    const KIND: u32 = KIND_POLYGON;

    fn body(
        text: &[u8],
        nodes: &mut [u32],
        numbers: &mut [u32],
        row: usize,
        dimension: u32,
        s: Spot,
    ) -> Result<Spot, Unread> {
        by_commas::<LineString>(text, nodes, numbers, row, dimension, s)
    }
}

impl ByCommas for Polygon {
    ghost means = { polygon_of };

    fn read(
        text: &[u8],
        nodes: &mut [u32],
        numbers: &mut [u32],
        dimension: u32,
        s: Spot,
    ) -> Result<Spot, Unread> {
        unnamed::<Polygon>(text, nodes, numbers, dimension, s)
    }
}
