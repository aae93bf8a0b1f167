// Line strings: `types/linestring.rs` of the Rust.
ghost use Rattle.kinds.specs.Kinds.{kind_line_string};
ghost use Rattle.answers.specs.Reading.{list_of};
ghost use Rattle.wkt.specs.Parts.{coord_of, line_of};

use crate::coord::Coordinate;
use crate::parts::{ByCommas, InParens, by_commas, unnamed};
use answers::{Spot, Unread};
use kinds::KIND_LINESTRING;

// A line string: coordinates by commas. Without a name it is what a polygon and a multi line string have by commas.
pub(crate) struct LineString;

impl InParens for LineString {
    ghost KIND = { kind_line_string };

    ghost holds = { λ d i. list_of i (coord_of d) };

    const KIND: u32 = KIND_LINESTRING;

    fn body(
        text: &[u8],
        nodes: &mut [u32],
        numbers: &mut [u32],
        row: usize,
        dimension: u32,
        s: Spot,
    ) -> Result<Spot, Unread> {
        by_commas::<Coordinate>(text, nodes, numbers, row, dimension, s)
    }
}

impl ByCommas for LineString {
    ghost means = { line_of };

    fn read(
        text: &[u8],
        nodes: &mut [u32],
        numbers: &mut [u32],
        dimension: u32,
        s: Spot,
    ) -> Result<Spot, Unread> {
        unnamed::<LineString>(text, nodes, numbers, dimension, s)
    }
}
