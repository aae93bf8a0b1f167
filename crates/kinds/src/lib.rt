// The numbers of the kinds and of the dimensions, and how many numbers a coordinate has.
#![tactic(auto)]

ghost use Rattle.std.specs.Prelude.{◌≡◌};
ghost use Rattle.kinds.specs.Kinds.{has_z, has_m, width};

pub const KIND_POINT: u32 = 1;

pub const KIND_LINESTRING: u32 = 2;

pub const KIND_POLYGON: u32 = 3;

pub const KIND_MULTIPOINT: u32 = 4;

pub const KIND_MULTILINESTRING: u32 = 5;

pub const KIND_MULTIPOLYGON: u32 = 6;

pub const KIND_GEOMETRYCOLLECTION: u32 = 7;

pub const DIM_XY: u32 = 0;

pub const DIM_XYZ: u32 = 1;

pub const DIM_XYM: u32 = 2;

pub const DIM_XYZM: u32 = 3;

pub fn has_z(dimension: u32) -> bool
    ensures { result ≡ has_z dimension }
{
    (dimension == DIM_XYZ) | (dimension == DIM_XYZM)
}

pub fn has_m(dimension: u32) -> bool
    ensures { result ≡ has_m dimension }
{
    (dimension == DIM_XYM) | (dimension == DIM_XYZM)
}

// How many numbers a coordinate has.
pub fn width_of(dimension: u32) -> usize
    ensures { result ≡ width dimension }
{
    2 + usize::from(has_z(dimension)) + usize::from(has_m(dimension))
}
