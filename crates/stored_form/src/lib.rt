// The stored form of a tree (document 02, 2026-01 and 2026-05), nearly without code: what a version of the form has of its own, and what a head tells. Its fields
// and what reading any bytes comes to are in specs.
#![tactic(auto)]

ghost use Rattle.std.specs.Prelude.{◌≡◌};
ghost use Rattle.stored_form.specs.Form.{version_of};

pub const HEAD_TAG: u8 = 1;

pub const NODE_TAG: u8 = 2;

pub const NUMBER_TAG: u8 = 3;

// What a version of the form has of its own: the byte that names it, how many bytes a count has, the largest count, and how many bytes there may
// be in all.
#[derive(Clone, Copy)]
pub struct Version {
    pub number: u8,
    pub width: usize,
    pub largest: usize,
    pub limit: usize,
}

// Which version: the first, or the second, whose counts have more bytes.
#[derive(Clone, Copy)]
pub enum Edition {
    First,
    Second,
}

// How many nodes and how many numbers the head tells of.
#[derive(Clone, Copy)]
pub struct Counts {
    pub nodes: usize,
    pub numbers: usize,
}

// A refusal of the reader: its number and its place.
#[derive(Clone, Copy)]
pub struct Refusal {
    pub number: u32,
    pub place: usize,
}

// What a run of whole fields comes to: whether what they hold is well formed, and the place after them.
// Kept (1): the place counts in both cases: what stands there is looked at before rows that are no tree are refused.
#[derive(Clone, Copy)]
pub struct Seen {
    pub well: bool,
    pub end: usize,
}

pub fn version_of(edition: Edition) -> Version
    ensures { result ≡ version_of edition }
{
    match edition {
        Edition::First => Version {
            number: 1,
            width: 2,
            largest: 65_535,
            limit: 1_048_576,
        },
        Edition::Second => Version {
            number: 2,
            width: 4,
            largest: 4_294_967_295,
            limit: 67_108_864,
        },
    }
}
