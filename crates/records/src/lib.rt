// What the replay programs have in common: standard input through a buffer, the parts of a record, the rows that it brings, and the lines of
// answers. A record is a u32 (little-endian, as every number here) with the count of the bytes that follow it, and those bytes: a letter, the
// letter's fields as u32 each, its rows as u32 each, and what is left.
#![tactic(auto)]

pub mod input;
pub mod lines;
pub mod parts;
pub mod slices;
