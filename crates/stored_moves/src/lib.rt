// Moving stored bytes from one version of the form to another (document 02, 2026-06), without code: what a move answers. What it comes to, and what it
// leaves in all that it is lent, is in specs.
#![tactic(auto)]

// How many bytes were written, and how many rows of the lent store are used, with number and place 0; or a refusal's number and place, with zeros after
// them.
#[derive(Clone, Copy)]
pub struct MoveAnswer {
    pub number: u32,
    pub place: usize,
    pub length: usize,
    pub nodes: usize,
    pub numbers: usize,
}
