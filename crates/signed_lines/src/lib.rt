// Signed numbers as they are printed: whole, in units as decimals, and in the places of a table. The contracts say what stands in the buffer, as in
// `printing`.
#![tactic(auto)]

pub mod numbers;
pub mod places;
