// The settings that a board writes: one table of them, and the place that each has in a store.
#![tactic(auto)]

pub mod place;
pub mod table;
