// Stores of the settings' values: what every store does, the two that there are, and two side by side.
#![tactic(auto)]

pub mod interface;
pub mod log;
pub mod operation;
pub mod records;
mod rows;
pub mod slot;
