// Recordings of a line: the pieces between their flags, and a listing of them.
#![tactic(auto)]

pub mod listing;
pub mod reader;
pub mod status;
mod writing;
