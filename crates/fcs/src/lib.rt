// FCS-16, the check sequence of a frame, as in RFC 1662: the table, the step through it, the sum of a row of bytes.
#![tactic(auto)]

mod sum;
mod table;

pub use sum::fcs16;
pub use table::fcs_table;
