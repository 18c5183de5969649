// A service value: its fields, its bytes on the line, and its rule.
#![tactic(auto)]

pub mod domain;
pub mod value;
