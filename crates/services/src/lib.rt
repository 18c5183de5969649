// The table of the services that are held.
#![tactic(auto)]

pub mod table;
