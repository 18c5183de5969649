// Tests of service values and of their table through the public calls; a crate with tests of its own would be proved twice.
#![tactic(auto)]

#[cfg(test)]
mod tables;
#[cfg(test)]
mod values;
