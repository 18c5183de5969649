// Tests of the check sequence and of frames through their public calls; a crate with tests of its own would be proved twice.
#![tactic(auto)]

#[cfg(test)]
mod frames;
#[cfg(test)]
mod sums;
