// Tests of recordings through their public calls; a crate with tests of its own would be proved twice.
#![tactic(auto)]

#[cfg(test)]
mod recordings;
