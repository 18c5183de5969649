// Tests of the settings and of the stores through their public calls; a crate with tests of its own would be proved twice.
#![tactic(auto)]

#[cfg(test)]
mod places;
#[cfg(test)]
mod stores;
