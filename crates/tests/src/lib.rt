//! Tests of the crates below, with expectations from the rules. They have a crate of their own, since a crate with tests
//! is proved twice.
#![tactic(auto)]

#[cfg(test)]
mod adapter_runs;
#[cfg(test)]
mod printing;
#[cfg(test)]
mod queues;
#[cfg(test)]
mod runs;
#[cfg(test)]
mod session_files;
