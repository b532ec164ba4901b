//! Adapters: ports over any port. A narrower, a splitter and a widener put a host of one width and burst length over a
//! port of another; all three are one engine with different numbers.
#![tactic(auto)]

pub mod adapter;
pub mod cases;
mod cut;
mod owed;
pub mod pile;
