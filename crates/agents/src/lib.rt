//! Agents behind a port. `memory` has the scripted memory, which is a port over storage that is lent to it, and `queue`
//! the queue over lent storage that it keeps its words and bursts in.
#![tactic(auto)]

mod lanes;
pub mod memory;
pub mod queue;
mod script;
