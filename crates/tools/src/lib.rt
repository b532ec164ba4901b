//! The player as a library: the commands of a session as they are put to a port, the piles, and the lines it prints.
#![tactic(auto)]

mod calls;
pub mod lines;
pub mod piles;
mod player;
