//! The plain record that every make of port holds: its numbers, and what is open, held and owed, as counts.
use crate::calls::{Command, OpenBurst, Word};
use crate::numbers::Numbers;

mod moves;
mod refusals;

/// What a port keeps besides its memory and the words owed.
#[derive(Clone, Copy)]
pub struct PortRecord {
    pub numbers: Numbers,
    pub burst: Option<OpenBurst>,
    pub held: Option<Command>,
    pub words_owed: u32,
    pub bursts_owed: u8,
    pub waits: u32,
    pub silence: u32,
}

/// A word that came back in a clock call.
#[derive(Clone, Copy)]
pub enum Returned {
    /// More of its burst is to come.
    More(Word),
    /// It is the last of its burst.
    Last(Word),
}
