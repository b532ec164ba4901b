//! The scripted memory: a port over bytes that are lent to it. One script says how often each command waits, and another
//! how many calls go by before each word.
ghost use Rattle.agents.specs.Scripts.{InPlace};

use crate::lanes::Bytes;
use crate::queue::Ring;
use crate::script::Script;
use port::calls::Word;
use port::record::PortRecord;

mod build;
mod clocks;
mod moves;
mod timing;

pub use clocks::ScriptedMemory;

/// A read burst that is owed.
#[derive(Clone, Copy)]
pub struct ReadBurst {
    /// How many of its words have not come back.
    pub left: u16,
}

// Five slices that are lent, with the room of each: a memory needs no heap.

/// What a memory is built over. The scripts say how often a command waits, and how many calls go by between words.
#[derive(Drop)]
pub struct Storage<'a> {
    pub bytes: &'a mut [u8],
    pub waits: &'a [u8],
    pub gaps: &'a [u8],
    /// Places for the words owed.
    pub words: &'a mut [Word],
    /// Places for the read bursts owed.
    pub bursts: &'a mut [ReadBurst],
}

/// What a memory holds, at any width of its words.
#[derive(Drop)]
pub(crate) struct Parts<'a> {
    bytes: Bytes<'a>,
    waits: Script<'a>,
    gaps: Script<'a>,
    words: Ring<'a, Word>,
    bursts: Ring<'a, ReadBurst>,
    plain: PortRecord,
    ghost waits_in: { InPlace waits },
    ghost gaps_in: { InPlace gaps },
}
