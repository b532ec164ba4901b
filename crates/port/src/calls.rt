//! What is put to a port and what it answers.
use crate::addresses::WordOffset;

mod printed;
mod refusals;

/// A word as it travels: lane i is bits 8i to 8i + 7.
pub type Word = u64;

/// What a host puts to a port in one clock call.
// All four stand flat, as the signals of the interface do: with a struct of two of them each rule would match on two
// more names.
#[derive(Clone, Copy, PartialEq, Eq, Debug)]
pub enum Command {
    Idle,
    Read {
        offset: WordOffset,
        count: u16,
    },
    Write {
        offset: WordOffset,
        count: u16,
        mask: u8,
        word: Word,
    },
}

/// How a clocked call is answered: an idle command by `Idle`, any other by `Wait` or `Take`.
#[derive(Clone, Copy, PartialEq, Eq, Debug)]
pub enum Reply {
    Idle,
    Wait,
    Take,
}

/// Why something is refused, with its number.
#[derive(Clone, Copy, PartialEq, Eq, Debug)]
pub enum Refusal {
    /// A number or a count is outside its range.
    OutOfRange = 2,
    /// The port below an adapter does not serve it: its burst limit is too small, or something is open, held or owed.
    PortBelow = 3,
    /// A bound on waits or on silence would be above 100,000,000.
    Bound = 4,
    /// An opening count is 0 or above the burst limit.
    Count = 5,
    /// An opening burst ends past the last word.
    PastEnd = 6,
    /// An opening byte address is no multiple of the width.
    Misaligned = 7,
    /// A mask or a word has bits beyond the width.
    Lanes = 8,
    /// Read and write in one command.
    ReadAndWrite = 9,
    /// Too few free places.
    NoPlace = 10,
    /// Another command is held.
    Held = 11,
    /// A read while a write burst is open.
    InBurst = 12,
}

/// What a call that is not refused brings: a reply, with one word or none.
pub type Clocked = (Reply, Option<Word>);

/// The answer to a clock call.
pub type Answer = Result<Clocked, Refusal>;

/// An open write burst: where its next beat goes, and how many beats are left.
#[derive(Clone, Copy)]
pub struct OpenBurst {
    pub next: u32,
    pub left: u16,
}
