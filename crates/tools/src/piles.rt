//! The piles of a session: what the player builds, and the commands played on it.
ghost use Rattle.std.specs.Prelude.{◌≡◌};
ghost use Rattle.tools.specs.declared.piles.Stop.TheVariants.{Fault, NoMemory};

use agents::memory::ReadBurst;
use files::faults::Fault;
use files::kinds::Pile;
use port::calls::{Answer, Word};
use port::numbers::Numbers;
use std::alloc::AllocError;

mod build;

pub use build::play_file;

/// What is known at the end of a session.
#[derive(Clone, Copy)]
pub struct Summary {
    /// The numbers of the top port.
    pub top: Numbers,
    /// How many commands were taken, each beat counted.
    pub taken: usize,
    /// How many words are still owed.
    pub owed: u32,
}

/// A session that was played: its pile, an answer for each command, and the summary.
#[derive(Drop)]
pub struct Played {
    pub pile: Pile,
    pub answers: Vec<Answer>,
    pub summary: Summary,
}

/// What a pile is built over, and places for the answers.
#[derive(Drop)]
struct Places {
    bytes: Vec<u8>,
    words: Vec<Word>,
    bursts: Vec<ReadBurst>,
    answers: Vec<Answer>,
}

/// Why a file is not played.
#[derive(Clone, Copy)]
pub enum Stop {
    /// It is no session.
    Fault(Fault),
    /// There is no memory for it.
    NoMemory,
}

impl From<Fault> for Stop {
    ghost from_gives = { λ f s. s ≡ Fault f };

    fn from(fault: Fault) -> Stop {
        Stop::Fault(fault)
    }
}

impl From<AllocError> for Stop {
    ghost from_gives = { λ _ s. s ≡ NoMemory };

    fn from(_: AllocError) -> Stop {
        Stop::NoMemory
    }
}
