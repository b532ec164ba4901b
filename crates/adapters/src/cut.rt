//! How an adapter cuts the commands of its host into commands for the port below: its parts.
ghost use Rattle.std.specs.Prelude.{◌*◌, ◌≤◌};

use port::addresses::WordOffset;
use port::calls::Word;

mod parts;

pub(crate) use parts::move_up;

/// The numbers by which commands are cut.
#[derive(Clone, Copy)]
pub(crate) struct Cut {
    /// Bytes per word below.
    pub width: u8,
    /// Words below that make one host word: k of a narrower, else 1.
    pub parts: u8,
    /// Host words that share one word below: f of a widener, else 1.
    pub share: u8,
    /// The most host words in one burst below.
    pub most: u8,
}

/// How an adapter cuts for a host with words of `width` bytes. The numbers are small enough for the sums in the code.
#[derive(Clone, Copy)]
pub(crate) struct Shape {
    pub cut: Cut,
    pub width: u8,
    ghost some: { (1 ≤ cut.width) × ((1 ≤ cut.parts) × ((1 ≤ cut.share) × (1 ≤ width))) },
    ghost few: { (cut.width ≤ 8) × ((cut.parts ≤ 8) × (cut.parts * cut.width ≤ 8)) },
    ghost shared: { cut.share * width ≤ 8 },
}

/// A command of the host, as far as its parts have not been taken below.
#[derive(Clone, Copy)]
pub(crate) enum Task {
    /// A read: the next host word to request, and how many are left.
    Read {
        next: WordOffset,
        left: u16,
    },
    /// A beat: the word below to which its next part goes, how many parts are left, its mask and word from there on, and how
    /// many beats the host's burst has left, this one counted.
    Beat {
        place: WordOffset,
        parts: u8,
        mask: u8,
        word: Word,
        left: u16,
    },
}

/// Where an adapter keeps the one command that it has taken.
pub(crate) type Slot = Option<Task>;
