//! What an adapter owes its host: the read bursts, and the parts that have come of the first word.
use arrayvec::ArrayVec;
use port::addresses::WordOffset;
use port::calls::Word;

mod steps;

/// A read burst that is owed: its next word, and how many words are left.
#[derive(Clone, Copy, Default)]
pub(crate) struct OwedBurst {
    pub next: WordOffset,
    pub left: u16,
}

/// The read bursts owed, the oldest first. No port owes more than sixteen.
#[derive(Drop)]
pub(crate) struct OwedBursts {
    bursts: ArrayVec<OwedBurst, 16>,
}

/// The parts that have come of the first word owed, joined, and how many they are.
#[derive(Clone, Copy)]
pub(crate) struct Collected {
    value: Word,
    count: u8,
}
