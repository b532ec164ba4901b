//! The record of a port at reset, and after a clocked call. Sums saturate, and the contracts show that none does
//! in a legal state.
ghost use Rattle.std.specs.Prelude.{◌≡◌, ℕ, ◌<◌, ◌≤◌, List, length, None, Option};
ghost use Rattle.port.specs.Legal.{Came, Legal, WithinReach, came_word, tally, word_of};
ghost use Rattle.port.specs.Machine.{acted, beat_offset, burst_after, given, moved, refusal_in, rest_of_burst};
ghost use Rattle.port.specs.State.{State, reset};
ghost use Rattle.port.specs.declared.calls.Reply.TheVariants.{Take};

use crate::calls::{Clocked, Command, OpenBurst, Reply, Word};
use crate::numbers::Numbers;
use crate::record::{PortRecord, Returned};

/// What is open after a beat at an offset, of which this many beats were left with it.
fn open_rest(offset: u32, beats: u16) -> Option<OpenBurst>
    ensures { offset < 65536 → result ≡ rest_of_burst offset beats }
{
    if beats > 1 {
        Some(OpenBurst {
            next: offset.saturating_add(1),
            left: beats - 1,
        })
    } else {
        None
    }
}

/// What is open after a write's beat is taken.
fn open_next(burst: Option<OpenBurst>, offset: u32, count: u16) -> Option<OpenBurst>
    ensures { beat_offset burst offset < 65536 → result ≡ burst_after burst offset count }
{
    match burst {
        None => open_rest(offset, count),
        Some(burst) => open_rest(burst.next, burst.left),
    }
}

impl Returned {
    /// The word.
    pub fn word(self) -> Word
        ensures { result ≡ word_of self }
    {
        match self {
            Returned::More(word) | Returned::Last(word) => word,
        }
    }
}

impl PortRecord {
    /// The record of a port at reset.
    pub fn new(numbers: Numbers) -> PortRecord
        ensures { (image : List ℕ) → result ≡ tally numbers (reset image) }
    {
        PortRecord {
            numbers,
            burst: None,
            held: None,
            words_owed: 0,
            bursts_owed: 0,
            waits: 0,
            silence: 0,
        }
    }

    /// What a returned word, or none, leaves owed.
    fn give(&mut self, returned: Option<Returned>)
        ensures { (n : Numbers) (σ : State) → self.old ≡ tally n σ → σ.silence ≤ 100000000
            → Came returned σ.reads → self.new ≡ tally n (given (came_word returned) σ) }
    {
        match returned {
            None => {
                self.silence = if self.words_owed > 0 {
                    self.silence.saturating_add(1)
                } else {
                    0
                };
            }
            Some(Returned::More(_)) => {
                self.words_owed = self.words_owed.saturating_sub(1);
                self.silence = 0;
            }
            Some(Returned::Last(_)) => {
                self.words_owed = self.words_owed.saturating_sub(1);
                self.bursts_owed = self.bursts_owed.saturating_sub(1);
                self.silence = 0;
            }
        }
    }

    /// Idle, or a command that is taken.
    fn take(&mut self, command: Command)
        ensures { (n : Numbers) (σ : State) → self.old ≡ tally n σ → length σ.owed ≤ 65536 → length σ.reads ≤ 16
            → WithinReach σ.burst command → self.new ≡ tally n (acted n.width command Take σ) }
    {
        match command {
            Command::Idle => {}
            Command::Read { count, .. } => {
                self.held = None;
                self.waits = 0;
                self.words_owed = self.words_owed.saturating_add(count as u32);
                self.bursts_owed = self.bursts_owed.saturating_add(1);
            }
            Command::Write { offset, count, .. } => {
                self.held = None;
                self.waits = 0;
                self.burst = open_next(self.burst, offset.0, count);
            }
        }
    }

    /// Idle, wait or take.
    fn act(&mut self, command: Command, reply: Reply)
        ensures { (n : Numbers) (σ : State) → self.old ≡ tally n σ → length σ.owed ≤ 65536 → length σ.reads ≤ 16
            → σ.waits ≤ 100000000 → WithinReach σ.burst command → self.new ≡ tally n (acted n.width command reply σ) }
    {
        match reply {
            Reply::Idle => {}
            Reply::Wait => {
                self.held = Some(command);
                self.waits = self.waits.saturating_add(1);
            }
            Reply::Take => self.take(command),
        }
    }

    /// Moves with a call that is not refused: the make of port says how it answers and what came back.
    // Inlined: else the word and the reply go through memory in every call of a port. With `check` inlined too, tried, a
    // call that an adapter refuses took twice as long.
    #[inline(always)]
    pub fn clock(&mut self, command: Command, reply: Reply, returned: Option<Returned>) -> Clocked
        ensures moves { (n : Numbers) (σ : State) → self.old ≡ tally n σ → Legal n σ → refusal_in n σ command ≡ None
            → Came returned σ.reads → self.new ≡ tally n (moved n.width σ command reply (came_word returned)) }
        ensures answer { result ≡ (reply, came_word returned) }
    {
        self.give(returned);
        self.act(command, reply);
        (reply, returned.map(Returned::word))
    }
}
