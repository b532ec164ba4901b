//! The timing of a scripted memory: how a command is answered, and whether a word comes back. Both go by the state and
//! the scripts as they are at the start of a call.
ghost use Rattle.std.specs.Prelude.{◌≡◌, ◌<◌, length, Some, nat_le};
ghost use Rattle.agents.specs.Memory.{Gave, fixed_of, lefts, state_of};
ghost use Rattle.agents.specs.Queue.{room};
ghost use Rattle.agents.specs.Scripts.{value_now};
ghost use Rattle.agents.specs.Timing.{reply_to};
ghost use Rattle.port.specs.Legal.{Came, came_word, total, word_of};
ghost use Rattle.port.specs.Machine.{one_came};

use crate::memory::{Parts, ReadBurst, ScriptedMemory};
use crate::queue::Ring;
use port::calls::{Command, Reply, Word};
use port::record::Returned;
use port::width::Width;

/// A word of the oldest read burst comes back: the burst has one fewer left, or it is owed no more.
// An adapter counts its bursts down likewise, in places of its own, each with the word that comes next.
fn count_down(bursts: &mut Ring<'_, ReadBurst>, word: Word) -> Returned
    requires { 0 < length (lefts bursts.old) }
    ensures same { room bursts.new ≡ room bursts.old }
    ensures counts { lefts bursts.new ≡ one_came (lefts bursts.old) }
    ensures word { word_of result ≡ word }
    ensures told { Came (Some result) (lefts bursts.old) }
{
    let left = bursts.first().unwrap().left;
    if left > 1 {
        bursts.replace_first(ReadBurst { left: left - 1 });
        Returned::More(word)
    } else {
        let _ = bursts.take();
        Returned::Last(word)
    }
}

impl<'a> Parts<'a> {
    /// Whether enough calls have gone by for the next word.
    fn gap_is_over(&self) -> bool
        ensures { result ≡ nat_le (value_now self.now.gaps) self.now.plain.silence }
    {
        self.gaps.value() as u32 <= self.plain.silence
    }

    /// Returns the first word owed, if the gap is over.
    pub(crate) fn give(&mut self) -> Option<Returned>
        requires { total (state_of self.old).reads ≡ length (state_of self.old).owed }
        ensures gave { Gave self.old (came_word result) self.new }
        ensures told { Came result (lefts self.old.bursts) }
    {
        if !self.gap_is_over() {
            return None;
        }
        let word = self.words.take()?;
        self.gaps.advance();
        Some(count_down(&mut self.bursts, word))
    }
}

impl<'a, W: Width> ScriptedMemory<'a, W> {
    /// How a command that is not refused is answered.
    pub(crate) fn reply(&self, command: Command) -> Reply
        ensures { result ≡ reply_to (fixed_of self.now.parts) (state_of self.now.parts) (value_now self.now.parts.waits) command }
    {
        let parts = &self.parts;
        let early = parts.plain.waits < parts.waits.value() as u32;
        let full = parts.plain.bursts_owed >= parts.plain.numbers.pending_limit;
        match command {
            Command::Idle => Reply::Idle,
            Command::Read { .. } if early || full => Reply::Wait,
            Command::Write { .. } if early => Reply::Wait,
            _ => Reply::Take,
        }
    }
}
