//! What a scripted memory does with a command that is taken: it owes the words of a read, as the bytes are then, and
//! stores the beat of a write.
ghost use Rattle.std.specs.Prelude.{◌≡◌, ◌+◌, ◌*◌, ◌≤◌, ◌++◌, length};
ghost use Rattle.agents.specs.Memory.{Acted, Ready};
ghost use Rattle.agents.specs.Queue.{items, room};
ghost use Rattle.port.specs.Lanes.{byte_in, words_at};
ghost use Rattle.port.specs.Machine.{beat_offset};
ghost use Rattle.port.specs.declared.calls.Reply.TheVariants.{Take};

use crate::lanes::Bytes;
use crate::memory::{Parts, ReadBurst};
use crate::queue::Ring;
use port::addresses::WordOffset;
use port::calls::{Command, OpenBurst, Reply, Word};
use port::width::Width;

/// Where the beat of a write goes: to its own offset, or to the next of the open burst.
fn beat_place(burst: Option<OpenBurst>, offset: WordOffset) -> WordOffset
    ensures { result.0 ≡ beat_offset burst offset.0 }
{
    burst.map_or(offset, |burst| WordOffset(burst.next))
}

/// Puts the words of a read burst, as the bytes are now, after the words owed.
#[tactic(auto, unfolding(port::specs::Lanes::words_at))]
fn owe_words<W: Width>(
    words: &mut Ring<'_, Word>,
    bytes: &Bytes<'_>,
    offset: WordOffset,
    count: u16,
)
    requires fits { length (items words.old) + count ≤ room words.old }
    requires within { (offset.0 + count ≤ 32768) × ((offset.0 + count) * W.BYTES ≤ length bytes.now.all.now) }
    ensures same { room words.new ≡ room words.old }
    ensures owes { items words.new ≡ items words.old ++ words_at W.BYTES (byte_in bytes.now.all.now) offset.0 count }
{
    for place in offset.0..offset.0 + count as u32 {
        words.push(bytes.word_at::<W>(WordOffset(place)));
    }
}

impl<'a> Parts<'a> {
    /// Takes a command: owes the words of a read, or stores the beat of a write.
    fn accept<W: Width>(&mut self, command: Command)
        requires { Ready W.BYTES self.old command Take }
        ensures { Acted W.BYTES self.old command Take self.new }
    {
        self.waits.advance();
        match command {
            Command::Idle => {}
            Command::Read { offset, count } => {
                owe_words::<W>(&mut self.words, &self.bytes, offset, count);
                self.bursts.push(ReadBurst { left: count });
            }
            Command::Write {
                offset,
                mask,
                word,
                ..
            } => {
                let place = beat_place(self.plain.burst, offset);
                self.bytes.store_word::<W>(place, mask, word);
            }
        }
    }

    /// Acts on a command as it was answered.
    pub(crate) fn act<W: Width>(&mut self, command: Command, reply: Reply)
        requires { Ready W.BYTES self.old command reply }
        ensures { Acted W.BYTES self.old command reply self.new }
    {
        match reply {
            Reply::Idle | Reply::Wait => {}
            Reply::Take => self.accept::<W>(command),
        }
    }
}
