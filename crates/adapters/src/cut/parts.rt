//! The parts of a slot, and the slot that a command fills.
ghost use Rattle.std.specs.Prelude.{◌≡◌, ◌+◌, ◌*◌, ◌%◌, ◌^◌, ◌<◌, ◌≤◌};
ghost use Rattle.adapters.specs.Owed.{lanes_of};
ghost use Rattle.adapters.specs.Cuts.{Loadable, Placed, after_part, beat_slot, in_one_burst, lanes_up, next_part, offset_below, slot_for};

use crate::cut::{Shape, Slot, Task};
use port::addresses::WordOffset;
use port::calls::{Command, OpenBurst, Word};

/// A number moved up by some bits, which leave it whole.
pub(crate) fn move_up(number: u64, bits: u8) -> u64
    requires { (bits < 64) × (number * 2 ^ bits < 2 ^ 64) }
    ensures { result ≡ number * 2 ^ bits }
{
    number << bits
}

/// The lowest bits of a number.
fn low_bits(number: u64, bits: u8) -> u64
    requires { bits ≤ 64 }
    ensures { result ≡ number % 2 ^ bits }
{
    (number as u128 % (1 << bits)) as u64
}

// How a slot is placed, and what a command asks, depends on both values, so it is asked and stands in neither type.
impl Shape {
    /// The word below in which a host word begins.
    fn below(self, host: WordOffset) -> WordOffset
        requires { host.0 ≤ 32768 }
        ensures { result.0 ≡ offset_below self.cut host.0 }
    {
        WordOffset(host.0 * self.cut.parts as u32 / self.cut.share as u32)
    }

    /// How many of `left` host words go into the next burst below.
    fn burst_size(self, left: u16) -> u16
        ensures { (result ≡ in_one_burst self.cut left) × (result ≤ self.cut.most) }
    {
        left.min(self.cut.most as u16)
    }

    /// By how many lanes a host word stands above the first lane of the word below in which it begins.
    fn lanes_up(self, host: WordOffset) -> u8
        ensures { (result ≡ lanes_up self.cut self.width host.0) × (result + self.width ≤ self.cut.share * self.width) }
    {
        (host.0 % self.cut.share as u32) as u8 * self.width
    }

    /// The host word in the joined words below.
    pub(crate) fn lanes_of(self, host: WordOffset, joined: Word) -> Word
        ensures { result ≡ lanes_of self.cut self.width host.0 joined }
    {
        let up = self.lanes_up(host);
        low_bits(joined >> (8 * up), 8 * self.width)
    }

    /// The next part of a slot; idle where it is empty.
    pub(crate) fn next_part(self, slot: Slot) -> Command
        requires { Placed self.cut slot }
        ensures { result ≡ next_part self.cut slot }
    {
        match slot {
            None => Command::Idle,
            Some(Task::Read { next, left }) => Command::Read {
                offset: self.below(next),
                count: self.burst_size(left) * self.cut.parts as u16,
            },
            Some(
                Task::Beat {
                    place,
                    mask,
                    word,
                    left,
                    ..
                },
            ) => Command::Write {
                offset: place,
                count: self.burst_size(left) * self.cut.parts as u16,
                mask: low_bits(mask as u64, self.cut.width) as u8,
                word: low_bits(word, 8 * self.cut.width),
            },
        }
    }

    /// A slot when its next part is taken.
    pub(crate) fn after_part(self, slot: Slot) -> Slot
        requires { Placed self.cut slot }
        ensures { result ≡ after_part self.cut slot }
    {
        match slot {
            Some(Task::Read { next, left }) if left > self.cut.most as u16 => Some(Task::Read {
                next: WordOffset(next.0 + self.cut.most as u32),
                left: left - self.cut.most as u16,
            }),
            Some(
                Task::Beat {
                    place,
                    parts,
                    mask,
                    word,
                    left,
                },
            ) if parts > 1 => Some(Task::Beat {
                place: WordOffset(place.0 + 1),
                parts: parts - 1,
                mask: mask >> self.cut.width,
                word: word >> (8 * self.cut.width),
                left,
            }),
            _ => None,
        }
    }

    /// The slot of a beat to a host word, of which so many are left.
    fn beat_slot(self, host: WordOffset, left: u16, mask: u8, word: Word) -> Slot
        requires near { host.0 ≤ 32768 }
        requires lanes { (mask < 2 ^ self.width) × (word < 2 ^ (8 * self.width)) }
        ensures { result ≡ beat_slot self.cut self.width host.0 left mask word }
    {
        let up = self.lanes_up(host);
        Some(Task::Beat {
            place: self.below(host),
            parts: self.cut.parts,
            mask: move_up(mask as u64, up) as u8,
            word: move_up(word, 8 * up),
            left,
        })
    }

    /// The slot that a taken command fills, while this write burst is open above.
    pub(crate) fn slot_for(self, burst: Option<OpenBurst>, command: Command) -> Slot
        requires { Loadable self.width burst command }
        ensures { result ≡ slot_for self.cut self.width burst command }
    {
        match (burst, command) {
            (_, Command::Idle) => None,
            (_, Command::Read { offset, count }) => Some(Task::Read {
                next: offset,
                left: count,
            }),
            (
                None,
                Command::Write {
                    offset,
                    count,
                    mask,
                    word,
                },
            ) => self.beat_slot(offset, count, mask, word),
            (Some(burst), Command::Write { mask, word, .. }) => {
                self.beat_slot(WordOffset(burst.next), burst.left, mask, word)
            }
        }
    }
}
