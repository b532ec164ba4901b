//! When the port machine refuses a command.
ghost use Rattle.std.specs.Prelude.{◌≡◌, ◌+◌, ◌*◌};
ghost use Rattle.port.specs.Machine.{repeats, opening_rule, lanes_rule, command_rule, refusal_by};
ghost use Rattle.port.specs.Refusals.{Checked};

use crate::calls::{Command, OpenBurst, Refusal, Word};
use crate::numbers::Numbers;
use crate::record::PortRecord;

/// Whether a command is the one that is held. Of a next beat only mask and word count, and idle is never held.
fn is_repeat(burst: Option<OpenBurst>, held: Command, command: Command) -> bool
    ensures { result ≡ repeats burst held command }
{
    match (burst, held, command) {
        (_, Command::Idle, _) => false,
        (
            Some(_),
            Command::Write { mask, word, .. },
            Command::Write {
                mask: m,
                word: d,
                ..
            },
        ) => mask == m && word == d,
        _ => held == command,
    }
}

impl Numbers {
    /// Whether an opening command is in range.
    fn check_opening(&self, offset: u32, count: u16) -> Result<(), Refusal>
        ensures { Checked result (opening_rule self.now offset count) }
    {
        if count == 0 || count > self.burst_limit as u16 {
            return Err(Refusal::Count);
        }
        if offset as u64 + count as u64 > self.words as u64 {
            return Err(Refusal::PastEnd);
        }
        Ok(())
    }

    /// Whether the mask and the word of a write have no bits beyond the width. From a width of eight bytes on, every bit
    /// has a lane.
    fn check_lanes(&self, mask: u8, word: Word) -> Result<(), Refusal>
        ensures { Checked result (lanes_rule self.now mask word) }
    {
        if self.width >= 8 {
            return Ok(());
        }
        if mask >= 1 << self.width || word >= 1 << (8 * self.width) {
            return Err(Refusal::Lanes);
        }
        Ok(())
    }

    /// Whether a command that no hold speaks against is not refused.
    fn check_command(&self, burst: Option<OpenBurst>, command: Command) -> Result<(), Refusal>
        ensures { Checked result (command_rule self.now burst command) }
    {
        match (burst, command) {
            (_, Command::Idle) => Ok(()),
            (Some(_), Command::Read { .. }) => Err(Refusal::InBurst),
            (None, Command::Read { offset, count }) => self.check_opening(offset.0, count),
            (Some(_), Command::Write { mask, word, .. }) => self.check_lanes(mask, word),
            (
                None,
                Command::Write {
                    offset,
                    count,
                    mask,
                    word,
                },
            ) => {
                self.check_opening(offset.0, count)?;
                self.check_lanes(mask, word)
            }
        }
    }
}

impl PortRecord {
    /// Whether a command is not refused in this state.
    pub fn check(&self, command: Command) -> Result<(), Refusal>
        ensures { Checked result (refusal_by self.now.numbers self.now.burst self.now.held command) }
    {
        if let Some(held) = self.held {
            if !is_repeat(self.burst, held, command) {
                return Err(Refusal::Held);
            }
        }
        self.numbers.check_command(self.burst, command)
    }
}
