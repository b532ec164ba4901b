//! The trait of a port: the port machine as a contract.
ghost use Rattle.std.specs.Prelude.{◌≡◌};
ghost use Rattle.port.specs.Answers.{Answer};
ghost use Rattle.port.specs.Legal.{Legal, tally};
ghost use Rattle.port.specs.Machine.{Moves};
ghost use Rattle.port.specs.State.{State};
ghost use Rattle.port.specs.declared.calls.Command.{Command};
ghost use Rattle.port.specs.declared.numbers.Numbers.{Numbers};

use crate::calls::{Answer, Command};
use crate::record::PortRecord;
use crate::width::Width;

/// A port with one clock.
pub trait Port {
    /// The width of its words, fixed by the make of port.
    type Width: Width;

    /// Bytes per word.
    const BYTES: u8 = Self::Width::BYTES;

    ghost fixed: { Self → Numbers };

    ghost state: { Self → State };

    // which calls wait and which return a word: left free here, and said by each make of port
    ghost timing: { Self → Command → Answer → Self → Type 0 };

    /// One clock call.
    fn clock(&mut self, command: Command) -> Answer
        ensures fixed { fixed self.new ≡ fixed self.old }
        ensures moves { Moves (fixed self.old) (state self.old) command result (state self.new) }
        ensures timing { timing self.old command result self.new };

    /// What may be asked of a port: its numbers, what is open and held, and how many words and bursts are owed. Asking
    /// changes nothing.
    fn status(&self) -> PortRecord
        ensures { result ≡ tally (fixed self.now) (state self.now) };

    ghost legal: { (x : Self) → Legal (fixed x) (state x) };

    ghost named: { (x : Self) → (fixed x).width ≡ Self.Width.BYTES };
}
