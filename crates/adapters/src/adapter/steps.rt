//! What an adapter does with its own data in a clocked call.
ghost use Rattle.std.specs.Prelude.{◌≡◌, ◌*◌, ◌≤◌, true, ◌++◌, length, Some, None};
ghost use Rattle.adapters.specs.Cuts.{Loadable, Placed, slot_for};
ghost use Rattle.adapters.specs.Engine.{Collects, Due, RoomFor, Settled, Workable, burst_of, host_width, reply_above, slot_sent};
ghost use Rattle.adapters.specs.Owed.{bursts_in, lefts};
ghost use Rattle.port.specs.Legal.{Came, came_word};

use crate::adapter::Engine;
use crate::owed::OwedBurst;
use port::calls::{Clocked, Command, Reply, Word};
use port::record::Returned;

impl Engine {
    // A memory waits by its script, an adapter while a task is below: two rules, and nothing of one is in the other.

    /// How a command that is not refused is answered.
    fn reply(&self, command: Command) -> Reply
        ensures { result ≡ reply_above self.now.slot self.now.plain.bursts_owed self.now.plain.numbers.pending_limit command }
    {
        let free = self.slot.is_none();
        let room = self.plain.bursts_owed < self.plain.numbers.pending_limit;
        match command {
            Command::Idle => Reply::Idle,
            Command::Read { .. } if free && room => Reply::Take,
            Command::Write { .. } if free => Reply::Take,
            _ => Reply::Wait,
        }
    }

    /// A word from below, or none: the host word that it makes whole.
    fn collect(&mut self, word: Option<Word>) -> Option<Returned>
        requires { (Workable self.old) × (Due self.old word) }
        ensures collects { Collects self.old word (came_word result) self.new }
        ensures told { Came result (lefts (bursts_in self.old.owed)) }
    {
        let joined = self.collected.add(self.shape, word?)?;
        let host = self.owed.next();
        let word = self.shape.lanes_of(host, joined);
        Some(self.owed.one_came(word))
    }

    /// The port below has answered the slot's next part.
    fn part_answered(&mut self, taken: Reply)
        requires { Placed self.old.shape.cut self.old.slot }
        ensures { self.new ≡ record {
          plain = self.old.plain;
          shape = self.old.shape;
          slot = slot_sent self.old.shape.cut taken self.old.slot;
          owed = self.old.owed;
          collected = self.old.collected;
        } }
    {
        if let Reply::Take = taken {
            self.slot = self.shape.after_part(self.slot);
        }
    }

    /// Takes a command into the slot, which is free.
    fn accept(&mut self, command: Command)
        requires loadable { Loadable self.old.shape.width self.old.plain.burst command }
        requires room { RoomFor (length (bursts_in self.old.owed)) command }
        ensures slot { self.new.slot ≡ slot_for self.old.shape.cut self.old.shape.width self.old.plain.burst command }
        ensures bursts { bursts_in self.new.owed ≡ bursts_in self.old.owed ++ burst_of command true }
        ensures same { (self.new.shape ≡ self.old.shape) × ((self.new.plain ≡ self.old.plain) × (self.new.collected ≡ self.old.collected)) }
    {
        self.slot = self.shape.slot_for(self.plain.burst, command);
        if let Command::Read { offset, count } = command {
            self.owed.push(OwedBurst {
                next: offset,
                left: count,
            });
        }
    }

    /// A clocked call, when the port below has answered the slot's next part.
    pub(crate) fn settle(&mut self, command: Command, taken: Reply, word: Option<Word>) -> Clocked
        requires { (Workable self.old) × ((Due self.old word) × (Loadable self.old.shape.width self.old.plain.burst command)) }
        ensures { Settled self.old command taken word result.0 result.1 self.new }
    {
        let reply = self.reply(command);
        let returned = self.collect(word);
        self.part_answered(taken);
        if let Reply::Take = reply {
            self.accept(command);
        }
        self.plain.clock(command, reply, returned)
    }
}
