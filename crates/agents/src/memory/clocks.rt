//! The scripted memory as a port, with its clock call.
ghost use Rattle.std.specs.Prelude.{◌≡◌, None, Ok};
ghost use Rattle.agents.specs.Memory.{Sound, Timed, fixed_of, state_of};
ghost use Rattle.agents.specs.Single.{sound_prop};
ghost use Rattle.port.specs.Machine.{Moves, refusal_in};

use crate::memory::Parts;
use port::calls::{Answer, Clocked, Command};
use port::ports::Port;
use port::record::PortRecord;
use port::width::Width;
use std::marker::PhantomData;

/// A memory with words of the width `W`.
#[derive(Drop)]
pub struct ScriptedMemory<'a, W: Width> {
    pub(super) parts: Parts<'a>,
    pub(super) width: PhantomData<W>,
    pub ghost sound: { Sound parts } by { sound_prop parts },
    pub ghost named: { (fixed_of parts).width ≡ W.BYTES },
}

impl<'a, W: Width> ScriptedMemory<'a, W> {
    /// A clock call that is not refused: a word back if one is due, then idle, wait or take.
    fn serve(&mut self, command: Command) -> Clocked
        requires { refusal_in (fixed_of self.old.parts) (state_of self.old.parts) command ≡ None }
        ensures fixed { fixed_of self.new.parts ≡ fixed_of self.old.parts }
        ensures moves { Moves (fixed_of self.old.parts) (state_of self.old.parts) command (Ok result) (state_of self.new.parts) }
        ensures timing { Timed self.old.parts command (Ok result) self.new.parts }
    {
        let reply = self.reply(command);
        let parts = &mut self.parts;
        let returned = parts.give();
        parts.act::<W>(command, reply);
        parts.plain.clock(command, reply, returned)
    }
}

impl<'a, W: Width> Port for ScriptedMemory<'a, W> {
    type Width = W;

    ghost fixed = { λ m. fixed_of m.parts };

    ghost state = { λ m. state_of m.parts };

    ghost legal = { λ m. m.sound.legal };

    ghost named = { λ m. m.named };

    ghost timing = { λ was c a is. Timed was.parts c a is.parts };

    fn clock(&mut self, command: Command) -> Answer {
        self.parts.plain.check(command)?;
        Ok(self.serve(command))
    }

    fn status(&self) -> PortRecord {
        self.parts.plain
    }
}
