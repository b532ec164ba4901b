//! The clock call of an adapter, and the adapter as a port.
ghost use Rattle.std.specs.Prelude.{◌≡◌, None, Ok};
ghost use Rattle.adapters.specs.Adapters.{TimedOver, fixed_over, state_over};
ghost use Rattle.adapters.specs.Lawful.{legal_kept};
ghost use Rattle.port.specs.Machine.{Clocks, refusal_in};

use crate::adapter::{Adapter, Engine};
use port::calls::{Answer, Clocked, Command};
use port::ports::Port;
use port::record::PortRecord;
use port::width::Width;

impl<P: Port, W: Width> Adapter<P, W> {
    /// A clock call that is not refused: one call goes below.
    fn serve(&mut self, command: Command) -> Clocked
        requires { refusal_in (fixed_over self.old) (state_over self.old) command ≡ None }
        ensures fixed { fixed_over self.new ≡ fixed_over self.old }
        ensures moves { Clocks (fixed_over self.old) (state_over self.old) command result.0 result.1 (state_over self.new) }
        ensures timing { TimedOver self.old command (Ok (result.0, result.1)) self.new }
    {
        let part = self.engine.shape.next_part(self.engine.slot);
        match self.below.clock(part) {
            Ok((taken, word)) => self.engine.settle(command, taken, word),
            // No part is refused below; with `unwrap`, tried, the proof does not close.
            Err(_) => unreachable(),
        }
    }
}

impl<P: Port, W: Width> Port for Adapter<P, W> {
    type Width = W;

    ghost fixed = { λ x. fixed_over x };

    ghost state = { λ x. state_over x };

    ghost timing = { λ was c a is. TimedOver was c a is };

    ghost legal = { λ x. legal_kept (P.fixed x.below) (P.state x.below) x.engine x.kept };

    ghost named = { λ x. x.wide };

    fn clock(&mut self, command: Command) -> Answer {
        self.engine.plain.check(command)?;
        Ok(self.serve(command))
    }

    #[tactic(auto, using(crate::specs::Lawful::tallied_kept))]
    fn status(&self) -> PortRecord {
        let Engine { plain, .. } = &self.engine;
        *plain
    }
}
