//! The run over a list of calls, for every port, with the law over lists.
ghost use Rattle.std.specs.Prelude.{◌≡◌, ◌<◌, ◌≤◌, length, drop, Ok, Err};
ghost use Rattle.port.specs.Refusals.{number_of};
ghost use Rattle.port.specs.Runs.{Ran};

use crate::calls::{Answer, Command, Refusal};
use crate::ports::Port;

// The answers go to places that the caller lends: a port needs no heap.

/// Puts the calls to the port, and stores an answer for each. Refused where there are fewer places than calls.
pub fn run<P: Port>(port: &mut P, calls: &[Command], answers: &mut [Answer]) -> Result<(), Refusal>
    ensures ran { elim result [
      | Ok _ ↦ (length calls.now ≤ length answers.old)
          × Ran (P.fixed port.old) (P.state port.old) calls.now answers.new (P.state port.new)
          × (drop (length calls.now) answers.new ≡ drop (length calls.now) answers.old)
      | Err e ↦ (number_of e ≡ 10) × (length answers.old < length calls.now) × (port.new ≡ port.old) × (answers.new ≡ answers.old)
    ] }
    ensures fixed { P.fixed port.new ≡ P.fixed port.old }
{
    if answers.len() < calls.len() {
        return Err(Refusal::NoPlace);
    }
    // Stored by its place: a `zip` with `iter_mut` was tried, and a proof has no name for what it stored.
    for (i, call) in calls.iter().enumerate() {
        answers[i] = port.clock(*call);
    }
    Ok(())
}
