//! Building the pile from the bottom up, and running a list of calls on it.
ghost use Rattle.std.specs.Prelude.{◌≡◌, ◌≤◌, [], length, drop, Some, None, Ok, Err, nat_lt};
ghost use Rattle.adapters.specs.Piles.{numbers_top, pile_refusal};
ghost use Rattle.port.specs.Book.{after_calls, book};
ghost use Rattle.port.specs.Machine.{broken, first_of};
ghost use Rattle.port.specs.Refusals.{number_of};
ghost use Rattle.port.specs.Runs.{Served};
ghost use Rattle.port.specs.State.{reset};

use crate::adapter::{Adapter, narrower, splitter, widener};
use crate::pile::{Pile, PileLimits};
use port::calls::{Answer, Command, Refusal};
use port::ports::Port;
use port::run::run;
use port::width::Width;

/// The pile over a port. What cannot be built is refused, and the port comes back.
fn build<U: Width, V: Width, P: Port>(
    below: P,
    limits: PileLimits,
) -> Result<Pile<P, U, V>, (Refusal, P)>
    ensures { elim result [
      | Ok x ↦ (pile_refusal (P.fixed below) (P.state below) U.BYTES V.BYTES limits ≡ None)
          × (⟦<Pile<P, U, V> as Port>⟧.fixed x ≡ numbers_top (P.fixed below) U.BYTES V.BYTES limits)
          × (⟦<Pile<P, U, V> as Port>⟧.state x ≡ reset (P.state below).memory)
          × (x.below.below.below ≡ below)
      | Err e ↦ (pile_refusal (P.fixed below) (P.state below) U.BYTES V.BYTES limits ≡ Some (number_of e.0)) × (e.1 ≡ below)
    ] }
{
    let low = widener::<U, P>(below, limits.widener)?;
    // By cases: with `map_err`, tried, what the last refusal hands back has no proof.
    let middle = match splitter::<U, Adapter<P, U>>(low, limits.splitter) {
        Ok(middle) => middle,
        Err((refusal, low)) => return Err((refusal, low.into_below())),
    };
    match narrower::<V, Adapter<Adapter<P, U>, U>>(middle, limits.narrower_pending) {
        Ok(top) => Ok(top),
        Err((refusal, middle)) => Err((refusal, middle.into_below().into_below())),
    }
}

/// Builds the pile over a port, and runs the calls on it. What cannot be built is refused, and so are fewer places than
/// calls; then the port comes back as it was.
pub fn run_on_pile<U: Width, V: Width, P: Port>(
    below: P,
    limits: PileLimits,
    calls: &[Command],
    answers: &mut [Answer],
) -> Result<Pile<P, U, V>, (Refusal, P)>
    ensures { elim result [
      | Ok x ↦ (pile_refusal (P.fixed below) (P.state below) U.BYTES V.BYTES limits ≡ None)
          × (length calls.now ≤ length answers.old)
          × (⟦<Pile<P, U, V> as Port>⟧.fixed x ≡ numbers_top (P.fixed below) U.BYTES V.BYTES limits)
          × Served (numbers_top (P.fixed below) U.BYTES V.BYTES limits) (P.state below).memory (after_calls calls.now answers.new [])
          × (book V.BYTES (P.state below).memory (after_calls calls.now answers.new []) ≡ ⟦<Pile<P, U, V> as Port>⟧.state x)
          × (drop (length calls.now) answers.new ≡ drop (length calls.now) answers.old)
      | Err e ↦ (first_of (pile_refusal (P.fixed below) (P.state below) U.BYTES V.BYTES limits) (broken (nat_lt (length answers.old) (length calls.now)) 10) ≡ Some (number_of e.0))
          × (e.1 ≡ below) × (answers.new ≡ answers.old)
    ] }
{
    let mut pile = build::<U, V, P>(below, limits)?;
    match run(&mut pile, calls, answers) {
        Ok(()) => Ok(pile),
        Err(refusal) => Err((refusal, pile.into_below().into_below().into_below())),
    }
}
