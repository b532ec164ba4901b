//! Building an adapter over a port. What cannot be built is refused, and the port comes back.
ghost use Rattle.std.specs.Prelude.{◌≡◌, ◌*◌, ◌^◌, ◌<◌, ◌≤◌, Some, None, Ok, Err};
ghost use Rattle.adapters.specs.Building.{BuiltOver, Fresh, Suited, at_rest, bound_rule, in_range, is_factor, narrow_cut, narrow_numbers, narrow_refusal, narrow_rule, numbers_above, over_rule, split_cut, split_numbers, split_refusal, split_rule, wide_cut, wide_numbers, wide_refusal, wide_rule};
ghost use Rattle.adapters.specs.Kept.{silence_above, wait_above};
ghost use Rattle.port.specs.Legal.{tally};
ghost use Rattle.port.specs.Refusals.{number_of};

use crate::adapter::{Adapter, Engine};
use crate::cut::{Cut, Shape};
use crate::owed::{Collected, OwedBursts};
use port::calls::Refusal;
use port::numbers::{Limits, Numbers};
use port::ports::Port;
use port::record::PortRecord;
use port::width::Width;
use std::marker::PhantomData;

/// Whether the wider of two words has 2, 4 or 8 of the narrower ones.
fn is_factor(k: u8) -> bool
    ensures { result ≡ is_factor k }
{
    matches!(k, 2 | 4 | 8)
}

/// Whether nothing is open, held or owed.
fn is_at_rest(status: PortRecord) -> bool
    ensures { result ≡ at_rest status }
{
    status.burst.is_none() && status.held.is_none() && status.words_owed == 0
}

/// L': the port below may first let the slot's read wait, and then each of the parts of a word be late.
fn silence_above(below: Numbers, parts: u8) -> u64
    ensures is { result ≡ silence_above parts below.wait_bound below.silence_bound }
    ensures small { result < 2 ^ 42 }
{
    let wait = below.wait_bound as u64;
    let silence = below.silence_bound as u64;
    wait + 1 + parts as u64 * (silence + 1)
}

/// A': each part in the slot may wait, and then a whole burst be late.
fn wait_above(below: Numbers, parts: u8, burst_limit: u8) -> u64
    ensures { result ≡ wait_above parts below.wait_bound below.silence_bound burst_limit }
{
    let wait = below.wait_bound as u64;
    let beats = burst_limit as u64;
    let late = silence_above(below, parts) + 1;
    parts as u64 * beats * (wait + 1) + beats * late
}

/// The numbers of an adapter with words of `width` bytes over a port with the numbers `below`.
fn numbers_above(below: Numbers, width: u8, parts: u8, limits: Limits) -> Result<Numbers, Refusal>
    requires { (1 ≤ width) × (below.words * below.width ≤ 32768) }
    ensures { elim result [
      | Ok n ↦ (bound_rule (numbers_above parts below width limits.burst limits.pending) ≡ None) × (n ≡ numbers_above parts below width limits.burst limits.pending)
      | Err e ↦ bound_rule (numbers_above parts below width limits.burst limits.pending) ≡ Some (number_of e)
    ] }
{
    let wait = wait_above(below, parts, limits.burst);
    let silence = silence_above(below, parts);
    if wait > 100_000_000 || silence > 100_000_000 {
        return Err(Refusal::Bound);
    }
    Ok(Numbers {
        width,
        words: below.words * below.width as u32 / width as u32,
        burst_limit: limits.burst,
        pending_limit: limits.pending,
        wait_bound: wait as u32,
        silence_bound: silence as u32,
    })
}

/// How a narrower cuts for a port with the numbers `below`: one host word is `parts` words below.
fn narrow_cut(below: Numbers, width: u8, pending_limit: u8) -> Result<Cut, Refusal>
    requires { 1 ≤ below.width }
    ensures { elim result [
      | Ok c ↦ (narrow_rule below width pending_limit ≡ None) × (c ≡ narrow_cut below width)
      | Err e ↦ narrow_rule below width pending_limit ≡ Some (number_of e)
    ] }
{
    let parts = width / below.width;
    if !is_factor(parts) || !(1..=16).contains(&pending_limit) {
        return Err(Refusal::OutOfRange);
    }
    // one host word must fit into a burst below
    if below.burst_limit < parts {
        return Err(Refusal::PortBelow);
    }
    Ok(Cut {
        width: below.width,
        parts,
        share: 1,
        most: below.burst_limit / parts,
    })
}

/// How a splitter cuts: into bursts as long as the port below takes them.
fn split_cut(below: Numbers, width: u8, limits: Limits) -> Result<Cut, Refusal>
    ensures { elim result [
      | Ok c ↦ (split_rule below width limits.burst limits.pending ≡ None) × (c ≡ split_cut below)
      | Err e ↦ split_rule below width limits.burst limits.pending ≡ Some (number_of e)
    ] }
{
    if width != below.width
        || !(1..=64).contains(&limits.burst)
        || !(1..=16).contains(&limits.pending)
    {
        return Err(Refusal::OutOfRange);
    }
    Ok(Cut {
        width: below.width,
        parts: 1,
        share: 1,
        most: below.burst_limit,
    })
}

/// How a widener cuts: `share` host words are one word below, and each host word is a burst of its own.
fn wide_cut(below: Numbers, width: u8, limits: Limits) -> Result<Cut, Refusal>
    requires { 1 ≤ width }
    ensures { elim result [
      | Ok c ↦ (wide_rule below width limits.burst limits.pending ≡ None) × (c ≡ wide_cut below width)
      | Err e ↦ wide_rule below width limits.burst limits.pending ≡ Some (number_of e)
    ] }
{
    let share = below.width / width;
    if !is_factor(share)
        || !(1..=64).contains(&limits.burst)
        || !(1..=16).contains(&limits.pending)
    {
        return Err(Refusal::OutOfRange);
    }
    Ok(Cut {
        width: below.width,
        parts: 1,
        share,
        most: 1,
    })
}

impl Engine {
    /// An engine at reset.
    fn new(numbers: Numbers, shape: Shape) -> Engine
        ensures { Fresh numbers shape.cut shape.width result }
    {
        Engine {
            plain: PortRecord::new(numbers),
            shape,
            slot: None,
            owed: OwedBursts::new(),
            collected: Collected::new(),
        }
    }

    /// An engine at reset over a port with this status, if the port serves it.
    fn over(status: PortRecord, width: u8, cut: Cut, limits: Limits) -> Result<Engine, Refusal>
        requires suited { Suited cut status.numbers width limits.burst limits.pending }
        requires small { status.numbers.words * status.numbers.width ≤ 32768 }
        ensures { elim result [
          | Ok x ↦ (over_rule (numbers_above cut.parts status.numbers width limits.burst limits.pending) status ≡ None)
              × Fresh (numbers_above cut.parts status.numbers width limits.burst limits.pending) cut width x
          | Err e ↦ over_rule (numbers_above cut.parts status.numbers width limits.burst limits.pending) status ≡ Some (number_of e)
        ] }
    {
        if !is_at_rest(status) {
            return Err(Refusal::PortBelow);
        }
        let numbers = numbers_above(status.numbers, width, cut.parts, limits)?;
        Ok(Engine::new(numbers, Shape { cut, width }))
    }
}

/// An adapter at reset that cuts so, with these limits.
fn over<W: Width, P: Port>(
    below: P,
    cut: Cut,
    limits: Limits,
) -> Result<Adapter<P, W>, (Refusal, P)>
    requires { Suited cut (P.fixed below) W.BYTES limits.burst limits.pending }
    ensures { elim result [
      | Ok x ↦ (over_rule (numbers_above cut.parts (P.fixed below) W.BYTES limits.burst limits.pending) (tally (P.fixed below) (P.state below)) ≡ None)
          × BuiltOver below (numbers_above cut.parts (P.fixed below) W.BYTES limits.burst limits.pending) cut x
      | Err e ↦ (over_rule (numbers_above cut.parts (P.fixed below) W.BYTES limits.burst limits.pending) (tally (P.fixed below) (P.state below)) ≡ Some (number_of e.0))
          × (e.1 ≡ below)
    ] }
{
    // By cases, here and below: as a pair with the port, by `?`, tried, each port was moved twice more, and a pile took
    // twice as long to build.
    let engine = match Engine::over(below.status(), W::BYTES, cut, limits) {
        Ok(engine) => engine,
        Err(refusal) => return Err((refusal, below)),
    };
    Ok(Adapter {
        below,
        engine,
        width: PhantomData,
    })
}

// Each kind has a rule of its own for what it refuses, and numbers of its own; what they share is `over`.

/// A port with wider words than the port below: each host word is several words there. Its bursts have as many words as a
/// burst below holds.
pub fn narrower<W: Width, P: Port>(
    below: P,
    pending_limit: u8,
) -> Result<Adapter<P, W>, (Refusal, P)>
    ensures { elim result [
      | Ok x ↦ (narrow_refusal (P.fixed below) (P.state below) W.BYTES pending_limit ≡ None)
          × BuiltOver below (narrow_numbers (P.fixed below) W.BYTES pending_limit) (narrow_cut (P.fixed below) W.BYTES) x
      | Err e ↦ (narrow_refusal (P.fixed below) (P.state below) W.BYTES pending_limit ≡ Some (number_of e.0))
          × (e.1 ≡ below)
    ] }
{
    let cut = match narrow_cut(below.status().numbers, W::BYTES, pending_limit) {
        Ok(cut) => cut,
        Err(refusal) => return Err((refusal, below)),
    };
    let limits = Limits {
        burst: cut.most,
        pending: pending_limit,
    };
    over(below, cut, limits)
}

/// A port that takes longer or shorter bursts than the port below, with words of the same width.
pub fn splitter<W: Width, P: Port>(below: P, limits: Limits) -> Result<Adapter<P, W>, (Refusal, P)>
    ensures { elim result [
      | Ok x ↦ (split_refusal (P.fixed below) (P.state below) W.BYTES limits.burst limits.pending ≡ None)
          × BuiltOver below (split_numbers (P.fixed below) W.BYTES limits.burst limits.pending) (split_cut (P.fixed below)) x
      | Err e ↦ (split_refusal (P.fixed below) (P.state below) W.BYTES limits.burst limits.pending ≡ Some (number_of e.0))
          × (e.1 ≡ below)
    ] }
{
    let cut = match split_cut(below.status().numbers, W::BYTES, limits) {
        Ok(cut) => cut,
        Err(refusal) => return Err((refusal, below)),
    };
    over(below, cut, limits)
}

/// A port with narrower words than the port below: several host words are one word there.
pub fn widener<W: Width, P: Port>(below: P, limits: Limits) -> Result<Adapter<P, W>, (Refusal, P)>
    ensures { elim result [
      | Ok x ↦ (wide_refusal (P.fixed below) (P.state below) W.BYTES limits.burst limits.pending ≡ None)
          × BuiltOver below (wide_numbers (P.fixed below) W.BYTES limits.burst limits.pending) (wide_cut (P.fixed below) W.BYTES) x
      | Err e ↦ (wide_refusal (P.fixed below) (P.state below) W.BYTES limits.burst limits.pending ≡ Some (number_of e.0))
          × (e.1 ≡ below)
    ] }
{
    let cut = match wide_cut(below.status().numbers, W::BYTES, limits) {
        Ok(cut) => cut,
        Err(refusal) => return Err((refusal, below)),
    };
    over(below, cut, limits)
}

impl<P: Port, W: Width> Adapter<P, W> {
    /// The port below, when the adapter is given up.
    pub(crate) fn into_below(self) -> P
        ensures { result ≡ self.below }
    {
        let Adapter { below, .. } = self;
        below
    }
}
