//! Building a scripted memory over storage that is lent to it. Storage or limits out of range are refused, and the
//! storage comes back.
ghost use Rattle.std.specs.Prelude.{◌≡◌, ◌≤◌, length, Ok, Err};
ghost use Rattle.agents.specs.Building.{Built, Enough, Unchanged, numbers_of};
ghost use Rattle.port.specs.Refusals.{number_of};

use crate::lanes::Bytes;
use crate::memory::{Parts, ScriptedMemory, Storage};
use crate::queue::Ring;
use crate::script::{Script, greatest};
use port::calls::Refusal;
use port::numbers::{Limits, Numbers};
use port::record::PortRecord;
use port::width::Width;
use std::marker::PhantomData;

impl<'a> Storage<'a> {
    /// Whether a memory with these limits can be built over the storage.
    fn check(&self, limits: Limits) -> Result<(), Refusal>
        ensures { elim result [
          | Ok _ ↦ Enough self.now limits.burst limits.pending
          | Err e ↦ (number_of e ≡ 2) × (Enough self.now limits.burst limits.pending → ⊥)
        ] }
    {
        let beats = limits.burst as usize;
        let pending = limits.pending as usize;
        let fits = (1..=64).contains(&beats)
            && (1..=16).contains(&pending)
            && self.bytes.len() % 8 == 0
            && (8..=32768).contains(&self.bytes.len())
            && (1..=256).contains(&self.waits.len())
            && (1..=256).contains(&self.gaps.len())
            && self.words.len() >= beats * pending
            && self.bursts.len() >= pending;
        if fits {
            Ok(())
        } else {
            Err(Refusal::OutOfRange)
        }
    }

    /// The numbers of a memory over the storage: the scripts give its bounds.
    fn numbers<W: Width>(&self, limits: Limits) -> Numbers
        requires { length self.now.bytes.now ≤ 32768 }
        ensures are { result ≡ numbers_of W.BYTES (length self.now.bytes.now) self.now.waits.now self.now.gaps.now limits.burst limits.pending }
        ensures small { (result.wait_bound ≤ 100000000) × (result.silence_bound ≤ 100000000) }
    {
        let silence_bound = greatest(self.gaps) as u32;
        let wait_bound = greatest(self.waits) as u32 + limits.burst as u32 * (silence_bound + 1);
        Numbers {
            width: W::BYTES,
            words: (self.bytes.len() / W::BYTES as usize) as u32,
            burst_limit: limits.burst,
            pending_limit: limits.pending,
            wait_bound,
            silence_bound,
        }
    }
}

impl<'a> Parts<'a> {
    /// The parts of a memory at reset.
    fn over<W: Width>(storage: Storage<'a>, limits: Limits) -> Parts<'a>
        requires { Enough storage limits.burst limits.pending }
        ensures { Built W.BYTES storage.entry.bytes.now storage.entry.waits.now storage.entry.gaps.now limits.burst limits.pending result }
    {
        let numbers = storage.numbers::<W>(limits);
        let Storage {
            bytes,
            waits,
            gaps,
            words,
            bursts,
        } = storage;
        Parts {
            bytes: Bytes::over(bytes),
            waits: Script::new(waits),
            gaps: Script::new(gaps),
            words: Ring::over(words),
            bursts: Ring::over(bursts),
            plain: PortRecord::new(numbers),
        }
    }
}

impl<'a, W: Width> ScriptedMemory<'a, W> {
    /// A memory at reset over the storage. What cannot be built is refused, and all the storage comes back as it was.
    pub fn new(
        storage: Storage<'a>,
        limits: Limits,
    ) -> Result<ScriptedMemory<'a, W>, (Refusal, Storage<'a>)>
        ensures { elim result [
          | Ok m ↦ Enough storage.entry limits.burst limits.pending
              × Built W.BYTES storage.entry.bytes.now storage.entry.waits.now storage.entry.gaps.now limits.burst limits.pending m.parts
          | Err e ↦ (number_of e.0 ≡ 2) × (Enough storage.entry limits.burst limits.pending → ⊥) × Unchanged storage.entry e.1
        ] }
    {
        // No `?`: the storage goes back with the refusal.
        if let Err(refusal) = storage.check(limits) {
            return Err((refusal, storage));
        }
        Ok(ScriptedMemory {
            parts: Parts::over::<W>(storage, limits),
            width: PhantomData,
        })
    }
}
