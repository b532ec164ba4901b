//! What comes back to an adapter, and what it then owes.
ghost use Rattle.std.specs.Prelude.{◌≡◌, ℕ, ◌+◌, ◌*◌, ◌/◌, ◌^◌, ◌<◌, ◌≤◌, [], ◌∷◌, ◌++◌, length, Some};
ghost use Rattle.adapters.specs.Owed.{bursts_in, collected_with, lefts, next_owed, one_gone, whole_with};
ghost use Rattle.port.specs.Legal.{Came, word_of};

use crate::cut::{Shape, move_up};
use crate::owed::{Collected, OwedBurst, OwedBursts};
use arrayvec::ArrayVec;
use port::addresses::WordOffset;
use port::calls::Word;
use port::record::Returned;

impl Collected {
    /// No part has come.
    pub(crate) fn new() -> Collected
        ensures { (result.value ≡ 0) × (result.count ≡ 0) }
    {
        Collected { value: 0, count: 0 }
    }

    /// One part more has come; the joined parts where it was the last.
    pub(crate) fn add(&mut self, shape: Shape, part: Word) -> Option<Word>
        requires parts { (self.old.count < shape.cut.parts) × (shape.cut.width * self.old.count + shape.cut.width ≤ 8) }
        requires values { (self.old.value < 2 ^ (8 * (shape.cut.width * self.old.count))) × (part < 2 ^ (8 * shape.cut.width)) }
        ensures has { self.new ≡ collected_with shape.cut self.old part }
        ensures gives { result ≡ whole_with shape.cut self.old part }
    {
        let value = self.value + move_up(part, 8 * (shape.cut.width * self.count));
        if self.count + 1 < shape.cut.parts {
            *self = Collected {
                value,
                count: self.count + 1,
            };
            None
        } else {
            *self = Collected::new();
            Some(value)
        }
    }
}

impl OwedBursts {
    /// None.
    pub(crate) fn new() -> OwedBursts
        ensures { bursts_in result ≡ [] }
    {
        OwedBursts {
            bursts: ArrayVec::new(),
        }
    }

    /// One burst more.
    pub(crate) fn push(&mut self, burst: OwedBurst)
        requires { length (bursts_in self.old) < 16 }
        ensures { bursts_in self.new ≡ bursts_in self.old ++ (burst ∷ []) }
    {
        self.bursts.push(burst);
    }

    /// The host word that comes next; the first where none is owed.
    pub(crate) fn next(&self) -> WordOffset
        ensures { result.0 ≡ next_owed (bursts_in self.now) }
    {
        self.bursts
            .first()
            .map_or(WordOffset(0), |oldest| oldest.next)
    }

    /// One word of the oldest burst has come; the burst is owed no more when it was its last.
    // A memory counts its bursts down likewise, in lent storage: of it an adapter knows what a port promises, and no more.
    pub(crate) fn one_came(&mut self, word: Word) -> Returned
        requires { (0 < length (bursts_in self.old)) × (next_owed (bursts_in self.old) ≤ 32768) }
        ensures has { bursts_in self.new ≡ one_gone (bursts_in self.old) }
        ensures gives { word_of result ≡ word }
        ensures told { Came (Some result) (lefts (bursts_in self.old)) }
    {
        let OwedBurst { next, left } = self.bursts[0];
        if left > 1 {
            self.bursts[0] = OwedBurst {
                next: WordOffset(next.0 + 1),
                left: left - 1,
            };
            Returned::More(word)
        } else {
            self.bursts.remove(0);
            Returned::Last(word)
        }
    }
}
