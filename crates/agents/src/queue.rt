//! A queue over storage that is lent to it: its items go round in one slice.
ghost use Rattle.std.specs.Prelude.{◌≤◌, length};

mod steps;

/// `count` items from `head` on, which go on at the front of the storage after its end.
// The storage is lent, and the library's queues own theirs: an agent uses no heap.
#[derive(Drop)]
pub struct Ring<'a, T> {
    slots: &'a mut [T],
    head: usize,
    count: usize,
    pub ghost begins: { head ≤ length slots.now },
    pub ghost fits: { count ≤ length slots.now },
}

impl<T> Ring<'_, T> {
    ghost use Rattle.std.specs.Prelude.{◌≡◌};
    ghost use Rattle.agents.specs.Queue.{items};

    /// How many items it holds.
    #[tactic(auto, using(crate::proofs::Around::length_around))]
    pub fn len(&self) -> usize
        ensures { result ≡ length (items self.now) }
    {
        self.count
    }
}
