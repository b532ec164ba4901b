//! What a queue does: one item in at the end, one out at the front, a look at the first.
ghost use Rattle.std.specs.Prelude.{◌≡◌, ◌<◌, [], ◌∷◌, ◌++◌, length};
ghost use Rattle.agents.specs.Items.{first_item, start_of, end_of};
ghost use Rattle.agents.specs.Queue.{items, room, Put, Taken, Replaced};

use crate::queue::Ring;
use port::calls::Refusal;

impl<'a, T: Copy> Ring<'a, T> {
    /// An empty queue over `slots`.
    #[tactic(auto, using(crate::proofs::Around::around_none))]
    pub fn over(slots: &'a mut [T]) -> Ring<'a, T>
        ensures { (items result ≡ []) × (room result ≡ length slots.old) }
    {
        Ring {
            slots,
            head: 0,
            count: 0,
        }
    }

    /// Where the first item stands.
    fn start(&self) -> usize
        ensures { result ≡ start_of (room self.now) self.now.head }
    {
        if self.head < self.slots.len() {
            self.head
        } else {
            0
        }
    }

    /// Where the next item goes.
    fn end(&self) -> usize
        ensures { result ≡ end_of (room self.now) self.now.head self.now.count }
    {
        let left = self.slots.len() - self.head;
        if self.count < left {
            self.head + self.count
        } else {
            self.count - left
        }
    }

    /// One item more at the end, where there is room.
    #[tactic(auto, using(crate::proofs::Around::length_around, crate::proofs::Around::end_below))]
    pub(crate) fn push(&mut self, item: T)
        requires { length (items self.old) < room self.old }
        ensures { (items self.new ≡ items self.old ++ (item ∷ [])) × (room self.new ≡ room self.old) }
    {
        let place = self.end();
        self.slots[place] = item;
        self.count += 1;
    }

    /// One item more at the end; a full queue refuses it.
    #[tactic(auto, using(crate::proofs::Around::length_around))]
    pub fn put(&mut self, item: T) -> Result<(), Refusal>
        ensures { Put item self.old self.new result }
    {
        if self.len() >= self.slots.len() {
            return Err(Refusal::NoPlace);
        }
        self.push(item);
        Ok(())
    }

    /// The first item, which stays.
    #[tactic(auto, using(crate::proofs::Around::take_start, crate::proofs::Around::around_none))]
    pub(crate) fn first(&self) -> Option<T>
        ensures { result ≡ first_item (items self.now) }
    {
        if self.count == 0 {
            return None;
        }
        let place = self.start();
        Some(self.slots[place])
    }

    /// The first item, out of the queue.
    #[tactic(auto, using(crate::proofs::Around::take_start, crate::proofs::Around::around_none))]
    pub fn take(&mut self) -> Option<T>
        ensures { Taken self.old self.new result }
    {
        if self.count == 0 {
            return None;
        }
        let place = self.start();
        let item = self.slots[place];
        self.head = place + 1;
        self.count -= 1;
        Some(item)
    }

    /// Another item in the place of the first; nothing where there is none.
    pub(crate) fn replace_first(&mut self, item: T)
        ensures { Replaced item self.old self.new }
    {
        if self.count > 0 {
            let place = self.start();
            self.slots[place] = item;
        }
    }
}
