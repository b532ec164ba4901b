//! Words in a memory of bytes: reading one, and storing the enabled lanes of one.
ghost use Rattle.std.specs.Prelude.{◌≡◌, ℕ, ◌+◌, ◌*◌, ◌<◌, ◌≤◌, length};
ghost use Rattle.port.specs.Lanes.{byte_in, enabled, joined_bytes, lanes_stored, stored, word_at};

use port::addresses::WordOffset;
use port::calls::Word;
use port::width::Width;

/// The bytes of a memory that is lent, no more than a port may have.
#[derive(Drop)]
pub struct Bytes<'a> {
    all: &'a mut [u8],
    ghost few: { length all.now ≤ 32768 },
}

/// Whether a mask enables lane `i`.
// By hand: the library has no test of a bit.
fn is_enabled(mask: u8, i: usize) -> bool
    requires { i < 8 }
    ensures { result ≡ enabled mask i }
{
    (mask >> i) % 2 == 1
}

/// The address of the first byte of a word, as an index into a memory that has it.
fn start_of<W: Width>(offset: WordOffset) -> usize
    requires { offset.0 * W.BYTES ≤ 32768 }
    ensures { result ≡ offset.0 * W.BYTES }
{
    W::multiply(offset).unwrap().0 as usize
}

/// The word of these lanes, the lowest first.
#[tactic(auto, using(crate::proofs::Joined::joined_eight))]
fn join(lanes: &[u8]) -> Word
    requires { length lanes.now ≤ 8 }
    ensures { result ≡ joined_bytes (byte_in lanes.now) 0 (length lanes.now) }
{
    let mut word = [0; 8];
    word[..lanes.len()].copy_from_slice(lanes);
    Word::from_le_bytes(word)
}

/// Stores the lanes of a word that the mask enables, as far as there are places for them.
#[tactic(auto, unfolding(port::specs::Lanes::lanes_stored))]
fn store(lanes: &mut [u8], mask: u8, word: Word)
    requires { length lanes.old ≤ 8 }
    ensures { lanes.new ≡ lanes_stored 0 mask word (length lanes.old) lanes.old }
{
    let bytes = word.to_le_bytes();
    for (i, lane) in lanes.iter_mut().enumerate() {
        if is_enabled(mask, i) {
            *lane = bytes[i];
        }
    }
}

impl<'a> Bytes<'a> {
    /// The bytes of a slice.
    pub fn over(all: &'a mut [u8]) -> Bytes<'a>
        requires { length all.old ≤ 32768 }
        ensures same { result.all.now ≡ all.old }
        ensures bytes { (address : ℕ) → byte_in result.all.now address < 256 }
    {
        Bytes { all }
    }

    /// The word at an offset.
    #[tactic(auto, using(crate::proofs::Joined::joined_part))]
    pub fn word_at<W: Width>(&self, offset: WordOffset) -> Word
        requires { offset.0 * W.BYTES + W.BYTES ≤ length self.now.all.now }
        ensures { result ≡ word_at W.BYTES (byte_in self.now.all.now) offset.0 }
    {
        let start = start_of::<W>(offset);
        join(&self.all[start..start + W::BYTES as usize])
    }

    /// Stores the enabled lanes of a word at an offset.
    #[tactic(auto, using(crate::proofs::Joined::stored_part))]
    pub fn store_word<W: Width>(&mut self, offset: WordOffset, mask: u8, word: Word)
        requires { offset.0 * W.BYTES + W.BYTES ≤ length self.old.all.now }
        ensures { self.new.all.now ≡ stored W.BYTES offset.0 mask word self.old.all.now }
    {
        let start = start_of::<W>(offset);
        store(&mut self.all[start..start + W::BYTES as usize], mask, word);
    }
}
