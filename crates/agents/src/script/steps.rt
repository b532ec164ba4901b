//! What a script does: its value now, its greatest value, and the step to the next one.
ghost use Rattle.std.specs.Prelude.{◌≡◌, length};
ghost use Rattle.agents.specs.Scripts.{greatest_of, listed, place_of, value_now, next_place, InPlace};

use crate::script::Script;

/// The greatest of some values, 0 where there is none.
pub fn greatest(values: &[u8]) -> u8
    ensures { result ≡ greatest_of values.now }
{
    values.iter().copied().max().unwrap_or(0)
}

impl<'a> Script<'a> {
    /// The script at its first value.
    pub fn new(values: &'a [u8]) -> Script<'a>
        ensures { (listed result ≡ values.now) × (place_of result ≡ 0) }
    {
        Script { values, at: 0 }
    }

    /// The value that counts now.
    pub fn value(&self) -> u8
        requires { InPlace self.now }
        ensures { result ≡ value_now self.now }
    {
        self.values[self.at]
    }

    /// Goes on to the next value.
    pub fn advance(&mut self)
        requires { InPlace self.old }
        ensures placed { InPlace self.new }
        ensures same { listed self.new ≡ listed self.old }
        ensures goes { place_of self.new ≡ next_place (length (listed self.old)) (place_of self.old) }
    {
        let next = self.at + 1;
        self.at = if next < self.values.len() { next } else { 0 };
    }
}
