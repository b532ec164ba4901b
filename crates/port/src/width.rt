//! The widths of a word, as types, and the two conversions between byte addresses and word offsets.
ghost use Rattle.std.specs.Prelude.{◌≡◌, ℕ, ◌*◌, ◌/◌, ◌%◌, ◌^◌, ◌<◌, ◌≤◌, Some, None, ◌≢◌};
ghost use Rattle.port.specs.Widths.{Wide};
ghost use Rattle.std.proofs.Common.{rules};

use crate::addresses::{ByteAddress, WordOffset};

/// How many bytes a word has.
pub trait Width {
    const BYTES: u8;

    // the same number, for contracts
    ghost BYTES: { ℕ };

    /// The word that begins at an address; none where the address is no multiple of the width.
    fn divide(at: ByteAddress) -> Option<WordOffset>
        ensures { elim result [ Some o ↦ (at.0 % BYTES ≡ 0) × (o.0 ≡ at.0 / BYTES) | None ↦ (at.0 % BYTES ≢ 0) ] }
    {
        let w = Self::BYTES as u32;
        if at.0 % w == 0 {
            Some(WordOffset(at.0 / w))
        } else {
            None
        }
    }

    /// The address at which a word begins; none where it is past the last byte address.
    fn multiply(at: WordOffset) -> Option<ByteAddress>
        ensures { elim result [ Some a ↦ a.0 ≡ at.0 * BYTES | None ↦ 2 ^ 32 ≤ at.0 * BYTES ] }
    {
        at.0.checked_mul(Self::BYTES as u32).map(ByteAddress)
    }

    ghost widths: { Wide BYTES };
}

// Four types, and not one with a number as its parameter: not every number is a width, so no one impl has a proof.

/// Words of one byte.
#[derive(Clone, Copy)]
pub struct W1;

/// Words of two bytes.
#[derive(Clone, Copy)]
pub struct W2;

/// Words of four bytes.
#[derive(Clone, Copy)]
pub struct W4;

/// Words of eight bytes.
#[derive(Clone, Copy)]
pub struct W8;

impl Width for W1 {
    const BYTES: u8 = 1;

    ghost BYTES = { 1 };

    ghost widths = { Prim.search rules };
}

impl Width for W2 {
    const BYTES: u8 = 2;

    ghost BYTES = { 2 };

    ghost widths = { Prim.search rules };
}

impl Width for W4 {
    const BYTES: u8 = 4;

    ghost BYTES = { 4 };

    ghost widths = { Prim.search rules };
}

impl Width for W8 {
    const BYTES: u8 = 8;

    ghost BYTES = { 8 };

    ghost widths = { Prim.search rules };
}
