//! Byte addresses, in which a host speaks, and word offsets, in which a port speaks. They are two
//! types, and only a width turns one into the other.

/// The address of a byte.
#[derive(Clone, Copy, PartialEq, Eq, Debug)]
pub struct ByteAddress(pub u32);

/// The place of a word: its index among the words of a port.
#[derive(Clone, Copy, Default, PartialEq, Eq, Debug)]
pub struct WordOffset(pub u32);
