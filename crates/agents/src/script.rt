//! A script of delays: byte values that are used in turn, and again from the first after the last.

mod steps;

pub use steps::greatest;

/// The values, and the place of the one that counts now.
// A place and no cycling iterator: a value is read many times before the script goes on.
// That it is in range, `Parts` keeps: with a ghost field here (tried) a `Result` of a memory gets no proof.
#[derive(Clone, Copy)]
pub struct Script<'a> {
    values: &'a [u8],
    at: usize,
}
