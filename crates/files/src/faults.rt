//! What can be wrong with a file, and where. What is printed of it is tested, and not proved.
use std::fmt;

/// The ways in which a file is at fault, by their numbers.
#[derive(Clone, Copy, PartialEq, Eq, Debug)]
pub enum FileFault {
    /// The file ends early, has bytes left over, or has flags beyond those named.
    Broken = 1,
    /// A number or a count is outside its range.
    OutOfRange = 2,
}

// Section and record stay the numbers that are printed: a `Section` would bring the pile along.

/// A fault of a file with its place.
#[derive(Clone, Copy, PartialEq, Eq, Debug)]
pub struct Fault {
    /// What is wrong.
    pub kind: FileFault,
    /// The section's number, from 1.
    pub section: u8,
    /// The record's number in its section, from 1, or 0 for the section's count.
    pub record: u16,
    /// The first byte of the record or the count, or the file's length where the file ends early.
    pub byte: usize,
}

/// The only line that is printed of a file that is refused.
impl fmt::Display for Fault {
    fn fmt<W: fmt::Write>(&self, f: &mut fmt::Formatter<W>) -> fmt::Result {
        let number = self.kind as u8;
        let Fault {
            section,
            record,
            byte,
            ..
        } = *self;
        write!(
            f,
            "fault {number} section {section} record {record} byte {byte}"
        )
    }
}
