//! Session files: six sections of records in a fixed order, each behind its count.
//! The reader copies nothing; whatever it hands out borrows the caller's bytes.
#![tactic(auto)]

pub mod faults;
pub mod kinds;
pub mod reader;
pub mod records;
pub mod section;
pub mod session;
