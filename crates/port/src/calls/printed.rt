//! A reply in one word. What is printed is tested, and not proved.
use crate::calls::Reply;
use std::fmt;

impl fmt::Display for Reply {
    fn fmt<W: fmt::Write>(&self, f: &mut fmt::Formatter<W>) -> fmt::Result {
        f.write_str(match self {
            Reply::Idle => "idle",
            Reply::Wait => "wait",
            Reply::Take => "take",
        })
    }
}
