//! The lines that the player prints. What is printed is tested, and not proved.
use port::calls::Answer;
use port::numbers::Numbers;
use std::fmt;

/// The first line: the pile and the numbers of its top port.
#[derive(Clone, Copy)]
pub struct HeadLine {
    /// Printed as it is: a `Pile` here would ask more of who prints.
    pub pile: u8,
    pub top: Numbers,
}

impl fmt::Display for HeadLine {
    fn fmt<W: fmt::Write>(&self, f: &mut fmt::Formatter<W>) -> fmt::Result {
        let pile = self.pile;
        let Numbers {
            width,
            words,
            wait_bound,
            silence_bound,
            ..
        } = self.top;
        write!(
            f,
            "pile {pile} width {width} words {words} A {wait_bound} L {silence_bound}"
        )
    }
}

/// The line of a call: its index, its answer and its word.
#[derive(Clone, Copy)]
pub struct CallLine {
    pub index: usize,
    pub answer: Answer,
    pub width: u8,
}

impl fmt::Display for CallLine {
    fn fmt<W: fmt::Write>(&self, f: &mut fmt::Formatter<W>) -> fmt::Result {
        let index = self.index;
        let digits = 2 * self.width as usize;
        match self.answer {
            Err(refusal) => {
                let number = refusal.number();
                write!(f, "{index} no{number} -")
            }
            Ok((reply, None)) => write!(f, "{index} {reply} -"),
            Ok((reply, Some(word))) => write!(f, "{index} {reply} {word:0digits$x}"),
        }
    }
}

/// The last line: how many commands were taken, and how many words are still owed.
#[derive(Clone, Copy)]
pub struct EndLine {
    pub taken: usize,
    pub owed: u32,
}

impl fmt::Display for EndLine {
    fn fmt<W: fmt::Write>(&self, f: &mut fmt::Formatter<W>) -> fmt::Result {
        let taken = self.taken;
        let owed = self.owed;
        write!(f, "end taken {taken} owed {owed}")
    }
}
