//! The numbers of a session file that stand for something: the kind of a command and the pile that is built.
ghost use Rattle.std.specs.Prelude.{◌≡◌, Some};
ghost use Rattle.files.specs.Kinds.{NamesKind, NamesPile, pile_number};
ghost use Rattle.files.specs.Sections.{adapters_in};

use crate::faults::FileFault;

/// What a command asks for, by its flags.
#[derive(Clone, Copy, PartialEq, Eq, Debug)]
pub enum CommandKind {
    Idle,
    Read,
    Write,
    /// No port takes both at once.
    ReadAndWrite,
}

impl TryFrom<u8> for CommandKind {
    type Error = FileFault;

    ghost try_from_gives = { NamesKind };

    fn try_from(flags: u8) -> Result<CommandKind, FileFault> {
        match flags {
            0 => Ok(CommandKind::Idle),
            1 => Ok(CommandKind::Read),
            2 => Ok(CommandKind::Write),
            3 => Ok(CommandKind::ReadAndWrite),
            _ => Err(FileFault::Broken),
        }
    }
}

/// A pile that is built, by its number in a session file.
#[derive(Clone, Copy, PartialEq, Eq, Debug)]
pub enum Pile {
    /// The scripted memory alone.
    Memory = 2,
}

impl TryFrom<u8> for Pile {
    type Error = FileFault;

    ghost try_from_gives = { NamesPile };

    fn try_from(number: u8) -> Result<Pile, FileFault> {
        match number {
            2 => Ok(Pile::Memory),
            _ => Err(FileFault::OutOfRange),
        }
    }
}

impl Pile {
    /// The number that the pile has in a session file.
    pub fn number(self) -> u8
        ensures { result ≡ pile_number self }
    {
        self as u8
    }

    /// The number of adapters over the memory.
    pub fn adapters(self) -> u8
        ensures { Some result ≡ adapters_in (pile_number self) }
    {
        match self {
            Pile::Memory => 0,
        }
    }
}
