//! Session files: the numbers and the stretches that a well-formed file holds, or else its first fault in file order.
ghost use Rattle.std.specs.Prelude.{◌≡◌, ◌*◌, ◌/◌, ◌<◌, ◌≤◌, length, Some, None, Ok, Err};
ghost use Rattle.std.specs.Simd.{first_chunks};
ghost use Rattle.files.specs.Parts.{Piece};
ghost use Rattle.files.specs.Sections.{carrier};
ghost use Rattle.files.specs.declared.records.SessionRecord.TheVariants.{Command};
ghost use Rattle.files.specs.Sessions.{Accepted, Rejected};

use crate::faults::Fault;
use crate::reader::Reader;
use crate::records::{PileFields, SessionRecord, Stretch, pile_fields};
use crate::section::Section;

/// What a session file holds.
#[derive(Clone, Copy)]
pub struct Session<'a> {
    pub pile: PileFields,
    /// The settings of the adapters, two bytes each.
    pub adapters: Stretch<'a>,
    /// The wait values, a byte each.
    pub waits: Stretch<'a>,
    /// The gap values, a byte each.
    pub gaps: Stretch<'a>,
    /// The bytes of the memory.
    pub memory: Stretch<'a>,
    /// The commands, sixteen bytes each.
    pub commands: Stretch<'a>,
}

/// Reads a session file.
pub fn read_session(file: &[u8]) -> Result<Session<'_>, Fault>
    ensures { elim result [ Ok s ↦ Accepted file.entry s | Err f ↦ Rejected file.entry f ] }
{
    let mut reader = Reader::new(file);
    let setup = reader.section(Section::Pile)?;
    // By cases: with `unwrap`, tried, the proof does not close.
    let Some(pile) = pile_fields(setup.stretch.bytes) else {
        unreachable()
    };
    let adapters = reader.section(Section::Adapters(pile.pile))?;
    let waits = reader.section(Section::Waits)?;
    let gaps = reader.section(Section::Gaps)?;
    let memory = reader.section(Section::Memory)?;
    let commands = reader.section(Section::Commands)?;
    reader.end(Section::Commands, commands.count)?;
    Ok(Session {
        pile,
        adapters: adapters.stretch,
        waits: waits.stretch,
        gaps: gaps.stretch,
        memory: memory.stretch,
        commands: commands.stretch,
    })
}

impl<'a> Session<'a> {
    /// The number of commands.
    pub fn command_count(&self) -> usize
        ensures { result ≡ length self.now.commands.bytes.now / 16 }
    {
        self.commands.bytes.len() / 16
    }

    /// The bytes of the commands, record by record.
    pub fn records(&self) -> &'a [[u8; 16]]
        ensures each { result.now ≡ first_chunks 16 (length self.now.commands.bytes.now / 16) self.now.commands.bytes.now }
        ensures count { length result.now ≡ length self.now.commands.bytes.now / 16 }
    {
        let bytes = self.commands.bytes;
        let (records, _) = bytes.as_chunks();
        records
    }

    /// The record of a command, counted from 0, if there are so many.
    pub fn command(&self, index: usize) -> Option<SessionRecord<'a>>
        ensures { elim result [
          | Some x ↦ (x ≡ Command (carrier x)) × Piece self.now.commands (16 * index) 16 (carrier x)
          | None ↦ length self.now.commands.bytes.now / 16 ≤ index
        ] }
    {
        // The length is read here, since it bounds the product: with `checked_mul` or `command_count`, tried, the proof
        // does not close.
        let size = self.commands.bytes.len();
        if index >= size / 16 {
            return None;
        }
        let stretch = self.commands.part(16 * index, 16)?;
        Some(SessionRecord::Command(stretch))
    }
}
