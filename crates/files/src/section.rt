//! The six sections of a session file: the size of their records, the counts and the records that they allow.
//! Only pile 2, which has no adapters, is built so far.
ghost use Rattle.std.specs.Prelude.{◌≡◌, ◌<◌, Some, None};
ghost use Rattle.files.specs.Faults.{fault_at};
ghost use Rattle.files.specs.Sections.{adapters_in, allowed, bytes_each, carrier, command_wrong, passed, pile_wrong, rank, ranged, record_in, wrong};

use crate::faults::{Fault, FileFault};
use crate::kinds::{CommandKind, Pile};
use crate::records::{PileFields, SessionRecord, Stretch, command_fields, pile_fields};

/// A section of a session file. The adapters' is known only with the pile's number.
#[derive(Clone, Copy)]
pub enum Section {
    Pile,
    /// The number as it stands in the file: a reader may be asked for the section of any.
    Adapters(u8),
    Waits,
    Gaps,
    Memory,
    Commands,
}

/// The number of adapters of a pile, if there is such a pile.
pub fn adapters_of(pile: u8) -> Option<u8>
    ensures { result ≡ adapters_in pile }
{
    Some(Pile::try_from(pile).ok()?.adapters())
}

impl Section {
    // By cases, since `as` takes no enum with a field.

    /// The section's number in the file.
    pub(crate) fn number(self) -> u8
        ensures { result ≡ rank self }
    {
        match self {
            Section::Pile => 1,
            Section::Adapters(_) => 2,
            Section::Waits => 3,
            Section::Gaps => 4,
            Section::Memory => 5,
            Section::Commands => 6,
        }
    }

    /// The number of bytes of each record.
    pub(crate) fn record_size(self) -> usize
        ensures { result ≡ bytes_each self }
    {
        match self {
            Section::Pile => 3,
            Section::Adapters(_) => 2,
            Section::Waits | Section::Gaps | Section::Memory => 1,
            Section::Commands => 16,
        }
    }

    /// Whether the section may have so many records.
    pub(crate) fn allows(self, count: u16) -> bool
        ensures { result ≡ allowed self count }
    {
        match self {
            Section::Pile => count == 1,
            Section::Adapters(pile) => adapters_of(pile).map(u16::from) == Some(count),
            Section::Waits | Section::Gaps => (1..=256).contains(&count),
            Section::Memory => (8..=32768).contains(&count) && count % 8 == 0,
            Section::Commands => count <= 1024,
        }
    }

    /// A fault of this section, at a record (0 is the count) and a byte.
    pub(crate) fn fault_at(self, record: u16, byte: usize, kind: FileFault) -> Fault
        ensures { result ≡ fault_at self «record» byte kind }
    {
        Fault {
            kind,
            section: self.number(),
            record,
            byte,
        }
    }

    /// A stretch of the file as a record of this section.
    pub(crate) fn record<'a>(self, stretch: Stretch<'a>) -> SessionRecord<'a>
        ensures { result ≡ record_in self stretch.entry }
    {
        match self {
            Section::Pile => SessionRecord::Pile(stretch),
            Section::Adapters(_) => SessionRecord::Adapter(stretch),
            Section::Waits | Section::Gaps => SessionRecord::Script(stretch),
            Section::Memory => SessionRecord::Memory(stretch),
            Section::Commands => SessionRecord::Command(stretch),
        }
    }
}

impl<'a> SessionRecord<'a> {
    /// The stretch of the file that carries the record.
    pub fn stretch(self) -> Stretch<'a>
        ensures { result ≡ carrier self.entry }
    {
        match self {
            SessionRecord::Pile(stretch)
            | SessionRecord::Adapter(stretch)
            | SessionRecord::Script(stretch)
            | SessionRecord::Memory(stretch)
            | SessionRecord::Command(stretch) => stretch,
        }
    }

    /// Whether nothing is wrong with the record.
    pub(crate) fn check(self) -> Result<(), FileFault>
        ensures { result ≡ passed (wrong self.entry) }
    {
        match self {
            SessionRecord::Pile(stretch) => check_pile(stretch.bytes),
            SessionRecord::Command(stretch) => check_command(stretch.bytes),
            SessionRecord::Adapter(_) | SessionRecord::Script(_) | SessionRecord::Memory(_) => {
                Ok(())
            }
        }
    }
}

/// Whether the bytes are a pile's record.
fn check_pile(bytes: &[u8]) -> Result<(), FileFault>
    ensures { result ≡ passed (pile_wrong bytes.now) }
{
    match pile_fields(bytes) {
        Some(fields) if in_range(fields) => Ok(()),
        _ => Err(FileFault::OutOfRange),
    }
}

/// Whether there is such a pile, and its limits are in range.
fn in_range(fields: PileFields) -> bool
    ensures { result ≡ ranged fields }
{
    Pile::try_from(fields.pile).is_ok()
        && (1..=64).contains(&fields.burst_limit)
        && (1..=16).contains(&fields.pending_limit)
}

/// Whether the bytes are a command's record.
fn check_command(bytes: &[u8]) -> Result<(), FileFault>
    ensures { result ≡ passed (command_wrong bytes.now) }
{
    let fields = command_fields(bytes).ok_or(FileFault::Broken)?;
    CommandKind::try_from(fields.flags)?;
    Ok(())
}
