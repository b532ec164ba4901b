//! The records of a session file, each as the very stretch of the file that carries it, and the fields in them.
//! Numbers of several bytes stand low byte first.
ghost use Rattle.std.specs.Prelude.{◌≡◌, ◌+◌, ◌<◌, length, Some, None};
ghost use Rattle.files.specs.Parts.{Piece};
ghost use Rattle.files.specs.Fields.{command_fields_in, pile_in};

/// A stretch of a file, with its place in the file.
#[derive(Clone, Copy)]
pub struct Stretch<'a> {
    pub bytes: &'a [u8],
    pub place: usize,
}

impl<'a> Stretch<'a> {
    /// The `size` bytes from `start` on, if the stretch has them.
    pub(crate) fn part(self, start: usize, size: usize) -> Option<Stretch<'a>>
        ensures { elim result [ Some s ↦ Piece self.entry start size s | None ↦ length self.entry.bytes.now < start + size ] }
    {
        // A range by hand, since `get` does not promise where in memory its bytes lie.
        if self.bytes.len() < start || self.bytes.len() - start < size {
            return None;
        }
        let bytes = self.bytes;
        Some(Stretch {
            bytes: &bytes[start..start + size],
            place: self.place.saturating_add(start),
        })
    }
}

/// The records of a section, one after the other.
#[derive(Clone, Copy)]
pub struct Records<'a> {
    /// The count as it stands in the file: a fault behind the last record is given with it.
    pub count: u16,
    pub stretch: Stretch<'a>,
}

/// A record of a session file.
#[derive(Clone, Copy)]
pub enum SessionRecord<'a> {
    /// The pile's number and its two limits.
    Pile(Stretch<'a>),
    /// The setting of an adapter.
    Adapter(Stretch<'a>),
    /// A wait value or a gap value.
    Script(Stretch<'a>),
    /// A byte of the memory.
    Memory(Stretch<'a>),
    /// A command.
    Command(Stretch<'a>),
}

// The limits are no `Limits` of a port: this crate knows of files alone.

/// The fields of the pile's record.
#[derive(Clone, Copy)]
pub struct PileFields {
    /// The pile's number as it is read, before it is judged; `Pile` says which pile it is.
    pub pile: u8,
    /// The greatest number of words of a burst.
    pub burst_limit: u8,
    /// The greatest number of reads that wait for their words.
    pub pending_limit: u8,
}

/// The fields of a command's record.
#[derive(Clone, Copy)]
pub struct CommandFields {
    /// The flags as they are read, before they are judged; `CommandKind` says what they ask for.
    pub flags: u8,
    pub mask: u8,
    pub count: u16,
    /// A byte address.
    pub address: u32,
    /// The eight data bytes.
    pub bits: u64,
}

// These two are no `TryFrom`: which fault another length would be depends on the section that the bytes are of.

/// The fields of the pile's record, if there are three bytes.
pub fn pile_fields(bytes: &[u8]) -> Option<PileFields>
    ensures { result ≡ pile_in bytes.now }
{
    let [pile, burst_limit, pending_limit] = bytes else {
        return None;
    };
    Some(PileFields {
        pile: *pile,
        burst_limit: *burst_limit,
        pending_limit: *pending_limit,
    })
}

/// The fields of a command's record, if there are sixteen bytes.
pub fn command_fields(bytes: &[u8]) -> Option<CommandFields>
    ensures { result ≡ command_fields_in bytes.now }
{
    let [flags, mask, c0, c1, a0, a1, a2, a3, rest @ ..] = bytes else {
        return None;
    };
    let data = <[u8; 8]>::try_from(rest).ok()?;
    Some(CommandFields {
        flags: *flags,
        mask: *mask,
        count: u16::from_le_bytes([*c0, *c1]),
        address: u32::from_le_bytes([*a0, *a1, *a2, *a3]),
        bits: u64::from_le_bytes(data),
    })
}
