//! The commands of a session as they are put to a port: what the host's side refuses, and what goes on to the port.
ghost use Rattle.std.specs.Prelude.{◌≡◌, Some, None, Ok, Err};
ghost use Rattle.tools.specs.Calls.{Converted, Placed, Played, all_lanes};

use files::kinds::CommandKind;
use files::records::CommandFields;
use port::addresses::{ByteAddress, WordOffset};
use port::calls::{Answer, Command, OpenBurst, Refusal};
use port::ports::Port;
use port::width::Width;

/// The offset of an address. In an open burst a beat's address is not looked at, and one that is no multiple of the
/// width stands for offset 0.
fn offset_of<W: Width>(burst: Option<OpenBurst>, address: u32) -> Result<WordOffset, Refusal>
    ensures { Placed W.BYTES burst address result }
{
    match (W::divide(ByteAddress(address)), burst) {
        (Some(offset), _) => Ok(offset),
        (None, Some(_)) => Ok(WordOffset(0)),
        (None, None) => Err(Refusal::Misaligned),
    }
}

/// The command that a record carries, for a port with this write burst open.
fn command_of<W: Width>(fields: CommandFields, burst: Option<OpenBurst>) -> Result<Command, Refusal>
    ensures { Converted W.BYTES burst fields result }
{
    match CommandKind::try_from(fields.flags) {
        Ok(CommandKind::Idle) => Ok(Command::Idle),
        Ok(CommandKind::Read) => {
            let offset = offset_of::<W>(burst, fields.address)?;
            Ok(Command::Read {
                offset,
                count: fields.count,
            })
        }
        Ok(CommandKind::Write) => {
            let offset = offset_of::<W>(burst, fields.address)?;
            Ok(Command::Write {
                offset,
                count: fields.count,
                mask: fields.mask,
                word: fields.bits,
            })
        }
        Ok(CommandKind::ReadAndWrite) | Err(_) => Err(Refusal::ReadAndWrite),
    }
}

/// Whether a record is no read, or a read of all lanes.
fn reads_all_lanes<W: Width>(fields: CommandFields) -> bool
    ensures { result ≡ all_lanes W.BYTES fields }
{
    CommandKind::try_from(fields.flags) != Ok(CommandKind::Read)
        || fields.mask as u16 == (1 << W::BYTES) - 1
}

/// Puts a command of a session to a port. A read that does not name all lanes is not put to it.
pub(crate) fn play_one<P: Port>(port: &mut P, fields: CommandFields) -> Answer
    ensures fixed { P.fixed port.new ≡ P.fixed port.old }
    ensures plays { Played (P.fixed port.old) (P.state port.old) fields result (P.state port.new) }
{
    let status = port.status();
    let command = command_of::<P::Width>(fields, status.burst)?;
    if reads_all_lanes::<P::Width>(fields) {
        return port.clock(command);
    }
    status.check(command)?;
    Err(Refusal::Lanes)
}
