//! Plays the commands of a session on a port.
ghost use Rattle.std.specs.Prelude.{◌≡◌, ◌/◌, ◌<◌, ◌≤◌, length, drop, Ok, Err};
ghost use Rattle.port.specs.Refusals.{number_of};
ghost use Rattle.tools.specs.Plays.{SessionRan, commands_in, takes_in};
ghost use Rattle.port.specs.Runs.{was_taken};

use crate::calls::play_one;
use files::records::command_fields;
use files::session::Session;
use port::calls::{Answer, Refusal, Reply};
use port::ports::Port;

// Not the run over calls: the rules of a session may refuse a command before the port is asked, in the state of its turn.

/// Puts the commands of a session to the port, and stores an answer for each. Refused where there are fewer
/// places than commands.
pub(crate) fn play_all<P: Port>(
    port: &mut P,
    session: &Session<'_>,
    answers: &mut [Answer],
) -> Result<(), Refusal>
    ensures ran { elim result [
      | Ok _ ↦ (length session.now.commands.bytes.now / 16 ≤ length answers.old)
          × SessionRan (P.fixed port.old) (P.state port.old) (commands_in session.now.commands.bytes.now (length session.now.commands.bytes.now / 16)) answers.new (P.state port.new)
          × (drop (length session.now.commands.bytes.now / 16) answers.new ≡ drop (length session.now.commands.bytes.now / 16) answers.old)
      | Err e ↦ (number_of e ≡ 10) × (length answers.old < length session.now.commands.bytes.now / 16) × (port.new ≡ port.old) × (answers.new ≡ answers.old)
    ] }
    ensures fixed { P.fixed port.new ≡ P.fixed port.old }
{
    let records = session.records();
    if answers.len() < records.len() {
        return Err(Refusal::NoPlace);
    }
    // Stored by its place, as in the run over calls.
    for (i, record) in records.iter().enumerate() {
        let fields = command_fields(record).unwrap();
        answers[i] = play_one(port, fields);
    }
    Ok(())
}

/// Whether a command was taken.
fn is_taken(answer: &Answer) -> bool
    ensures { result ≡ was_taken answer.now }
{
    matches!(answer, Ok((Reply::Take, _)))
}

/// How many commands were taken, each beat counted.
pub(crate) fn count_taken(answers: &[Answer]) -> usize
    ensures { result ≡ takes_in answers.now }
{
    answers.iter().filter(|answer| is_taken(answer)).count()
}
