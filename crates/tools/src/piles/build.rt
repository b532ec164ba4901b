//! Pile 2, a scripted memory with words of four bytes, is all that is built so far.
ghost use Rattle.std.specs.Prelude.{◌≡◌, ℕ, ◌*◌, ◌<◌, ◌⊎◌, List, length, drop, IfOk, Ok, Err};
ghost use Rattle.port.specs.Refusals.{number_of};
ghost use Rattle.port.specs.State.{reset};
ghost use Rattle.tools.specs.Piles.{Fitting, PlacesFor, Plays, SessionPlayed, FilePlayed, count_of, numbers_over};
ghost use Rattle.files.specs.Sessions.{InRange};

use crate::piles::{Places, Played, Stop, Summary};
use crate::player::{count_taken, play_all};
use agents::memory::{ReadBurst, ScriptedMemory, Storage};
use files::kinds::Pile;
use files::records::PileFields;
use files::session::{Session, read_session};
use port::calls::{Answer, Refusal, Reply};
use port::numbers::Limits;
use port::ports::Port;
use port::width::W4;
use std::alloc::{AllocError, Global};

/// Plays the commands of a session on a port.
fn play_on<P: Port>(
    port: &mut P,
    session: &Session<'_>,
    answers: &mut [Answer],
) -> Result<Summary, Refusal>
    ensures { elim result [
      | Ok end ↦ ((image : List ℕ) → P.state port.old ≡ reset image → Plays (P.fixed port.old) image session.now.commands.bytes.now answers.new end)
          × (drop (count_of session.now.commands.bytes.now) answers.new ≡ drop (count_of session.now.commands.bytes.now) answers.old)
      | Err e ↦ (number_of e ≡ 10) × (length answers.old < count_of session.now.commands.bytes.now) × (answers.new ≡ answers.old)
    ] }
{
    let top = port.status().numbers;
    play_all(port, session, answers)?;
    let taken = count_taken(&answers[0..session.command_count()]);
    Ok(Summary {
        top,
        taken,
        owed: port.status().words_owed,
    })
}

/// Builds the pile of a session over storage, and plays its commands.
fn play_pile(
    kind: Pile,
    storage: Storage<'_>,
    session: &Session<'_>,
    answers: &mut [Answer],
) -> Result<Summary, Refusal>
    ensures { elim result [
      | Ok end ↦ Plays (numbers_over session.now.pile (length storage.entry.bytes.now) storage.entry.waits.now storage.entry.gaps.now) storage.entry.bytes.now session.now.commands.bytes.now answers.new end
          × (drop (count_of session.now.commands.bytes.now) answers.new ≡ drop (count_of session.now.commands.bytes.now) answers.old)
      | Err e ↦ (answers.new ≡ answers.old)
          × (((number_of e ≡ 2) × (Fitting session.now.pile (length storage.entry.bytes.now) (length storage.entry.waits.now) (length storage.entry.gaps.now) (length storage.entry.words.now) (length storage.entry.bursts.now) → ⊥))
          ⊎ ((number_of e ≡ 10) × (length answers.old < count_of session.now.commands.bytes.now)))
    ] }
{
    let limits = Limits {
        burst: session.pile.burst_limit,
        pending: session.pile.pending_limit,
    };
    // By cases: with `map_err` and `?`, tried, that a refusal leaves the answers has no proof.
    match kind {
        Pile::Memory => match ScriptedMemory::<W4>::new(storage, limits) {
            Ok(mut memory) => play_on(&mut memory, session, answers),
            Err((refusal, _)) => Err(refusal),
        },
    }
}

/// Places for a session: a copy of its memory, and room for all that its pile may owe and for its answers.
fn places_for(heap: Global, session: &Session<'_>) -> Result<Places, AllocError>
    ensures { IfOk result (PlacesFor session.now) }
{
    let PileFields {
        burst_limit,
        pending_limit,
        ..
    } = session.pile;
    let pending = pending_limit as usize;
    Ok(Places {
        bytes: session.memory.bytes.to_vec(heap)?,
        words: vec![in heap; 0u64; burst_limit as usize * pending]?,
        bursts: vec![in heap; ReadBurst { left: 0 }; pending]?,
        answers: vec![in heap; Ok((Reply::Idle, None)); session.command_count()]?,
    })
}

/// Plays a session that was read on the pile that it names.
fn play_session(heap: Global, session: &Session<'_>) -> Result<Played, AllocError>
    requires { InRange session.now }
    ensures { IfOk result (SessionPlayed session.now) }
{
    let Places {
        mut bytes,
        mut words,
        mut bursts,
        mut answers,
    } = places_for(heap, session)?;
    let storage = Storage {
        bytes: &mut bytes,
        waits: session.waits.bytes,
        gaps: session.gaps.bytes,
        words: &mut words,
        bursts: &mut bursts,
    };
    let pile = Pile::try_from(session.pile.pile).unwrap();
    let summary = play_pile(pile, storage, session, &mut answers).unwrap();
    Ok(Played {
        pile,
        answers,
        summary,
    })
}

/// Reads a session file and plays it. A file that is no session is not played, and its first fault is the answer.
pub fn play_file(heap: Global, file: &[u8]) -> Result<Played, Stop>
    ensures { FilePlayed file.entry result }
{
    let session = read_session(file)?;
    Ok(play_session(heap, &session)?)
}
