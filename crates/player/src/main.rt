//! The player: reads a session from standard input and prints what its pile answered, call by call.
#![tactic(auto)]

use std::io;
use std::io::Read;
use std::process::ExitCode;
use tools::lines::{CallLine, EndLine, HeadLine};
use tools::piles::{Played, Stop, Summary, play_file};

/// More than the longest session file: what comes after is not read, since the file is refused without it.
const LIMIT: u64 = 65536;

/// Why the player ends with status 1 and no answer to its input.
#[derive(Debug, Drop)]
enum Failure {
    /// There is no memory for the session.
    NoMemory,
    /// Standard input or output failed.
    Stream(io::Error),
}

impl From<io::Error> for Failure {
    fn from(error: io::Error) -> Failure {
        Failure::Stream(error)
    }
}

/// Standard input, up to the limit.
fn read_input(rt: &HostRuntime) -> io::Result<Vec<u8>> {
    let mut input = Vec::new(rt.alloc());
    rt.stdin().take(LIMIT).read_to_end(&mut input)?;
    Ok(input)
}

/// Prints a session that was played.
fn print_played(rt: &HostRuntime, played: &Played) -> io::Result<()> {
    let Summary { top, taken, owed } = played.summary;
    let head = HeadLine {
        pile: played.pile.number(),
        top,
    };
    println!(rt; "{head}")?;
    for (index, answer) in played.answers.iter().enumerate() {
        let line = CallLine {
            index,
            answer: *answer,
            width: top.width,
        };
        println!(rt; "{line}")?;
    }
    let end = EndLine { taken, owed };
    println!(rt; "{end}")
}

fn main(rt: HostRuntime) -> Result<ExitCode, Failure> {
    let input = read_input(&rt)?;
    match play_file(rt.alloc(), &input) {
        Ok(played) => {
            print_played(&rt, &played)?;
            Ok(ExitCode::SUCCESS)
        }
        Err(Stop::Fault(fault)) => {
            println!(rt; "{fault}")?;
            Ok(ExitCode::FAILURE)
        }
        Err(Stop::NoMemory) => Err(Failure::NoMemory),
    }
}
