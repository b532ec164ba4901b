//! Runs over lists of calls on scripted memories of several widths.
use agents::memory::{ReadBurst, ScriptedMemory, Storage};
use port::addresses::WordOffset;
use port::calls::{Answer, Command, Refusal, Reply, Word};
use port::numbers::Limits;
use port::run::run;
use port::width::{W1, W2, W8, Width};
use std::process::Abort;
use std::test::Fail;

pub(crate) fn read(offset: u32, count: u16) -> Command {
    Command::Read {
        offset: WordOffset(offset),
        count,
    }
}

pub(crate) fn write(offset: u32, count: u16, mask: u8, word: Word) -> Command {
    Command::Write {
        offset: WordOffset(offset),
        count,
        mask,
        word,
    }
}

/// Builds a memory over storage and runs a list of calls on it.
fn run_over<W: Width>(
    bytes: &mut [u8],
    burst: u8,
    waits: &[u8],
    gaps: &[u8],
    calls: &[Command],
    answers: &mut [Answer],
) -> Result<(), Refusal> {
    let mut words = [0; 4];
    let mut bursts = [ReadBurst { left: 0 }; 1];
    let storage = Storage {
        bytes,
        waits,
        gaps,
        words: &mut words,
        bursts: &mut bursts,
    };
    match ScriptedMemory::<W>::new(storage, Limits { burst, pending: 1 }) {
        Ok(mut memory) => run(&mut memory, calls, answers),
        Err((refusal, _)) => Err(refusal),
    }
}

/// The bytes 0 to 15.
pub(crate) const BYTES: [u8; 16] =
    *b"\x00\x01\x02\x03\x04\x05\x06\x07\x08\x09\x0a\x0b\x0c\x0d\x0e\x0f";

pub(crate) fn same(rt: &impl Abort, answers: &[Answer], expected: &[Answer]) -> Result<(), Fail> {
    assert_eq!(rt; answers, expected);
    Ok(())
}

pub(crate) const BLANK: Answer = Err(Refusal::OutOfRange);

#[test]
fn refuses_in_order(rt: HostRuntime) -> Result<(), Fail> {
    let calls = [
        read(8, 0),
        read(8, 1),
        read(0, 3),
        write(8, 1, 4, 0),
        write(0, 1, 4, 0),
        write(0, 1, 1, 0x10000),
        write(0, 2, 3, 0x1234),
        read(8, 0),
        write(9, 9, 2, 0xABCD),
        read(0, 2),
        Command::Idle,
        Command::Idle,
    ];
    let mut bytes = BYTES;
    let mut answers = [BLANK; 12];
    assert!(rt; run_over::<W2>(&mut bytes, 2, &[0], &[0], &calls, &mut answers).is_ok());
    same(
        &rt,
        &answers,
        &[
            Err(Refusal::Count),
            Err(Refusal::PastEnd),
            Err(Refusal::Count),
            Err(Refusal::PastEnd),
            Err(Refusal::Lanes),
            Err(Refusal::Lanes),
            Ok((Reply::Take, None)),
            Err(Refusal::InBurst),
            Ok((Reply::Take, None)),
            Ok((Reply::Take, None)),
            Ok((Reply::Idle, Some(0x1234))),
            Ok((Reply::Idle, Some(0xAB02))),
        ],
    )
}

#[test]
fn holds_what_waits(rt: HostRuntime) -> Result<(), Fail> {
    let calls = [
        write(0, 2, 0x81, 0x1122334455667788),
        write(0, 2, 0x81, 0x1122334455667789),
        read(0, 1),
        write(0, 2, 0x81, 0x1122334455667788),
        write(0, 1, 0xFF, 0),
        write(1, 7, 0xFF, 0),
        read(0, 1),
        read(0, 1),
        Command::Idle,
        Command::Idle,
        Command::Idle,
    ];
    let mut bytes = BYTES;
    let mut answers = [BLANK; 11];
    assert!(rt; run_over::<W8>(&mut bytes, 2, &[1], &[2], &calls, &mut answers).is_ok());
    same(
        &rt,
        &answers,
        &[
            Ok((Reply::Wait, None)),
            Err(Refusal::Held),
            Err(Refusal::Held),
            Ok((Reply::Take, None)),
            Ok((Reply::Wait, None)),
            Ok((Reply::Take, None)),
            Ok((Reply::Wait, None)),
            Ok((Reply::Take, None)),
            Ok((Reply::Idle, None)),
            Ok((Reply::Idle, None)),
            Ok((Reply::Idle, Some(0x1106050403020188))),
        ],
    )
}

/// A read waits while P bursts are owed, the one whose last word comes in this very call among them.
#[test]
fn full_reads_wait(rt: HostRuntime) -> Result<(), Fail> {
    let calls = [
        read(0, 2),
        read(15, 1),
        read(15, 1),
        read(15, 1),
        Command::Idle,
    ];
    let mut bytes = BYTES;
    let mut answers = [BLANK; 5];
    assert!(rt; run_over::<W1>(&mut bytes, 2, &[0], &[0], &calls, &mut answers).is_ok());
    same(
        &rt,
        &answers,
        &[
            Ok((Reply::Take, None)),
            Ok((Reply::Wait, Some(0))),
            Ok((Reply::Wait, Some(1))),
            Ok((Reply::Take, None)),
            Ok((Reply::Idle, Some(15))),
        ],
    )
}

#[test]
fn refuses_without_places(rt: HostRuntime) -> Result<(), Fail> {
    let mut bytes = BYTES;
    let mut answers = [BLANK; 1];
    let calls = [Command::Idle, Command::Idle];
    assert_eq!(rt;
        run_over::<W1>(&mut bytes, 2, &[0], &[0], &calls, &mut answers),
        Err(Refusal::NoPlace)
    );
    same(&rt, &answers, &[BLANK])
}

#[test]
fn refuses_to_build(rt: HostRuntime) -> Result<(), Fail> {
    let mut bytes = BYTES;
    let mut answers = [BLANK; 0];
    assert!(rt; run_over::<W1>(&mut bytes, 65, &[0], &[0], &[], &mut answers).is_err());
    assert!(rt; run_over::<W1>(&mut bytes, 5, &[0], &[0], &[], &mut answers).is_err());
    assert!(rt; run_over::<W1>(&mut bytes, 4, &[], &[0], &[], &mut answers).is_err());
    assert!(rt; run_over::<W1>(&mut bytes, 4, &[0], &[0], &[], &mut answers).is_ok());
    Ok(())
}
