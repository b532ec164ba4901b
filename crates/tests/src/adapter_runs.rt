//! Adapters, and two of them over one another, on scripted memories. The answers that are expected follow from the rules.
use crate::runs::{BLANK, BYTES, read, same, write};
use adapters::adapter::{Adapter, narrower, splitter, widener};
use agents::memory::{ReadBurst, ScriptedMemory, Storage};
use port::calls::{Answer, Command, Refusal, Reply, Word};
use port::numbers::Limits;
use port::ports::Port;
use port::run::run;
use port::width::{W1, W2, W4, W8, Width};
use std::process::Abort;
use std::test::Fail;

const IDLE: Command = Command::Idle;

/// A widener that owes two reads at most.
const TWO_READS: Limits = Limits {
    burst: 8,
    pending: 2,
};

const NONE: Answer = Ok((Reply::Idle, None));

const WAIT: Answer = Ok((Reply::Wait, None));

const TAKE: Answer = Ok((Reply::Take, None));

fn some(word: Word) -> Answer {
    Ok((Reply::Idle, Some(word)))
}

/// Runs the calls on an adapter, if it was built.
fn run_on<P: Port + Drop, W: Width>(
    built: Result<Adapter<P, W>, (Refusal, P)>,
    calls: &[Command],
    answers: &mut [Answer],
) -> Result<(), Refusal> {
    match built {
        Ok(mut top) => run(&mut top, calls, answers),
        Err((refusal, _)) => Err(refusal),
    }
}

/// A narrower to words of the width `W`, over a splitter with words of the width `V`.
fn on_narrowed_splitter<V: Width, W: Width, P: Port + Drop>(
    below: P,
    burst: u8,
    calls: &[Command],
    answers: &mut [Answer],
) -> Result<(), Refusal> {
    match splitter::<V, P>(below, Limits { burst, pending: 2 }) {
        Ok(middle) => run_on(narrower::<W, Adapter<P, V>>(middle, 2), calls, answers),
        Err((refusal, _)) => Err(refusal),
    }
}

/// A splitter over a widener, both with words of the width `W`.
fn on_split_widener<W: Width, P: Port + Drop>(
    below: P,
    widener_burst: u8,
    splitter_burst: u8,
    calls: &[Command],
    answers: &mut [Answer],
) -> Result<(), Refusal> {
    let limits = Limits {
        burst: widener_burst,
        pending: 2,
    };
    match widener::<W, P>(below, limits) {
        Ok(middle) => {
            let limits = Limits {
                burst: splitter_burst,
                pending: 1,
            };
            run_on(splitter::<W, Adapter<P, W>>(middle, limits), calls, answers)
        }
        Err((refusal, _)) => Err(refusal),
    }
}

/// Builds a memory of the bytes 0 to 15 that owes one read burst at the most, with one script for waits and for gaps, and
/// goes on with it. (The check covers no closure that takes a memory, and no function that returns one over its arrays.)
macro_rules! with_memory {
    ($width:ty, $burst:expr, $script:expr, $memory:ident => $rest:expr) => {{
        let mut bytes = BYTES;
        let mut words = [0; 64];
        let mut bursts = [ReadBurst { left: 0 }; 1];
        let storage =
            Storage { bytes: &mut bytes, waits: $script, gaps: $script, words: &mut words, bursts: &mut bursts };
        match ScriptedMemory::<$width>::new(storage, Limits { burst: $burst, pending: 1 }) {
            Ok($memory) => $rest,
            Err((refusal, _)) => Err(refusal),
        }
    }};
}

/// A narrower over a port that has been put a command.
fn on_busy<W: Width, P: Port + Drop>(mut below: P, command: Command) -> Result<(), Refusal> {
    let _ = below.clock(command);
    run_on(narrower::<W, P>(below, 1), &[], &mut [])
}

/// k is 2, where each command waits once below and each word is one call late; 4, where the second read waits for the
/// first; and 8.
#[test]
fn narrows(rt: HostRuntime) -> Result<(), Fail> {
    let calls = [
        write(1, 1, 0x6, 0x11223344),
        read(1, 1),
        read(1, 1),
        read(1, 1),
        read(1, 1),
        read(1, 1),
        IDLE,
        IDLE,
        IDLE,
        IDLE,
        IDLE,
        IDLE,
    ];
    let mut answers = [BLANK; 12];
    assert!(rt;
        with_memory!(W2, 8, &[1], memory => run_on(narrower::<W4, _>(memory, 2), &calls, &mut answers)).is_ok()
    );
    same(
        &rt,
        &answers,
        &[
            TAKE,
            WAIT,
            WAIT,
            WAIT,
            WAIT,
            TAKE,
            NONE,
            NONE,
            NONE,
            NONE,
            NONE,
            some(0x07223304),
        ],
    )?;
    let calls = [
        read(1, 1),
        read(2, 1),
        read(2, 1),
        read(2, 1),
        read(2, 1),
        read(2, 1),
        read(2, 1),
    ];
    let mut answers = [BLANK; 7];
    assert!(rt;
        with_memory!(W1, 8, &[0], memory => run_on(narrower::<W4, _>(memory, 1), &calls, &mut answers)).is_ok()
    );
    same(
        &rt,
        &answers,
        &[
            TAKE,
            WAIT,
            WAIT,
            WAIT,
            WAIT,
            Ok((Reply::Wait, Some(0x07060504))),
            TAKE,
        ],
    )?;
    let mut calls = [IDLE; 10];
    calls[0] = read(1, 1);
    let mut answers = [BLANK; 10];
    assert!(rt;
        with_memory!(W1, 8, &[0], memory => run_on(narrower::<W8, _>(memory, 1), &calls, &mut answers)).is_ok()
    );
    let mut expected = [NONE; 10];
    expected[0] = TAKE;
    expected[9] = some(0x0F0E0D0C0B0A0908);
    same(&rt, &answers, &expected)
}

/// f is 2, with a write burst; 4, with a read over two words below; and 8.
#[test]
fn widens(rt: HostRuntime) -> Result<(), Fail> {
    let calls = [
        write(1, 2, 0xF, 0x11223344),
        write(0, 0, 0x9, 0x55667788),
        write(0, 0, 0x9, 0x55667788),
        read(1, 2),
        read(1, 2),
        IDLE,
        IDLE,
        IDLE,
        IDLE,
    ];
    let mut answers = [BLANK; 9];
    assert!(rt;
        with_memory!(W8, 2, &[0], memory => run_on(
            widener::<W4, _>(
                memory,
                TWO_READS
            ),
            &calls,
            &mut answers
        ))
        .is_ok()
    );
    same(
        &rt,
        &answers,
        &[
            TAKE,
            WAIT,
            TAKE,
            WAIT,
            TAKE,
            NONE,
            some(0x11223344),
            NONE,
            some(0x550A0988),
        ],
    )?;
    let calls = [read(3, 2), IDLE, IDLE, IDLE, IDLE];
    let mut answers = [BLANK; 5];
    assert!(rt;
        with_memory!(W8, 2, &[0], memory => run_on(
            widener::<W2, _>(
                memory,
                TWO_READS
            ),
            &calls,
            &mut answers
        ))
        .is_ok()
    );
    same(
        &rt,
        &answers,
        &[TAKE, NONE, some(0x0706), NONE, some(0x0908)],
    )?;
    let calls = [
        write(10, 1, 1, 0xAB),
        IDLE,
        read(9, 2),
        IDLE,
        IDLE,
        IDLE,
        IDLE,
    ];
    let mut answers = [BLANK; 7];
    assert!(rt;
        with_memory!(W8, 2, &[0], memory => run_on(
            widener::<W1, _>(
                memory,
                TWO_READS
            ),
            &calls,
            &mut answers
        ))
        .is_ok()
    );
    same(
        &rt,
        &answers,
        &[TAKE, NONE, TAKE, NONE, some(0x09), NONE, some(0xAB)],
    )
}

/// The read (1, 5) is (1, 2), (3, 2), (5, 1), since the limit below is 2; each waits there until the one before has ended.
#[test]
fn splits(rt: HostRuntime) -> Result<(), Fail> {
    let calls = [
        write(1, 3, 1, 0x21),
        write(9, 9, 1, 0x22),
        write(9, 9, 1, 0x22),
        IDLE,
        write(0, 0, 0, 0x23),
        IDLE,
        read(1, 5),
        IDLE,
        IDLE,
        IDLE,
        IDLE,
        IDLE,
        IDLE,
        IDLE,
        IDLE,
    ];
    let mut answers = [BLANK; 15];
    assert!(rt;
        with_memory!(W1, 2, &[0], memory => run_on(
            splitter::<W1, _>(
                memory,
                Limits {
                    burst: 8,
                    pending: 1
                }
            ),
            &calls,
            &mut answers
        ))
        .is_ok()
    );
    same(
        &rt,
        &answers,
        &[
            TAKE,
            WAIT,
            TAKE,
            NONE,
            TAKE,
            NONE,
            TAKE,
            NONE,
            some(0x21),
            some(0x22),
            NONE,
            some(0x03),
            some(0x04),
            NONE,
            some(0x05),
        ],
    )
}

#[test]
fn narrows_over_a_splitter(rt: HostRuntime) -> Result<(), Fail> {
    let calls = [
        write(1, 1, 0x9, 0x11223344),
        read(0, 2),
        read(0, 2),
        read(0, 2),
        read(0, 2),
        IDLE,
        IDLE,
        IDLE,
        IDLE,
        IDLE,
        IDLE,
        IDLE,
    ];
    let mut answers = [BLANK; 12];
    assert!(rt;
        with_memory!(W2, 3, &[0], memory => on_narrowed_splitter::<W2, W4, _>(memory, 4, &calls, &mut answers)).is_ok()
    );
    same(
        &rt,
        &answers,
        &[
            TAKE,
            WAIT,
            WAIT,
            WAIT,
            TAKE,
            NONE,
            NONE,
            NONE,
            some(0x03020100),
            NONE,
            NONE,
            some(0x11060544),
        ],
    )
}

#[test]
fn splits_over_a_widener(rt: HostRuntime) -> Result<(), Fail> {
    let calls = [
        write(1, 3, 0xF, 0x11223344),
        IDLE,
        write(0, 0, 0x8, 0x55667788),
        IDLE,
        write(0, 0, 0, 7),
        IDLE,
        read(0, 3),
        IDLE,
        IDLE,
        IDLE,
        IDLE,
        IDLE,
        IDLE,
        IDLE,
    ];
    let mut answers = [BLANK; 14];
    assert!(rt;
        with_memory!(W8, 2, &[0], memory => on_split_widener::<W4, _>(memory, 2, 8, &calls, &mut answers)).is_ok()
    );
    same(
        &rt,
        &answers,
        &[
            TAKE,
            NONE,
            TAKE,
            NONE,
            TAKE,
            NONE,
            TAKE,
            NONE,
            NONE,
            some(0x03020100),
            NONE,
            some(0x11223344),
            NONE,
            some(0x550A0908),
        ],
    )
}

/// 2, where the widths or a limit do not fit; 3, where the port below has short bursts or holds a read; 4, where the
/// splitter's A' would be 275,816,704.
#[test]
fn refuses_to_adapt(rt: HostRuntime) -> Result<(), Fail> {
    assert_eq!(rt;
        with_memory!(W4, 8, &[0], memory => run_on(narrower::<W4, _>(memory, 1), &[], &mut [])),
        Err(Refusal::OutOfRange)
    );
    let wide = Limits {
        burst: 65,
        pending: 2,
    };
    assert_eq!(rt;
        with_memory!(W4, 8, &[0], memory => run_on(widener::<W2, _>(memory, wide), &[], &mut [])),
        Err(Refusal::OutOfRange)
    );
    assert_eq!(rt;
        with_memory!(W1, 7, &[0], memory => run_on(narrower::<W8, _>(memory, 1), &[], &mut [])),
        Err(Refusal::PortBelow)
    );
    assert_eq!(rt;
        with_memory!(W4, 8, &[1], memory => on_busy::<W8, _>(memory, read(0, 1))),
        Err(Refusal::PortBelow)
    );
    assert_eq!(rt;
        with_memory!(W8, 64, &[255], memory => on_split_widener::<W4, _>(memory, 64, 64, &[], &mut [])),
        Err(Refusal::Bound)
    );
    Ok(())
}
