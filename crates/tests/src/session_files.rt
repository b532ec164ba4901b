//! Session files: a good one, and the first faults of bad ones.
use files::faults::FileFault::{Broken, OutOfRange};
use files::faults::{Fault, FileFault};
use files::records::{SessionRecord, command_fields};
use files::session::read_session;
use std::test::Fail;

// A file with three commands: the sections begin at 0, 5, 7, 11, 14 and 24, and the commands at 26, 42 and 58.
const GOOD: [u8; 74] =
    *b"\x01\x00\x02\x40\x10\x00\x00\x02\x00\x05\x06\x01\x00\x07\x08\x00\x0a\x0b\x0c\x0d\x0e\x0f\x10\x11\
    \x03\x00\x03\xff\x02\x01\x04\x00\x00\x01\x01\x02\x03\x04\x05\x06\x07\x08\
    \x00\x00\x00\x00\x00\x00\x00\x00\x00\x00\x00\x00\x00\x00\x00\x00\
    \x01\x00\x00\x00\x00\x00\x00\x00\x00\x00\x00\x00\x00\x00\x00\x00";

fn fault_of(file: &[u8]) -> Option<Fault> {
    read_session(file).err()
}

fn fault(kind: FileFault, section: u8, record: u16, byte: usize) -> Option<Fault> {
    Some(Fault {
        kind,
        section,
        record,
        byte,
    })
}

#[test]
fn good_file(rt: HostRuntime) -> Result<(), Fail> {
    let Ok(session) = read_session(&GOOD) else {
        return Err(Fail::new("refused"));
    };
    assert!(rt;
        session.pile.pile == 2 && session.pile.burst_limit == 64 && session.pile.pending_limit == 16
    );
    assert!(rt; session.waits.bytes == [5, 6].as_slice() && session.gaps.bytes == [7].as_slice());
    assert!(rt; session.memory.place == 16 && session.memory.bytes.len() == 8);
    assert!(rt; session.command_count() == 3 && session.commands.place == 26);
    assert!(rt; session.records().len() == 3);
    let Some(SessionRecord::Command(found)) = session.command(0) else {
        return Err(Fail::new("no command"));
    };
    assert!(rt; found.place == 26);
    let Some(first) = command_fields(found.bytes) else {
        return Err(Fail::new("no fields"));
    };
    assert!(rt; first.flags == 3 && first.mask == 255 && first.count == 258);
    assert!(rt; first.address == 16777220 && first.bits == 578437695752307201);
    assert!(rt; session.command(3).is_none());
    Ok(())
}

#[test]
fn early_ends(rt: HostRuntime) {
    assert_eq!(rt; fault_of(&[]), fault(Broken, 1, 0, 0));
    assert_eq!(rt; fault_of(&GOOD[0..6]), fault(Broken, 2, 0, 6));
    assert_eq!(rt; fault_of(&GOOD[0..66]), fault(Broken, 6, 3, 66));
    let mut file = GOOD;
    file[26] = 4;
    assert_eq!(rt; fault_of(&file[0..66]), fault(Broken, 6, 1, 26));
}

#[test]
fn numbers_out_of_range(rt: HostRuntime) {
    let mut file = GOOD;
    file[4] = 17;
    assert_eq!(rt; fault_of(&file), fault(OutOfRange, 1, 1, 2));
    file = GOOD;
    file[3] = 65;
    assert_eq!(rt; fault_of(&file), fault(OutOfRange, 1, 1, 2));
    file = GOOD;
    file[2] = 3;
    assert_eq!(rt; fault_of(&file), fault(OutOfRange, 1, 1, 2));
}

#[test]
fn counts(rt: HostRuntime) {
    let mut file = GOOD;
    file[5] = 1;
    assert_eq!(rt; fault_of(&file[0..7]), fault(OutOfRange, 2, 0, 5));
    file = GOOD;
    file[24] = 2;
    assert_eq!(rt; fault_of(&file), fault(Broken, 6, 2, 58));
}
