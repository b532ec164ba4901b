//! The lines that the player prints.
use files::faults::{Fault, FileFault};
use port::calls::{Refusal, Reply};
use std::test::Fail;
use tools::lines::{CallLine, EndLine};

#[test]
fn lines(rt: HostRuntime) -> Result<(), Fail> {
    let heap = rt.alloc();
    let answer = Ok((Reply::Wait, Some(0xAB)));
    let wait = CallLine {
        index: 12,
        answer,
        width: 4,
    };
    assert!(rt; wait.to_string(heap)?.as_str() == "12 wait 000000ab");
    let answer = Err(Refusal::Held);
    let refused = CallLine {
        index: 0,
        answer,
        width: 8,
    };
    assert!(rt; refused.to_string(heap)?.as_str() == "0 no11 -");
    let end = EndLine { taken: 3, owed: 1 };
    assert!(rt; end.to_string(heap)?.as_str() == "end taken 3 owed 1");
    let fault = Fault {
        kind: FileFault::OutOfRange,
        section: 2,
        record: 0,
        byte: 5,
    };
    assert!(rt; fault.to_string(heap)?.as_str() == "fault 2 section 2 record 0 byte 5");
    Ok(())
}
