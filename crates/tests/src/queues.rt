//! The queue goes round its storage, and refuses what does not fit.
use agents::queue::Ring;
use port::calls::Refusal;

#[test]
fn goes_round(rt: HostRuntime) {
    let mut slots = [0, 0];
    let mut queue = Ring::over(&mut slots);
    assert_eq!(rt; queue.put(1), Ok(()));
    assert_eq!(rt; queue.put(2), Ok(()));
    assert_eq!(rt; queue.put(3), Err(Refusal::NoPlace));
    assert_eq!(rt; queue.take(), Some(1));
    assert_eq!(rt; queue.put(4), Ok(()));
    assert_eq!(rt; queue.take(), Some(2));
    assert_eq!(rt; queue.take(), Some(4));
    assert_eq!(rt; queue.take(), None);
}
