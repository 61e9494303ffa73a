// An engine of each kind opens, and lines are answered, where there is memory.
use crate::desk::reply;
use crate::engine::Engine;
use replies::reply::Reply;
use script::{KindName, Opening};
use solo::solo::Figures;

// Whether an engine of a kind, with two keys, opens.
fn opens(rt: &HostRuntime, kind: KindName) -> bool {
    let figures = Figures {
        workers: 1,
        keys: 2,
        first: 1,
    };
    Engine::open(rt.alloc(), Opening { figures, kind }).is_ok()
}

#[test]
fn engines_open(rt: HostRuntime) {
    assert!(rt; opens(&rt, KindName::Count), "an engine of counts opens");
    assert!(rt; opens(&rt, KindName::Four), "an engine of records opens");
}

#[test]
fn lines_are_answered(rt: HostRuntime) {
    let mut engine = None;
    let opened = reply(&mut engine, rt.alloc(), b"open 1 2 1 count");
    assert!(rt; matches!(opened, Ok(Reply::Joined)), "an engine is opened");
    let ran = reply(&mut engine, rt.alloc(), b"run 0 add 0.0 5\\n");
    assert!(rt;
        matches!(ran, Ok(Reply::Committed(_))),
        "a transaction commits"
    );
}
