//! Inputs that end, reads that fail and writes that fail, at each byte.

use crate::command::{Answer, Pace, Runtime, WHOLE, answer_of, answer_on, is_line};
use graph_model::{ListProbe, Text};
use std::alloc::Global;
use std::test::Fail;

// One task, whose descriptor is struck.
const STRUCK_SEVEN: &str =
    r#"{"version":1,"sink":1,"tasks":[{"key":1,"formula":"7"}],"faults":[{"task":1,"life":1,"point":"explored","target":"descriptor"}]}"#;

// Two vertices, in tiles of one, of which one is struck.
const STRUCK_ROAD: &str = "2 1\n- 4\n- -\nfault 1 1 computed block\n";

// Each command that reads, with a text.
const COMMANDS: [(&str, &str); 7] = [
    ("run", STRUCK_SEVEN),
    ("run --records --workers 1", STRUCK_SEVEN),
    ("replay", STRUCK_SEVEN),
    ("replay --records", STRUCK_SEVEN),
    ("check", STRUCK_SEVEN),
    ("print", STRUCK_SEVEN),
    ("paths", STRUCK_ROAD),
];

// A byte a call, of which one fails; none where it is 0.
fn byte_by_byte(fault: u64) -> Pace {
    Pace { per_call: 1, fault }
}

fn answer_to(
    rt: &impl Runtime,
    alloc: Global,
    line: &str,
    text: &str,
    read: Pace,
    write: Pace,
) -> Result<Answer<ListProbe>, Fail> {
    let bytes = Text::from_slice(alloc, text.as_bytes())?;
    answer_of(rt, alloc, line, bytes, read, write)
}

// All 64 probes came back, and none was told of a computation.
fn is_quiet(end: &Answer<ListProbe>) -> bool {
    let told = end
        .probes
        .iter()
        .filter(|probe| !probe.as_slice().is_empty());
    end.probes.len() == 64 && told.count() == 0 && end.records.is_empty()
}

// A read for each byte, and one for the end.
#[test]
fn each_read(rt: HostRuntime) -> Result<(), Fail> {
    let alloc = rt.alloc();
    for (line, text) in COMMANDS {
        let mut call = 0u64;
        for _ in 0..text.len().saturating_add(1) {
            call = call.wrapping_add(1);
            let end = answer_to(&rt, alloc, line, text, byte_by_byte(call), WHOLE)?;
            assert!(rt; end.is(3, "input could not be read", ""), "{line} {call}");
            assert!(rt; is_quiet(&end), "{line} {call}");
        }
        // No read comes behind the end.
        let behind = byte_by_byte(call.wrapping_add(1));
        let end = answer_to(&rt, alloc, line, text, behind, WHOLE)?;
        assert_eq!(rt; end.status, 0, "{line}");
    }
    Ok(())
}

// A write fails behind so many that wrote a byte each: these were written.
fn compare_front(
    rt: &impl Runtime,
    alloc: Global,
    line: &str,
    text: &str,
    front: &[u8],
) -> Result<(), Fail> {
    let mut call = 1u64;
    for _ in front {
        call = call.wrapping_add(1);
    }
    let end = answer_to(rt, alloc, line, text, WHOLE, byte_by_byte(call))?;
    assert_eq!(rt; end.status, 4, "{line} {call}");
    assert!(rt;
        is_line(end.message.as_slice(), "output could not be written"),
        "{line}"
    );
    assert!(rt; end.written.as_slice() == front, "{line} {call}");
    assert_eq!(rt; end.probes.len(), 64, "{line} {call}");
    Ok(())
}

// A write for each byte.
#[test]
fn each_write(rt: HostRuntime) -> Result<(), Fail> {
    let alloc = rt.alloc();
    for (line, text) in COMMANDS {
        let whole = answer_to(&rt, alloc, line, text, WHOLE, byte_by_byte(0))?;
        assert_eq!(rt; whole.status, 0, "{line}");
        for length in 0..whole.written.len() {
            compare_front(&rt, alloc, line, text, &whole.written[..length])?;
        }
    }
    for front in ["", "value 8", "value 8263\ntasks 8257"] {
        compare_front(&rt, alloc, "drill 7", "", front.as_bytes())?;
    }
    Ok(())
}

// No front of a graph file is one.
#[test]
fn each_front(rt: HostRuntime) -> Result<(), Fail> {
    for line in ["run", "replay", "check", "print"] {
        for length in 0..STRUCK_SEVEN.len() {
            let front = &STRUCK_SEVEN.as_bytes()[..length];
            let end = answer_on(&rt, rt.alloc(), line, front)?;
            assert!(rt; end.is(5, "not JSON", ""), "{line} {length}");
            assert!(rt; is_quiet(&end), "{line} {length}");
        }
    }
    Ok(())
}
