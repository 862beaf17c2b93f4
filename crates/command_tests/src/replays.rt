//! Runs by workers, in threads, and under schedules and within turns.

use crate::command::{Case, DIAMOND, answer_on, compare, compare_all};
use graph_model::{Key, Record};
use std::test::Fail;

// Four tasks that the sink needs, and one that it does not.
const FIVE: &str =
    r#"{"version":1,"sink":4,"tasks":[{"key":1,"formula":"5"},{"key":2,"formula":"$0+1","inputs":[1]},{"key":3,"formula":"$0*2","inputs":[1]},{"key":4,"formula":"$0-$1","inputs":[2,3]},{"key":9,"formula":"1"}]}"#;

// What a run records of the four.
const DETAIL: &str = "value -4
created 1
spent 1 life 1 self
computed 1 life 1
written 1 life 1 block 0 version 1
closed 1 life 1 word 0
created 2
spent 2 life 1 place 0
spent 2 life 1 self
computed 2 life 1
written 2 life 1 block 1 version 1
closed 2 life 1 word 0
created 3
spent 3 life 1 place 0
spent 3 life 1 self
computed 3 life 1
written 3 life 1 block 2 version 1
closed 3 life 1 word 0
created 4
spent 4 life 1 place 0
spent 4 life 1 place 1
spent 4 life 1 self
computed 4 life 1
written 4 life 1 block 3 version 1
closed 4 life 1 word 0
";

const CASES: [Case<'static>; 13] = [
    ("run --records", FIVE, 0, "", DETAIL),
    ("run --records --workers 64 --lives 1", FIVE, 0, "", DETAIL),
    ("run --records --workers 1", FIVE, 0, "", DETAIL),
    ("replay --records", FIVE, 0, "", DETAIL),
    (
        "replay --workers 3 --schedule 0,1,2 --records",
        FIVE,
        0,
        "",
        DETAIL,
    ),
    ("run --workers 64", DIAMOND, 0, "", "value -4\n"),
    ("run --lives=1", DIAMOND, 0, "", "value -4\n"),
    (
        "replay --workers 2 --schedule 0,1 --turns 1000000",
        DIAMOND,
        0,
        "",
        "value -4\n",
    ),
    (
        "replay --turns 0",
        DIAMOND,
        10,
        "schedule ended with 1 pending",
        "",
    ),
    ("replay --turns 2000", DIAMOND, 0, "", "value -4\n"),
    // With a worker that takes no turn of its own.
    ("replay --workers 64", DIAMOND, 0, "", "value -4\n"),
    // Leading zeros, and an option in the other spelling.
    (
        "replay --schedule=0,1 --turns=0000002000 --workers 02",
        DIAMOND,
        0,
        "",
        "value -4\n",
    ),
    (
        "replay",
        r#"{"version":1,"sink":2,"tasks":[{"key":1,"formula":"5"},{"key":2,"formula":"$0*$1","inputs":[1,1]}]}"#,
        0,
        "",
        "value 25\n",
    ),
];

#[test]
fn values_and_records(rt: HostRuntime) -> Result<(), Fail> {
    compare_all(&rt, rt.alloc(), &CASES)
}

const REFUSALS: [(&str, u8, &str); 3] = [
    ("", 5, "not JSON"),
    (
        r#"{"version":1,"sink":1,"tasks":[{"key":1,"formula":"$0","inputs":[2]},{"key":2,"formula":"$0","inputs":[1]}]}"#,
        6,
        "cycle through task 1",
    ),
    (
        r#"{"version":1,"sink":1,"tasks":[]}"#,
        6,
        "sink 1 is no task",
    ),
];

#[test]
fn refusals(rt: HostRuntime) -> Result<(), Fail> {
    for (text, status, message) in REFUSALS {
        for line in ["replay", "replay --turns 0", "run --records"] {
            compare(&rt, rt.alloc(), (line, text, status, message, ""))?;
        }
    }
    Ok(())
}

// Each probe is told what its worker computes, and no other is told anything.
#[test]
fn notes_of_workers(rt: HostRuntime) -> Result<(), Fail> {
    for (line, workers) in [
        ("run", 4),
        ("run --workers 1", 1),
        ("run --workers=64", 64),
        ("replay", 1),
        ("replay --workers 2 --schedule 0,1", 2),
        ("replay --workers 5 --schedule 0,4", 5),
    ] {
        let end = answer_on(&rt, rt.alloc(), line, FIVE.as_bytes())?;
        assert!(rt; end.is(0, "", "value -4\n"), "{line}");
        assert_eq!(rt; end.probes.len(), 64);
        for key in 1..5u64 {
            let computed = Record::Computed {
                key: Key(key),
                life: 1,
            };
            let records = end.records.as_slice().iter();
            assert_eq!(rt;
                records.filter(|record| **record == computed).count(),
                1,
                "{line} {key}"
            );
        }
        let mut notes = 0usize;
        for (place, probe) in end.probes.as_slice().iter().enumerate() {
            let count = probe.as_slice().len();
            assert!(rt; place < workers || count == 0, "{line} {place}");
            notes = notes.saturating_add(count);
        }
        assert_eq!(rt; notes, 4, "{line}");
    }
    Ok(())
}

// A run that was cut short has all records of what it did, and with turns enough it ends.
#[test]
fn turns_of_a_run(rt: HostRuntime) -> Result<(), Fail> {
    let alloc = rt.alloc();
    let mut most = 0;
    for turns in 0..2000u32 {
        let line = format!(in alloc; "replay --turns {turns}")?;
        let end = answer_on(&rt, alloc, line.as_str(), DIAMOND.as_bytes())?;
        assert!(rt; end.records.len() >= most, "{turns}");
        most = end.records.len();
        if end.status == 0 {
            assert_eq!(rt; most, 24);
            return Ok(());
        }
        assert_eq!(rt; end.status, 10, "{turns}");
        assert!(rt; end.written.is_empty());
    }
    assert!(rt; false, "it did not end");
    Ok(())
}
