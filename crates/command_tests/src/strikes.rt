//! Runs by workers whose tasks are struck.

use crate::command::{Case, answer_on, compare, compare_all};
use graph_model::{Cause, Found, Key, Record};
use std::alloc::{AllocError, Global};
use std::test::Fail;

// One task, whose descriptor is struck.
const STRUCK_SEVEN: &str =
    r#"{"version":1,"sink":1,"tasks":[{"key":1,"formula":"7"}],"faults":[{"task":1,"life":1,"point":"explored","target":"descriptor"}]}"#;

// Three versions of one block, which is struck when the last is written.
const REUSED: &str =
    r#"{"version":1,"sink":3,"tasks":[{"key":1,"formula":"5","block":[1,1]},{"key":2,"formula":"$0+1","inputs":[1],"block":[1,2]},{"key":3,"formula":"$0*2","inputs":[2],"block":[1,3]}],"faults":[{"task":3,"life":1,"point":"computed","target":"block"}]}"#;

// Three strikes at three points on three kinds of target.
const DIAMOND: &str =
    r#"{"version":1,"sink":4,"tasks":[{"key":1,"formula":"5"},{"key":2,"formula":"$0+1","inputs":[1]},{"key":3,"formula":"$0*2","inputs":[1]},{"key":4,"formula":"$0-$1","inputs":[2,3]}],"faults":[{"task":1,"life":1,"point":"computed","target":"notify","word":0},{"task":4,"life":1,"point":"ready","target":"descriptor"},{"task":2,"life":1,"point":"notified","target":"block"}]}"#;

const CASES: [Case<'static>; 18] = [
    (
        "replay --lives 1",
        STRUCK_SEVEN,
        7,
        "task 1 has no life after 1: descriptor",
        "",
    ),
    (
        "run --lives 1",
        STRUCK_SEVEN,
        7,
        "task 1 has no life after 1: descriptor",
        "",
    ),
    ("replay --lives 2", STRUCK_SEVEN, 0, "", "value 7\n"),
    ("replay", STRUCK_SEVEN, 0, "", "value 7\n"),
    ("run", STRUCK_SEVEN, 0, "", "value 7\n"),
    ("run --lives 2", STRUCK_SEVEN, 0, "", "value 7\n"),
    ("run", REUSED, 0, "", "value 12\n"),
    ("run --workers 1", REUSED, 0, "", "value 12\n"),
    ("replay", REUSED, 0, "", "value 12\n"),
    ("replay --workers 1", REUSED, 0, "", "value 12\n"),
    ("replay", DIAMOND, 0, "", "value -4\n"),
    (
        "replay --workers 1 --schedule 0",
        DIAMOND,
        0,
        "",
        "value -4\n",
    ),
    ("replay --workers 2", DIAMOND, 0, "", "value -4\n"),
    (
        "replay --workers 2 --schedule 0,1",
        DIAMOND,
        0,
        "",
        "value -4\n",
    ),
    (
        "replay --workers 2 --schedule 0,0,1,1,1",
        DIAMOND,
        0,
        "",
        "value -4\n",
    ),
    ("run", DIAMOND, 0, "", "value -4\n"),
    ("run --workers 2", DIAMOND, 0, "", "value -4\n"),
    ("run --workers 64", DIAMOND, 0, "", "value -4\n"),
];

#[test]
fn values_and_ends(rt: HostRuntime) -> Result<(), Fail> {
    compare_all(&rt, rt.alloc(), &CASES)
}

// Whether the record says that the first life of the key was replaced.
fn is_replaced(record: &Record, of: u64) -> bool {
    match *record {
        Record::Replaced {
            key,
            life,
            cause: _,
        } => key == Key(of) && life == 1,
        _ => false,
    }
}

fn replaced(key: u64, cause: Cause) -> Record {
    Record::Replaced {
        key: Key(key),
        life: 1,
        cause,
    }
}

fn count(records: &[Record], wanted: &Record) -> usize {
    records.iter().filter(|record| *record == wanted).count()
}

#[test]
fn one_life_is_replaced(rt: HostRuntime) -> Result<(), Fail> {
    for line in ["replay --lives 2", "run --lives 2"] {
        let end = answer_on(&rt, rt.alloc(), line, STRUCK_SEVEN.as_bytes())?;
        assert_eq!(rt; end.status, 0);
        let records = end.records.as_slice();
        assert_eq!(rt;
            count(records, &replaced(1, Cause::Descriptor)),
            1,
            "{line}"
        );
        let of_one = records.iter().filter(|record| is_replaced(record, 1));
        assert_eq!(rt; of_one.count(), 1, "{line}");
    }
    Ok(())
}

#[test]
fn chain_of_overwritten_versions(rt: HostRuntime) -> Result<(), Fail> {
    let alloc = rt.alloc();
    let end = answer_on(&rt, alloc, "replay --workers 1", REUSED.as_bytes())?;
    assert!(rt; end.is(0, "", "value 12\n"));
    let records = end.records.as_slice();
    for key in 1..4u64 {
        let of_key = records.iter().filter(|record| is_replaced(record, key));
        assert_eq!(rt; of_key.count(), 1, "{key}");
    }
    let cause = |version, found| Cause::Block {
        block: 0,
        version,
        found,
    };
    let third = replaced(3, cause(3, Found::Struck { version: 3 }));
    let second = replaced(2, cause(2, Found::Other { version: 3 }));
    assert_eq!(rt; count(records, &third), 1);
    assert_eq!(rt; count(records, &second), 1);
    Ok(())
}

// The records in print tell the strike and what it led to.
#[test]
fn strikes_in_print(rt: HostRuntime) -> Result<(), Fail> {
    let end = answer_on(&rt, rt.alloc(), "replay --records", STRUCK_SEVEN.as_bytes())?;
    assert_eq!(rt; end.status, 0);
    let whole = "value 7
created 1
struck 1 life 1 descriptor
replaced 1 life 1 because descriptor
spent 1 life 2 self
computed 1 life 2
written 1 life 2 block 0 version 1
closed 1 life 2 word 0
";
    assert_eq!(rt; end.written.as_slice(), whole.as_bytes());
    Ok(())
}

// A run that is cut after the root's life was replaced shows that, by the root's key.
#[test]
fn life_of_the_root(rt: HostRuntime) -> Result<(), Fail> {
    let alloc = rt.alloc();
    let mut shown = false;
    for step in 0..1000u32 {
        let turns = step.wrapping_mul(5);
        let line = format!(in alloc; "replay --workers 1 --turns {turns}")?;
        let end = answer_on(&rt, alloc, line.as_str(), REUSED.as_bytes())?;
        let records = end.records.as_slice();
        let root = records
            .iter()
            .filter(|record| is_replaced(record, 9223372036854775808));
        if end.status == 0 {
            assert_eq!(rt; root.count(), 0);
            assert!(rt; shown, "{turns}");
            return Ok(());
        }
        assert_eq!(rt; end.status, 10, "{turns}");
        shown = shown || root.count() == 1;
    }
    assert!(rt; false, "it did not end");
    Ok(())
}

// So many stages over one block, one of which is struck behind its work.
fn pipeline(alloc: Global, stages: u32, struck: u32) -> Result<String, AllocError> {
    let mut text = format!(in alloc;
        "{{\"version\":1,\"sink\":{stages},\"tasks\":[{{\"key\":1,\"formula\":\"0\",\"block\":[1,1]}}"
    )?;
    for stage in 2..stages.saturating_add(1) {
        let before = stage.saturating_sub(1);
        let task = format!(in alloc;
            ",{{\"key\":{stage},\"formula\":\"$0+1\",\"inputs\":[{before}],\"block\":[1,{stage}]}}"
        )?;
        text.push_str(task.as_str())?;
    }
    let fault = format!(in alloc;
        "],\"faults\":[{{\"task\":{struck},\"life\":1,\"point\":\"notified\",\"target\":\"block\"}}]}}"
    )?;
    text.push_str(fault.as_str())?;
    Ok(text)
}

#[test]
fn long_pipeline(rt: HostRuntime) -> Result<(), Fail> {
    let alloc = rt.alloc();
    let text = pipeline(alloc, 200, 100)?;
    for line in [
        "run",
        "replay",
        "replay --workers 2 --schedule 0,1",
        "replay --workers 4 --schedule 3,2,1,0",
    ] {
        compare(&rt, alloc, (line, text.as_str(), 0, "", "value 199\n"))?;
    }
    Ok(())
}
