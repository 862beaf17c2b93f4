//! Whole texts and their answers.

use crate::command::{Case, DIAMOND, USAGE, compare, compare_all, compare_refusals};
use std::test::Fail;

const SEVEN: &str = r#"{"version":1,"sink":1,"tasks":[{"key":1,"formula":"7"}]}"#;

// Three versions of one block.
const REUSED: &str =
    r#"{"version":1,"sink":3,"tasks":[{"key":1,"formula":"5","block":[1,1]},{"key":2,"formula":"$0+1","inputs":[1],"block":[1,2]},{"key":3,"formula":"$0*2","inputs":[2],"block":[1,3]}]}"#;

// The same with a strike.
const STRUCK: &str =
    r#"{"version":1,"sink":3,"tasks":[{"key":1,"formula":"5","block":[1,1]},{"key":2,"formula":"$0+1","inputs":[1],"block":[1,2]},{"key":3,"formula":"$0*2","inputs":[2],"block":[1,3]}],"faults":[{"task":3,"life":1,"point":"computed","target":"block"}]}"#;

const VALUES: [(&str, &str); 9] = [
    (SEVEN, "value 7\n"),
    (DIAMOND, "value -4\n"),
    (
        r#"{"version":1,"sink":2,"tasks":[{"key":1,"formula":"5"},{"key":2,"formula":"$0*$1","inputs":[1,1]}]}"#,
        "value 25\n",
    ),
    (
        r#"{"version":1,"sink":1,"tasks":[{"key":1,"formula":"9223372036854775807+1"}]}"#,
        "value -9223372036854775808\n",
    ),
    (REUSED, "value 12\n"),
    // The overwriting task stands behind the reader of what it overwrites.
    (
        r#"{"version":1,"sink":4,"tasks":[{"key":1,"formula":"5","block":[1,1]},{"key":2,"formula":"$0","inputs":[1]},{"key":3,"formula":"$0+1","inputs":[1],"after":[2],"block":[1,2]},{"key":4,"formula":"$0+$1","inputs":[2,3]}]}"#,
        "value 11\n",
    ),
    // Tasks in any order.
    (
        r#"{"version":1,"sink":2,"tasks":[{"key":2,"formula":"$0-1","inputs":[9]},{"key":9,"formula":"3"}]}"#,
        "value 2\n",
    ),
    // The greatest key.
    (
        r#"{"version":1,"sink":9223372036854775807,"tasks":[{"key":9223372036854775807,"formula":"8"}]}"#,
        "value 8\n",
    ),
    // Of a name that stands twice the last one counts.
    (
        r#"{"version":2,"version":1,"sink":1,"tasks":[{"key":1,"formula":"7"}]}"#,
        "value 7\n",
    ),
];

#[test]
fn values_of_graphs(rt: HostRuntime) -> Result<(), Fail> {
    for (text, written) in VALUES {
        compare(&rt, rt.alloc(), ("run", text, 0, "", written))?;
    }
    Ok(())
}

const REFUSALS: [(&str, &str); 10] = [
    (r#"{"version":1,"sink":1,"tasks":[]}"#, "sink 1 is no task"),
    (
        r#"{"version":1,"sink":1,"tasks":[{"key":1,"formula":"$0","inputs":[2]},{"key":2,"formula":"$0","inputs":[1]}]}"#,
        "cycle through task 1",
    ),
    // A task below a cycle is not on it, and a cycle counts that the sink does not need.
    (
        r#"{"version":1,"sink":1,"tasks":[{"key":1,"formula":"1"},{"key":2,"formula":"$0","inputs":[4]},{"key":3,"formula":"$0","inputs":[4]},{"key":4,"formula":"$0","inputs":[3]}]}"#,
        "cycle through task 3",
    ),
    (
        r#"{"version":1,"sink":2,"tasks":[{"key":2,"formula":"$0","inputs":[9]}]}"#,
        "task 2 names unknown task 9",
    ),
    // The first of two refusals.
    (
        r#"{"version":1,"sink":5,"tasks":[{"key":2,"formula":"$0","inputs":[9]},{"key":2,"formula":"1"}]}"#,
        "task 2 stands twice",
    ),
    (
        r#"{"version":1,"sink":2,"tasks":[{"key":1,"formula":"5","block":[1,1]},{"key":2,"formula":"$0+1","inputs":[1],"block":[1,3]}]}"#,
        "block 1 has no version 2",
    ),
    (
        r#"{"version":1,"sink":2,"tasks":[{"key":1,"formula":"5","block":[1,1]},{"key":2,"formula":"$0+1","inputs":[1],"block":[1,1]}]}"#,
        "block 1 has version 1 twice",
    ),
    (
        r#"{"version":1,"sink":2,"tasks":[{"key":1,"formula":"5","block":[1,1]},{"key":2,"formula":"1","block":[1,2]}]}"#,
        "block 1: the writer of version 1 is not before the next",
    ),
    (
        r#"{"version":1,"sink":4,"tasks":[{"key":1,"formula":"5","block":[1,1]},{"key":2,"formula":"$0","inputs":[1]},{"key":3,"formula":"$0+1","inputs":[1],"block":[1,2]},{"key":4,"formula":"$0+$1","inputs":[2,3]}]}"#,
        "task 2 reads what task 3 overwrites and is not before it",
    ),
    (
        r#"{"version":1,"sink":2,"tasks":[{"key":1,"formula":"5"},{"key":2,"formula":"$0+$3-$2","inputs":[1]}]}"#,
        "task 2 has no input 2",
    ),
];

#[test]
fn refusals_of_graphs(rt: HostRuntime) -> Result<(), Fail> {
    compare_refusals(&rt, rt.alloc(), &["run", "check"], 6, &REFUSALS)
}

const COMMANDS: [Case<'static>; 5] = [
    (
        "check",
        r#"{"version":1,"sink":4,"tasks":[{"key":1,"formula":"5"},{"key":2,"formula":"$0+1","inputs":[1]},{"key":3,"formula":"$0*2","inputs":[1]},{"key":4,"formula":"$0-$1","inputs":[2,3]},{"key":9,"formula":"1"}]}"#,
        0,
        "",
        "tasks 5\nreachable 4\nblocks 5\nfaults 0\n",
    ),
    (
        "check",
        STRUCK,
        0,
        "",
        "tasks 3\nreachable 3\nblocks 1\nfaults 1\n",
    ),
    (
        "print",
        SEVEN,
        0,
        "",
        "{\"faults\":[],\"sink\":1,\"tasks\":[{\"after\":[],\"formula\":\"7\",\"inputs\":[],\"key\":1}],\"version\":1}\n",
    ),
    (
        "print",
        STRUCK,
        0,
        "",
        "{\"faults\":[{\"life\":1,\"point\":\"computed\",\"target\":\"block\",\"task\":3}],\"sink\":3,\"tasks\":[{\"after\":[],\"block\":[1,1],\"formula\":\"5\",\"inputs\":[],\"key\":1},{\"after\":[],\"block\":[1,2],\"formula\":\"$0+1\",\"inputs\":[1],\"key\":2},{\"after\":[],\"block\":[1,3],\"formula\":\"$0*2\",\"inputs\":[2],\"key\":3}],\"version\":1}\n",
    ),
    // A graph is printed that no run accepts.
    (
        "print",
        r#"{"version":1,"sink":1,"tasks":[]}"#,
        0,
        "",
        "{\"faults\":[],\"sink\":1,\"tasks\":[],\"version\":1}\n",
    ),
];

#[test]
fn commands(rt: HostRuntime) -> Result<(), Fail> {
    compare_all(&rt, rt.alloc(), &COMMANDS)
}

const NO_COMMANDS: [&str; 46] = [
    "",
    "now",
    "run now",
    "check now",
    "run --workers 0",
    "run --workers 65",
    "run --workers",
    "run --workers=",
    "run --workers +4",
    "run --workers 00000000004",
    "run --work 2",
    "run --workers 2 --workers=2",
    "run --lives 0",
    "run --lives 65536",
    "run --lives -1",
    "run --records=x",
    "run --records --records",
    "run --records 1",
    "run --schedule 0",
    "run --turns 5",
    "--records run",
    "replay now",
    "replay --workers 0",
    "replay --workers 65",
    "replay --workers 2 --schedule 1",
    "replay --workers 2 --schedule 0,2",
    "replay --schedule 0,1",
    "replay --schedule ,0",
    "replay --schedule 0,",
    "replay --schedule=",
    "replay --turns 100000001",
    "replay --turns -1",
    "replay --lives 65536",
    "check --workers 1",
    "print --records",
    "paths --records",
    "paths --workers 65",
    "drill",
    "drill now",
    "drill 4294967296",
    "drill 7 8",
    "drill 7 --lives 2",
    "Run",
    "--",
    "run --help",
    "replay --version",
];

#[test]
fn words_of_no_command(rt: HostRuntime) -> Result<(), Fail> {
    for line in NO_COMMANDS {
        compare(&rt, rt.alloc(), (line, DIAMOND, 2, USAGE, ""))?;
    }
    Ok(())
}
