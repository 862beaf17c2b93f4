//! Lists of words, and what they stand for. A line is cut at each single space, so two spaces in a row stand round an empty word.

use crate::{Command, command_of};
use std::alloc::{AllocError, Global};
use std::test::Fail;

// Lists that stand for no command.
static REFUSED: [&str; 84] = [
    "",
    "now",
    "Run",
    "run ",
    " run",
    "runs",
    "--workers 2",
    "run now",
    "run 7",
    "run run",
    "check now",
    "check 7",
    "print now",
    "check --workers 1",
    "check --workers=1",
    "print --records",
    "print --lives 2",
    "help",
    "run help",
    "help run",
    "-h",
    "run -h",
    "--help",
    "run --help",
    "-V",
    "run -V",
    "--version",
    "check --version",
    "--",
    "run --",
    "run -- --workers 2",
    "run --workers 2 --",
    "run --workers --",
    "run --workers help",
    "run --workers",
    "run --workers=",
    "run --workers ",
    "run --workers 0",
    "run --workers=0",
    "run --workers 65",
    "run --workers=65",
    "run --workers +4",
    "run --workers -4",
    "run --workers=-4",
    "run --workers 4x",
    "run --workers 0x4",
    "run --workers 4,4",
    "run --workers 00000000004",
    "run --workers 4294967297",
    "run --workers 1 --workers 1",
    "run --workers=1 --workers=1",
    "run --workers 1 --workers=2",
    "run --work 2",
    "run --work=2",
    "run --worker 2",
    "run --workerss 2",
    "run --Workers 2",
    "run -workers 2",
    "run -w 2",
    "run --workers 2 3",
    "run --workers = 2",
    "run --lives 0",
    "run --lives 65536",
    "run --lives=65536",
    "run --lives --records",
    "run --records=x",
    "run --records=",
    "run --records true",
    "run --records --records",
    "run --schedule 0",
    "run --turns 5",
    "paths --records",
    "paths --turns 1",
    "replay --schedule",
    "replay --schedule=",
    "replay --schedule ,0",
    "replay --schedule 0,",
    "replay --workers 2 --schedule 1",
    "replay --workers 2 --schedule 0,2",
    "replay --turns 100000001",
    "drill",
    "drill 7 --lives 2",
    "drill 4294967296",
    "drill 7 7",
];

// Lists that stand for a command.
static TAKEN: [(&str, &str); 36] = [
    ("run", "Run { workers: 4, lives: 65535, records: false }"),
    (
        "run --workers 1",
        "Run { workers: 1, lives: 65535, records: false }",
    ),
    (
        "run --workers=1",
        "Run { workers: 1, lives: 65535, records: false }",
    ),
    (
        "run --workers 64",
        "Run { workers: 64, lives: 65535, records: false }",
    ),
    (
        "run --workers=64",
        "Run { workers: 64, lives: 65535, records: false }",
    ),
    (
        "run --workers 0000000004",
        "Run { workers: 4, lives: 65535, records: false }",
    ),
    (
        "run --workers=0000000064",
        "Run { workers: 64, lives: 65535, records: false }",
    ),
    (
        "run --lives 1",
        "Run { workers: 4, lives: 1, records: false }",
    ),
    (
        "run --lives=65535",
        "Run { workers: 4, lives: 65535, records: false }",
    ),
    (
        "run --records",
        "Run { workers: 4, lives: 65535, records: true }",
    ),
    (
        "run --records --lives 2",
        "Run { workers: 4, lives: 2, records: true }",
    ),
    (
        "run --lives=2 --records",
        "Run { workers: 4, lives: 2, records: true }",
    ),
    (
        "run --workers 3 --lives=7 --records",
        "Run { workers: 3, lives: 7, records: true }",
    ),
    (
        "run --records --lives 7 --workers=3",
        "Run { workers: 3, lives: 7, records: true }",
    ),
    ("paths", "Paths { workers: 4, lives: 65535 }"),
    ("paths --workers 2", "Paths { workers: 2, lives: 65535 }"),
    (
        "paths --lives 1 --workers=2",
        "Paths { workers: 2, lives: 1 }",
    ),
    ("check", "Check"),
    ("print", "Print"),
    ("drill 7", "Drill { number: 7, workers: 4 }"),
    ("drill 0", "Drill { number: 0, workers: 4 }"),
    (
        "drill 4294967295",
        "Drill { number: 4294967295, workers: 4 }",
    ),
    ("drill 0000000007", "Drill { number: 7, workers: 4 }"),
    ("drill 7 --workers 1", "Drill { number: 7, workers: 1 }"),
    ("drill --workers 8 7", "Drill { number: 7, workers: 8 }"),
    ("drill --workers=8 7", "Drill { number: 7, workers: 8 }"),
    (
        "replay",
        "Replay { workers: 1, lives: 65535, records: false, schedule: [0], turns: None }",
    ),
    (
        "replay --turns 0",
        "Replay { workers: 1, lives: 65535, records: false, schedule: [0], turns: Some(0) }",
    ),
    (
        "replay --turns=100000000",
        "Replay { workers: 1, lives: 65535, records: false, schedule: [0], turns: Some(100000000) }",
    ),
    (
        "replay --schedule 0",
        "Replay { workers: 1, lives: 65535, records: false, schedule: [0], turns: None }",
    ),
    (
        "replay --schedule=0,0",
        "Replay { workers: 1, lives: 65535, records: false, schedule: [0, 0], turns: None }",
    ),
    (
        "replay --workers 2 --schedule 0,1 --turns 1000000",
        "Replay { workers: 2, lives: 65535, records: false, schedule: [0, 1], turns: Some(1000000) }",
    ),
    (
        "replay --schedule 1,0 --workers 2",
        "Replay { workers: 2, lives: 65535, records: false, schedule: [1, 0], turns: None }",
    ),
    (
        "replay --schedule=63,00,62 --workers=64",
        "Replay { workers: 64, lives: 65535, records: false, schedule: [63, 0, 62], turns: None }",
    ),
    (
        "replay --workers 3 --schedule 0000000002,0",
        "Replay { workers: 3, lives: 65535, records: false, schedule: [2, 0], turns: None }",
    ),
    (
        "replay --records --turns 5 --lives=9 --schedule=0,1 --workers=2",
        "Replay { workers: 2, lives: 9, records: true, schedule: [0, 1], turns: Some(5) }",
    ),
];

fn refused() -> &'static [&'static str] {
    REFUSED.as_slice()
}

fn taken() -> &'static [(&'static str, &'static str)] {
    TAKEN.as_slice()
}

fn words_of(alloc: Global, line: &str) -> Result<Vec<String>, AllocError> {
    let mut words = Vec::new(alloc);
    for word in line.split(' ') {
        words.push(String::from_str(alloc, word)?)?;
    }
    Ok(words)
}

#[test]
fn lists_that_stand_for_no_command(rt: HostRuntime) -> Result<(), Fail> {
    for line in refused() {
        let words = words_of(rt.alloc(), line)?;
        let found = command_of(rt.alloc(), words.as_slice())?;
        assert!(rt; found.is_none(), "{line}");
    }
    let none = command_of(rt.alloc(), &[])?;
    assert!(rt; none.is_none());
    Ok(())
}

#[test]
fn lists_that_stand_for_a_command(rt: HostRuntime) -> Result<(), Fail> {
    for (line, want) in taken() {
        let words = words_of(rt.alloc(), line)?;
        let text = match command_of(rt.alloc(), words.as_slice())? {
            Some(command) => format!(in rt.alloc(); "{command:?}")?,
            None => String::new(rt.alloc()),
        };
        assert!(rt; text.as_str() == *want, "{line}: {text}");
    }
    Ok(())
}

// A schedule of this many zeros.
fn zeros(alloc: Global, count: u32) -> Result<Vec<String>, AllocError> {
    let mut list = String::from_str(alloc, "--schedule=0")?;
    for _ in 1..count {
        list.push_str(",0")?;
    }
    let mut words = Vec::new(alloc);
    words.push(String::from_str(alloc, "replay")?)?;
    words.push(list)?;
    Ok(words)
}

#[test]
fn long_schedules(rt: HostRuntime) -> Result<(), Fail> {
    let words = zeros(rt.alloc(), 4096)?;
    match command_of(rt.alloc(), words.as_slice())? {
        Some(Command::Replay { schedule, .. }) => assert!(rt; schedule.len() == 4096),
        _ => assert!(rt; false, "a list of 4,096 numbers"),
    }
    let words = zeros(rt.alloc(), 4097)?;
    let found = command_of(rt.alloc(), words.as_slice())?;
    assert!(rt; found.is_none());
    Ok(())
}
