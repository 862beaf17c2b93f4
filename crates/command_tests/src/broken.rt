//! Texts that are no graph files.

use crate::command::{DIAMOND, answer_on, compare, compare_refusals};
use std::alloc::Global;
use std::test::Fail;

// So many opening and closing brackets.
fn brackets(alloc: Global, count: u32) -> Result<String, Fail> {
    let mut text = String::new(alloc);
    for _ in 0..count {
        text.push('[')?;
    }
    for _ in 0..count {
        text.push(']')?;
    }
    Ok(text)
}

const TEXTS: [(&str, &str); 16] = [
    ("", "not JSON"),
    (r#"{"version":1,"sink":1e400,"tasks":[]}"#, "not JSON"),
    ("[]", "bad shape at "),
    ("7", "bad shape at "),
    ("{}", "bad shape at /version"),
    (
        r#"{"version":1.5,"sink":1,"tasks":[]}"#,
        "bad shape at /version",
    ),
    (
        r#"{"version":"1","sink":1,"tasks":[]}"#,
        "bad shape at /version",
    ),
    (
        r#"{"version":null,"sink":1,"tasks":[]}"#,
        "bad shape at /version",
    ),
    // The version stands before names that the format hasn't, and these before all else.
    (
        r#"{"version":2,"sink":1,"tasks":[],"x":1}"#,
        "unknown version",
    ),
    (r#"{"version":2,"sink":1,"tasks":[]}"#, "unknown version"),
    (
        r#"{"version":1,"sink":-1,"tasks":[],"x":1,"a":1}"#,
        "bad shape at /a",
    ),
    (
        r#"{"version":1,"sink":-1,"tasks":[]}"#,
        "bad shape at /sink",
    ),
    (
        r#"{"version":1,"sink":-0,"tasks":[]}"#,
        "bad shape at /sink",
    ),
    (
        r#"{"version":1,"sink":9223372036854775808,"tasks":[]}"#,
        "out of range at /sink",
    ),
    (
        r#"{"version":1,"sink":1,"tasks":{}}"#,
        "bad shape at /tasks",
    ),
    (r#"{"version":1,"sink":1}"#, "bad shape at /tasks"),
];

#[test]
fn whole_texts(rt: HostRuntime) -> Result<(), Fail> {
    let deep = brackets(rt.alloc(), 127)?;
    let deeper = brackets(rt.alloc(), 128)?;
    let made = [
        (&DIAMOND[..DIAMOND.len() - 1], "not JSON"),
        (deeper.as_str(), "not JSON"),
        (deep.as_str(), "bad shape at "),
    ];
    let lines = ["run", "check", "print"];
    compare_refusals(&rt, rt.alloc(), &lines, 5, &made)?;
    let named = format!(in rt.alloc(); "{{\"x\":1,{}", &DIAMOND[1..])?;
    let unknown = [(named.as_str(), "bad shape at /x")];
    compare_refusals(&rt, rt.alloc(), &lines, 5, &unknown)?;
    compare_refusals(&rt, rt.alloc(), &lines, 5, &TEXTS)?;
    // A byte that stands in no text.
    let end = answer_on(&rt, rt.alloc(), "run", &[255])?;
    assert!(rt; end.is(5, "not JSON", ""));
    Ok(())
}

// Names that the format hasn't, as JSON writes them, and as a path shows them.
const NAMES: [(&str, &str); 8] = [
    (r#"line\nfeed"#, r#"line\u000afeed"#),
    (r#"\u001b[2J"#, r#"\u001b[2J"#),
    (r#"say \"no\""#, r#"say \"no\""#),
    (r#"back\\slash"#, r#"back\\slash"#),
    (r#"\u007f\u0085\u009f"#, r#"\u007f\u0085\u009f"#),
    // All others stand as they are.
    ("caf\u{e9} \u{a0}", "caf\u{e9} \u{a0}"),
    ("a/b~c", "a/b~c"),
    (r#"\u0000\t\r"#, r#"\u0000\u0009\u000d"#),
];

#[test]
fn names_in_paths(rt: HostRuntime) -> Result<(), Fail> {
    let alloc = rt.alloc();
    for (name, shown) in NAMES {
        let whole = format!(in alloc; "{{\"version\":1,\"sink\":1,\"tasks\":[],\"{name}\":1}}")?;
        let refusal = format!(in alloc; "bad shape at /{shown}")?;
        compare(&rt, alloc, ("run", whole.as_str(), 5, refusal.as_str(), ""))?;
        let task = format!(in alloc; "{{\"version\":1,\"sink\":1,\"tasks\":[{{\"{name}\":1}}]}}")?;
        let refusal = format!(in alloc; "bad shape at /tasks/0/{shown}")?;
        compare(
            &rt,
            alloc,
            ("print", task.as_str(), 5, refusal.as_str(), ""),
        )?;
    }
    Ok(())
}

// The one task of a file, its faults, and the message.
const PARTS: [(&str, &str, &str); 25] = [
    ("{}", "[]", "bad shape at /tasks/0/key"),
    ("[]", "[]", "bad shape at /tasks/0"),
    (r#"{"key":-1,"a":1}"#, "[]", "bad shape at /tasks/0/a"),
    (r#"{"key":1}"#, "[]", "bad shape at /tasks/0/formula"),
    (
        r#"{"key":1,"formula":7}"#,
        "[]",
        "bad shape at /tasks/0/formula",
    ),
    (
        r#"{"key":1,"formula":"9223372036854775808"}"#,
        "[]",
        "formula of task 1: number too large at 0",
    ),
    (
        r#"{"key":1,"formula":"1+"}"#,
        "[]",
        "formula of task 1: ends too early",
    ),
    (
        r#"{"key":1,"formula":"1 2"}"#,
        "[]",
        "formula of task 1: unexpected rest at 2",
    ),
    (
        r#"{"key":1,"formula":"a"}"#,
        "[]",
        "formula of task 1: unexpected character at 0",
    ),
    (
        r#"{"key":1,"formula":"1+$40"}"#,
        "[]",
        "formula of task 1: bad input at 2",
    ),
    (
        r#"{"key":1,"formula":"7","inputs":[1,"1"]}"#,
        "[]",
        "bad shape at /tasks/0/inputs/1",
    ),
    (
        r#"{"key":1,"formula":"7","after":[9223372036854775808]}"#,
        "[]",
        "out of range at /tasks/0/after/0",
    ),
    (
        r#"{"key":1,"formula":"7","block":[1]}"#,
        "[]",
        "bad shape at /tasks/0/block",
    ),
    (
        r#"{"key":1,"formula":"7","block":[4294967296,0]}"#,
        "[]",
        "out of range at /tasks/0/block/0",
    ),
    (
        r#"{"key":1,"formula":"7","block":[4294967295,0]}"#,
        "[]",
        "out of range at /tasks/0/block/1",
    ),
    (
        r#"{"key":1,"formula":"7","block":[4294967295,16385]}"#,
        "[]",
        "out of range at /tasks/0/block/1",
    ),
    (r#"{"key":1,"formula":"7"}"#, "{}", "bad shape at /faults"),
    (
        r#"{"key":1,"formula":"7"}"#,
        "[{}]",
        "bad shape at /faults/0/task",
    ),
    (
        r#"{"key":1,"formula":"7"}"#,
        r#"[{"task":9,"life":1,"point":"explored","target":"descriptor"}]"#,
        "bad shape at /faults/0/task",
    ),
    (
        r#"{"key":1,"formula":"7"}"#,
        r#"[{"task":1,"life":0,"point":"explored","target":"descriptor"}]"#,
        "out of range at /faults/0/life",
    ),
    (
        r#"{"key":1,"formula":"7"}"#,
        r#"[{"task":1,"life":65536,"point":"explored","target":"descriptor"}]"#,
        "out of range at /faults/0/life",
    ),
    (
        r#"{"key":1,"formula":"7"}"#,
        r#"[{"task":1,"life":1,"point":"later","target":"descriptor"}]"#,
        "bad shape at /faults/0/point",
    ),
    (
        r#"{"key":1,"formula":"7"}"#,
        r#"[{"task":1,"life":1,"point":"ready","target":"task"}]"#,
        "bad shape at /faults/0/target",
    ),
    (
        r#"{"key":1,"formula":"7"}"#,
        r#"[{"task":1,"life":1,"point":"ready","target":"notify","word":16}]"#,
        "out of range at /faults/0/word",
    ),
    (
        r#"{"key":1,"formula":"7"}"#,
        r#"[{"task":1,"life":1,"point":"ready","target":"block","word":0}]"#,
        "bad shape at /faults/0/word",
    ),
];

#[test]
fn tasks_and_strikes(rt: HostRuntime) -> Result<(), Fail> {
    let alloc = rt.alloc();
    for (task, faults, message) in PARTS {
        let text = format!(in alloc;
            "{{\"version\":1,\"sink\":1,\"tasks\":[{task}],\"faults\":{faults}}}"
        )?;
        compare(&rt, alloc, ("run", text.as_str(), 5, message, ""))?;
    }
    Ok(())
}
