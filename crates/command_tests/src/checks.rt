//! The call that checks and prints, and does not run.

use crate::command::{Case, DIAMOND, USAGE, is_line, words_of};
use graph_model::{Keys, Text};
use graph_runner::check_command;
use io_edge::{MemSink, MemSource, read_all};
use std::test::Fail;

const CASES: [Case<'static>; 8] = [
    (
        "check",
        DIAMOND,
        0,
        "",
        "tasks 4\nreachable 4\nblocks 4\nfaults 0\n",
    ),
    (
        "print",
        r#"{"version":1,"sink":1,"tasks":[]}"#,
        0,
        "",
        "{\"faults\":[],\"sink\":1,\"tasks\":[],\"version\":1}\n",
    ),
    (
        "check",
        r#"{"version":1,"sink":1,"tasks":[]}"#,
        6,
        "sink 1 is no task",
        "",
    ),
    // A run is none of its commands, and nothing is read.
    ("run", DIAMOND, 2, USAGE, ""),
    ("run --records", DIAMOND, 2, USAGE, ""),
    ("replay", DIAMOND, 2, USAGE, ""),
    ("drill 7", DIAMOND, 2, USAGE, ""),
    ("", DIAMOND, 2, USAGE, ""),
];

#[test]
fn checks_and_prints(rt: HostRuntime) -> Result<(), Fail> {
    let alloc = rt.alloc();
    for (line, text, status, message, written) in CASES {
        let words = words_of(alloc, line)?;
        let bytes = Text::from_slice(alloc, text.as_bytes())?;
        let mut source = MemSource::new(bytes, 1000, Keys::new(alloc));
        let mut sink = MemSink::new(Text::new(alloc), 1000, Keys::new(alloc));
        sink.reserve(1000)?;
        let end = check_command(alloc, words.as_slice(), &mut source, &mut sink);
        assert_eq!(rt; end.status, status, "{line} {text}");
        assert!(rt; is_line(end.message.as_slice(), message), "{line} {text}");
        assert_eq!(rt; sink.as_slice(), written.as_bytes());
        let left = if status == 2 { text.len() } else { 0 };
        assert_eq!(rt;
            read_all(alloc, &mut source, 1000).map(|rest| rest.len()),
            Ok(left)
        );
    }
    Ok(())
}
