//! Reads and writes that fail, and that move few bytes.

use crate::command::{DIAMOND, Pace, Runtime, WHOLE, answer_of};
use graph_model::Text;
use std::alloc::Global;
use std::test::Fail;

// A text, how it is read and how the output is written, the status, the message's line, and what is written.
type Paced<'a> = (&'a str, Pace, Pace, u8, &'a str, &'a str);

fn compare_paced(
    rt: &impl Runtime,
    alloc: Global,
    line: &str,
    case: Paced<'_>,
) -> Result<(), Fail> {
    let (text, read, write, status, message, written) = case;
    let bytes = Text::from_slice(alloc, text.as_bytes())?;
    let end = answer_of(rt, alloc, line, bytes, read, write)?;
    assert_eq!(rt; end.status, status, "{line} {text}");
    // With the records, what is written begins with the same line.
    if line != "run --records" || status != 0 {
        assert!(rt; end.is(status, message, written), "{line} {text}");
    }
    Ok(())
}

#[test]
fn reads_and_writes(rt: HostRuntime) -> Result<(), Fail> {
    let by = |per_call, fault| Pace { per_call, fault };
    let cut = &DIAMOND[..DIAMOND.len() - 1];
    let cases = [
        (DIAMOND, by(1, 0), by(1, 0), 0, "", "value -4\n"),
        (cut, by(16, 0), WHOLE, 5, "not JSON", ""),
        (DIAMOND, by(16, 3), WHOLE, 3, "input could not be read", ""),
        ("", by(16, 1), WHOLE, 3, "input could not be read", ""),
        (
            DIAMOND,
            WHOLE,
            by(3, 2),
            4,
            "output could not be written",
            "val",
        ),
        (
            DIAMOND,
            WHOLE,
            by(3, 1),
            4,
            "output could not be written",
            "",
        ),
    ];
    for case in cases {
        for line in ["run", "replay", "run --records"] {
            compare_paced(&rt, rt.alloc(), line, case)?;
        }
    }
    Ok(())
}
