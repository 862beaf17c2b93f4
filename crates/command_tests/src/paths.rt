//! Matrices and their least weights.

use crate::command::{Case, USAGE, answer_on, compare, compare_all};
use std::alloc::Global;
use std::test::Fail;

// Three vertices in tiles of two.
const THREE: &str = "3 2\n- 4 7\n- - 1\n- - -\n";

const LEAST_OF_THREE: &str = "0 4 5\n- 0 1\n- - 0\n";

const CASES: [Case<'static>; 13] = [
    ("paths", THREE, 0, "", LEAST_OF_THREE),
    ("paths --workers 2", THREE, 0, "", LEAST_OF_THREE),
    ("paths --workers=64 --lives 1", THREE, 0, "", LEAST_OF_THREE),
    ("paths", "1 1\n-\n", 0, "", "0\n"),
    // The weight from a vertex to itself is 0, whatever item stands there.
    ("paths", "2 2\n5 3\n- 9\n", 0, "", "0 3\n- 0\n"),
    // Edges of weight 0, and a way round a heavier edge.
    (
        "paths",
        "3 1\n- 9 0\n0 - -\n- 4 -\n",
        0,
        "",
        "0 4 0\n0 0 0\n4 4 0\n",
    ),
    // Sums above the greatest weight of an edge.
    (
        "paths",
        "3 1\n- 2147483647 -\n- - 2147483647\n- - -\n",
        0,
        "",
        "0 2147483647 4294967294\n- 0 2147483647\n- - 0\n",
    ),
    // Lines that end with a return, surplus spaces, and no last newline.
    ("paths", "2 1\r\n  0   1 \r\n- -", 0, "", "0 1\n- 0\n"),
    // Strikes on a tile that is loaded, on the pivot and on the sink.
    (
        "paths",
        "3 2\n- 4 7\n- - 1\n- - -\nfault 0 1 computed block\n\nfault 4 1 ready descriptor\nfault 14 1 computed notify\n",
        0,
        "",
        LEAST_OF_THREE,
    ),
    (
        "paths --lives 1",
        "1 1\n-\nfault 0 1 explored descriptor\n",
        7,
        "task 0 has no life after 1: descriptor",
        "",
    ),
    (
        "paths --lives 2",
        "1 1\n-\nfault 0 1 explored descriptor\n",
        0,
        "",
        "0\n",
    ),
    ("paths --records", THREE, 2, USAGE, ""),
    ("paths --turns 1", THREE, 2, USAGE, ""),
];

#[test]
fn matrices(rt: HostRuntime) -> Result<(), Fail> {
    compare_all(&rt, rt.alloc(), &CASES)
}

const REFUSALS: [(&str, &str); 12] = [
    ("", "bad first line"),
    ("2 1 1\n0 1\n1 0\n", "bad first line"),
    ("513 32\n", "bad size"),
    ("17 1\n", "bad size"),
    ("1 33\n-\n", "bad size"),
    ("2 1\n0 1\n0\n", "bad line 3"),
    ("2 1\n0 1\n0 1 2\n", "bad line 3"),
    ("2 1\n0 1\n", "bad line 3"),
    ("2 1\n0 2147483648\n- 0\n", "weight too large in line 2"),
    (
        "1 1\n-\n\nfault 4 1 computed block\n",
        "bad fault in line 4",
    ),
    ("1 1\n-\nfault 0 0 computed block\n", "bad fault in line 3"),
    (
        "1 1\n-\nfault 0 1 computed notify 16\n",
        "bad fault in line 3",
    ),
];

#[test]
fn refusals(rt: HostRuntime) -> Result<(), Fail> {
    for (text, message) in REFUSALS {
        compare(&rt, rt.alloc(), ("paths", text, 5, message, ""))?;
    }
    Ok(())
}

// A ring of n vertices: from each to the next one the weight is 1.
fn ring(alloc: Global, n: u32, side: u32) -> Result<String, Fail> {
    let mut text = format!(in alloc; "{n} {side}\n")?;
    for i in 0..n {
        let next = if i + 1 < n { i + 1 } else { 0 };
        for j in 0..n {
            text.push_str(if j == next { "1 " } else { "- " })?;
        }
        text.push_str("\n")?;
    }
    Ok(text)
}

// From each vertex of it to each: so many steps.
fn steps_round(alloc: Global, n: u32) -> Result<String, Fail> {
    let mut text = String::new(alloc);
    for i in 0..n {
        for j in 0..n {
            let steps = if i <= j { j - i } else { n - (i - j) };
            let item = format!(in alloc; "{steps}")?;
            text.push_str(if j == 0 { "" } else { " " })?;
            text.push_str(item.as_str())?;
        }
        text.push_str("\n")?;
    }
    Ok(text)
}

// The first is the greatest that is allowed, the others have tiles of one vertex, one tile, and a last tile that is not full.
#[test]
fn rings(rt: HostRuntime) -> Result<(), Fail> {
    let alloc = rt.alloc();
    for (n, side, length) in [
        (512, 32, 992_256),
        (16, 1, 608),
        (32, 32, 2752),
        (33, 4, 2937),
    ] {
        let text = ring(alloc, n, side)?;
        let expected = steps_round(alloc, n)?;
        assert_eq!(rt; expected.len(), length);
        let end = answer_on(&rt, alloc, "paths", text.as_str().as_bytes())?;
        assert!(rt; end.is(0, "", expected.as_str()), "{n} {side}");
    }
    Ok(())
}
