//! Graphs that a number stands for.

use crate::command::{DIAMOND, compare};
use std::test::Fail;

// No input is read, whatever stands there.
#[test]
fn values_of_numbers(rt: HostRuntime) -> Result<(), Fail> {
    for line in [
        "drill 7 --workers 1",
        "drill 7 --workers 8",
        "drill --workers=64 07",
    ] {
        compare(
            &rt,
            rt.alloc(),
            (line, DIAMOND, 0, "", "value 8263\ntasks 8257\n"),
        )?;
    }
    compare(
        &rt,
        rt.alloc(),
        (
            "drill 4294967295",
            "",
            0,
            "",
            "value 4294975551\ntasks 8257\n",
        ),
    )
}
