//! A table on which nobody worked, closed at once.
use crate::one_task::OneTask;
use core_laws::{causes, no_fault, once, quiet};
use core_state::Layout;
use core_steps::PlainTable;
use std::test::Fail;

#[test]
fn closed_at_once(rt: HostRuntime) -> Result<(), Fail> {
    let alloc = rt.alloc();
    let layout = Layout {
        rows: 2,
        words_per_row: 1,
        cells: vec![in alloc; 1usize, 1]?,
    };
    let mut table = PlainTable::<OneTask>::new(alloc, layout, 2)?;
    table.gather()?;
    let closed = table.close();
    quiet(&closed);
    once(&closed);
    causes(&closed);
    no_fault(&closed);
    assert_eq!(rt; closed.pending, 1);
    assert!(rt; closed.root.is_none());
    assert!(rt; closed.records.is_empty());
    assert!(rt; closed.root_replaced.is_empty());
    Ok(())
}
