//! One pass of a table that is cut in two, and joined again.
use core_state::{Course, Layout};
use core_steps::Steps;
use graph_model::{Key, Record};
use key_table::{find, find_or_make};
use std::alloc::AllocError;
use std::test::Fail;
use task_table::TaskTable;

/// The task 1 has no predecessor, and one block with one cell.
struct OneTask;

impl Course for OneTask {
    ghost use Rattle.core_tests.specs.OneTask.{one_task};

    ghost setting = { one_task };
}

// Threads may share the table, and each may have a pass.
fn is_shared<T: Sync, P: Send>(_table: &T, _pass: &P) {}

#[test]
fn one_pass(rt: HostRuntime) -> Result<(), Fail> {
    let alloc = rt.alloc();
    let layout = Layout {
        rows: 2,
        words_per_row: 1,
        cells: vec![in alloc; 1usize, 1]?,
    };
    let (table, whole) = TaskTable::<OneTask>::new(alloc, layout)?;
    is_shared(&table, &whole);
    let (first, second) = table.split_pass(whole);
    let mut a = table.seat(first);
    let mut b = table.seat(second);
    a.reserve(8)?;
    b.reserve(8)?;
    assert_eq!(rt; find(&mut b, Key(1)), None);
    let (row, made) = find_or_make(&mut a, Key(1));
    assert_eq!(rt; row, 1);
    assert!(rt; made);
    assert_eq!(rt; find_or_make(&mut a, Key(1)), (1, false));
    assert_eq!(rt; find(&mut b, Key(1)), Some(1));
    a.buy();
    assert_eq!(rt; a.load_pending(), 2);
    let first = a.leave();
    let second = b.leave();
    let Ok(whole) = table.join_pass(second, first) else {
        return Err(AllocError.into());
    };
    let closed = table.close_with(whole);
    assert_eq!(rt; closed.pending, 2);
    assert!(rt; closed.root.is_none());
    assert_eq!(rt; closed.records.len(), 1);
    assert_eq!(rt; closed.records[0], Record::Created { key: Key(1) });
    Ok(())
}
