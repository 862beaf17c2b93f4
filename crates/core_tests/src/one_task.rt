//! One task on which the root depends, and two seats.
ghost use Rattle.std.specs.Prelude.{◌≡◌, OnOk};
ghost use Rattle.core_steps.specs.Table.{view_at};
ghost use Rattle.core_tests.specs.OneTask.{Begins, Owes, Knows};

use core_state::{Course, Job, Layout, Told};
use core_steps::{PlainTable, Steps};
use graph_model::Key;
use key_table::{find, find_or_make};
use std::process::Abort;
use std::test::Fail;

/// The task 1 has no predecessor, and one block with one cell.
pub(crate) struct OneTask;

impl Course for OneTask {
    ghost use Rattle.core_tests.specs.OneTask.{one_task};

    ghost setting = { one_task };
}

// Seat 1 finds no row of the task.
fn find_none(rt: &impl Abort, table: &mut PlainTable<OneTask>) -> Result<(), Fail>
    requires { Begins table.old }
    ensures { OnOk result (Begins table.new) }
{
    let mut seat = table.seat(1);
    seat.reserve(8)?;
    assert_eq!(rt; find(&mut seat, Key(1)), None);
    Ok(())
}

// Seat 0 makes the row, and finds it when it asks again.
fn make_row(rt: &impl Abort, table: &mut PlainTable<OneTask>) -> Result<(), Fail>
    requires { Begins table.old }
    ensures { OnOk result (Owes table.new) }
{
    let mut seat = table.seat(0);
    seat.reserve(8)?;
    let (row, made) = find_or_make(&mut seat, Key(1));
    assert_eq!(rt; row, 1);
    assert!(rt; made);
    assert_eq!(rt; find_or_make(&mut seat, Key(1)), (1, false));
    Ok(())
}

// Seat 1 finds the row.
fn find_row(rt: &impl Abort, table: &mut PlainTable<OneTask>) -> Result<(), Fail>
    requires { Owes table.old }
    ensures owes { OnOk result (Owes table.new) }
    ensures knows { OnOk result (Knows table.new) }
{
    let mut seat = table.seat(1);
    seat.reserve(8)?;
    assert_eq!(rt; find(&mut seat, Key(1)), Some(1));
    Ok(())
}

// Seat 0 posts the exploring of the task.
fn post_job(rt: &impl Abort, table: &mut PlainTable<OneTask>) -> Result<(), Fail>
    requires owes { Owes table.old }
    requires knows { Knows table.old }
    ensures { OnOk result (Knows table.new) }
{
    let mut seat = table.seat(0);
    seat.reserve(8)?;
    seat.buy();
    assert_eq!(rt; seat.post(1, Job::Explore, 1), 0);
    Ok(())
}

// Seat 1 takes it, finds it gone, and spends the self place, which is the last.
fn take_job(rt: &impl Abort, table: &mut PlainTable<OneTask>) -> Result<(), Fail>
    requires { Knows table.old }
{
    let mut seat = table.seat(1);
    seat.reserve(8)?;
    let taken = seat.take(1, Job::Explore);
    assert_eq!(rt; taken, 1);
    assert_eq!(rt; seat.take(1, Job::Explore), 0);
    assert_eq!(rt; seat.spend(1, 40, 0), Told::Last { life: 1 });
    Ok(())
}

#[test]
fn one_task(rt: HostRuntime) -> Result<(), Fail> {
    let alloc = rt.alloc();
    let layout = Layout {
        rows: 2,
        words_per_row: 1,
        cells: vec![in alloc; 1usize, 1]?,
    };
    let mut table = PlainTable::new(alloc, layout, 2)?;
    find_none(&rt, &mut table)?;
    make_row(&rt, &mut table)?;
    find_row(&rt, &mut table)?;
    post_job(&rt, &mut table)?;
    take_job(&rt, &mut table)
}
