//! Two seats of one table, turned in alternation.
ghost use Rattle.std.specs.Prelude.{◌≡◌, ◌+◌, ◌%◌, ◌<◌, ◌≤◌, []};
ghost use Rattle.acyclic_audit.specs.Views.{graph as tasks_of};
ghost use Rattle.core_state.specs.Guards.{CanTakeTurn};
ghost use Rattle.core_state.specs.Rooted.{root_key};
ghost use Rattle.table_tests.specs.Sitting.{HasTwoBlocks, setting_for};
ghost use Rattle.worker_pool.specs.Pooling.{IsRun};
ghost use Rattle.worker_pool.specs.Working.{KeepsTable};

use crate::turning::{Hand, Schedule, Terms, alternate, task_of};
use acyclic_audit::{FileGraph, audit};
use compute_notify::Scratch;
use core_state::{BlockCells, Course, Job, Layout, ROOT};
use core_steps::Steps;
use graph_model::{Cells, FaultPlan, Hit, Key, Record, TaskGraph};
use graph_reader::read_graph;
use std::alloc::{AllocError, Global};
use std::marker::Brand;
use std::process::Abort;
use std::test::Fail;
use task_table::TaskTable;

// Tasks whose sink has the value 6 less 10.
const DIAMOND: &str =
    r#"{"version":1,"sink":4,"tasks":[{"key":1,"formula":"5"},{"key":2,"formula":"$0+1","inputs":[1]},{"key":3,"formula":"$0*2","inputs":[1]},{"key":4,"formula":"$0-$1","inputs":[2,3]}]}"#;

// The same with three strikes.
const STRUCK: &str =
    r#"{"version":1,"sink":4,"tasks":[{"key":1,"formula":"5"},{"key":2,"formula":"$0+1","inputs":[1]},{"key":3,"formula":"$0*2","inputs":[1]},{"key":4,"formula":"$0-$1","inputs":[2,3]}],"faults":[{"task":1,"life":1,"point":"computed","target":"notify","word":0},{"task":4,"life":1,"point":"ready","target":"descriptor"},{"task":2,"life":1,"point":"notified","target":"block"}]}"#;

// The version, the mark and the first cell of a block.
type Seen = (u32, bool, Option<i64>);

// What a seat reads of a block that another has in hand, and of another block; None where it is refused.
#[derive(Clone, Copy)]
struct Reads {
    of_held: Option<Seen>,
    of_other: Option<Seen>,
}

// What two seats leave.
#[derive(Drop)]
struct Left {
    reads: Option<Reads>,
    pending: u64,
    root: Option<Cells>,
    records: Vec<Record>,
}

fn seen(taken: &BlockCells) -> Seen {
    let cells = taken.cells.as_slice();
    (taken.tag, taken.struck, cells.first().copied())
}

// What a seat reads of a block, which it takes and gives back. None where another seat has it.
fn read<T: Steps>(steps: &mut T, block: u32) -> Option<Seen>
    requires can { CanTakeTurn (T.setting steps.old) (T.view steps.old) block }
    requires room { 2 ≤ T.KeyWords.spare steps.old }
    ensures hands { (T.view steps.new).hands ≡ [] }
    ensures room { T.KeyWords.spare steps.old ≤ T.KeyWords.spare steps.new + 2 }
    ensures table { KeepsTable T.setting T.lender T.others steps.old steps.new }
{
    let taken = steps.take_turn(block)?;
    let seen = seen(&taken);
    steps.give_read(block, taken);
    Some(seen)
}

// What one seat reads of the first block while another has it in hand, and of the second block then.
fn read_both<T: Steps>(first: &mut T, second: &mut T) -> Option<Reads>
    requires blocks { HasTwoBlocks (T.setting first.old) × HasTwoBlocks (T.setting second.old) }
    requires hands { ((T.view first.old).hands ≡ []) × ((T.view second.old).hands ≡ []) }
    requires room { (2 ≤ T.KeyWords.spare first.old) × (4 ≤ T.KeyWords.spare second.old) }
    ensures hands { ((T.view first.new).hands ≡ []) × ((T.view second.new).hands ≡ []) }
    ensures first { KeepsTable T.setting T.lender T.others first.old first.new }
    ensures second { KeepsTable T.setting T.lender T.others second.old second.new }
{
    let held = first.take_turn(0)?;
    let of_held = read(second, 0);
    let of_other = read(second, 1);
    first.give_read(0, held);
    Some(Reads { of_held, of_other })
}

// The row of the root in a table of so many rows.
fn root_row(rows: u32) -> u32
    requires { 0 < rows }
    ensures { result ≡ root_key % rows }
{
    (ROOT.0 % u64::from(rows)) as u32
}

// What two seats leave that have turned a graph as the schedule says. It is refused where they did not end, each
// without a task, or where there are no two blocks.
fn run<C: Course>(
    alloc: Global,
    graph: &FileGraph,
    plan: &FaultPlan,
    schedule: Schedule,
) -> Result<Left, AllocError>
    requires setting { C.setting ≡ setting_for graph.now plan.now }
    requires run { IsRun (tasks_of graph.now) C.setting }
{
    let layout = Layout::of(alloc, graph)?;
    let row = root_row(layout.rows);
    let (table, whole) = TaskTable::<C>::new(alloc, layout.copy()?)?;
    let (first, second) = table.split_pass(whole);
    first.is_pass();
    let mut first = table.seat(first);
    let mut second = table.seat(second);
    let scratch = Scratch::new(alloc, graph)?;
    let spare = Scratch::new(alloc, graph)?;
    let mut one = Hand {
        task: Some(task_of(alloc, row, ROOT, Job::Explore, 1)),
        scratch,
    };
    let mut other = Hand {
        task: None,
        scratch: spare,
    };
    let terms = Terms { graph, plan };
    let over = alternate(
        alloc,
        &mut first,
        &mut second,
        &terms,
        &mut one,
        &mut other,
        schedule,
    )?;
    if !over || one.task.is_some() || other.task.is_some() || graph.block_count() < 2 {
        return Err(AllocError);
    }
    first.reserve(2)?;
    second.reserve(4)?;
    let reads = read_both(&mut first, &mut second);
    let Ok(whole) = table.join_pass(first.leave(), second.leave()) else {
        return Err(AllocError);
    };
    let closed = table.close_with(whole);
    Ok(Left {
        reads,
        pending: closed.pending,
        root: closed.root,
        records: closed.records,
    })
}

// The same for the graph of a text; None where it is none, or where it is refused.
fn run_text(alloc: Global, text: &str, schedule: Schedule) -> Option<Left> {
    let Ok((raw, plan)) = read_graph(alloc, text.as_bytes()) else {
        return None;
    };
    prove!(plan.len() <= 4_096);
    let graph = audit(alloc, raw).ok()?;
    run::<Brand>(alloc, &graph, &plan, schedule).ok()
}

const SCHEDULES: [Schedule; 2] = [
    Schedule {
        first: 1,
        second: 1,
    },
    Schedule {
        first: 2,
        second: 3,
    },
];

#[test]
fn two_seats(rt: HostRuntime) -> Result<(), Fail> {
    let first = Record::Struck {
        key: Key(1),
        life: 1,
        hit: Hit::Notify { word: 0 },
    };
    for schedule in SCHEDULES {
        let Some(left) = run_text(rt.alloc(), STRUCK, schedule) else {
            return Err(AllocError.into());
        };
        assert_eq!(rt; left.pending, 0);
        let root = left.root.as_ref().map(|cells| cells.as_slice());
        assert_eq!(rt; root, Some(&[-4i64][..]));
        assert!(rt; left.records.contains(&first));
    }
    Ok(())
}

#[test]
fn block_in_hand(rt: HostRuntime) -> Result<(), Fail> {
    for schedule in SCHEDULES {
        let Some(left) = run_text(rt.alloc(), DIAMOND, schedule) else {
            return Err(AllocError.into());
        };
        let Some(reads) = left.reads else {
            return Err(AllocError.into());
        };
        // The first block is in hand; the second holds 5 and 1.
        assert_eq!(rt; reads.of_held, None);
        assert_eq!(rt; reads.of_other, Some((1, false, Some(6))));
    }
    Ok(())
}
