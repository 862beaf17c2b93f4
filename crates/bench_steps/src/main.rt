//! The time that steps of a seat of the shared table take, over and over on one word. The first word is how many.
#![tactic(auto)]

mod kinds;

ghost use Rattle.std.specs.Prelude.{◌≡◌, ◌≤◌, IfOk};
ghost use Rattle.core_state.specs.Views.{opener};
ghost use Rattle.core_tests.specs.OneTask.{root};

use core_state::{Course, Layout, ROOT};
use core_steps::Steps;
use graph_model::Key;
use std::alloc::{AllocError, Global};
use std::env;
use std::time::{Duration, Instant};
use task_table::{Pass, TaskTable};

/// The task 1 has no predecessor, and one block with one cell.
struct OneTask;

impl Course for OneTask {
    ghost use Rattle.core_tests.specs.OneTask.{one_task};

    ghost setting = { one_task };
}

// A table whose one seat is to explore the root.
fn begin(alloc: Global) -> Result<(TaskTable<OneTask>, Pass<OneTask>), AllocError>
    ensures table { IfOk result (λ t. t.1.table ≡ t.0) }
    ensures view { IfOk result (λ t. t.1.view ≡ opener 64 root 0) }
{
    let layout = Layout {
        rows: 2,
        words_per_row: 1,
        cells: vec![in alloc; 1usize, 1]?,
    };
    TaskTable::<OneTask>::new(alloc, layout)
}

fn turns(rt: &HostRuntime, many: u32) -> std::io::Result<Duration>
    requires { many ≤ 10000000 }
{
    let (table, pass) = begin(rt.alloc())?;
    let mut seat = table.seat(pass);
    seat.reserve(many * 2)?;
    let start = Instant::now(rt)?;
    kinds::turns(&mut seat, many);
    start.elapsed(rt)
}

fn takes(rt: &HostRuntime, many: u32) -> std::io::Result<Duration> {
    let (table, pass) = begin(rt.alloc())?;
    let mut seat = table.seat(pass);
    seat.reserve(many)?;
    let start = Instant::now(rt)?;
    kinds::takes(&mut seat, 0, ROOT, many);
    start.elapsed(rt)
}

fn claims(rt: &HostRuntime, many: u32) -> std::io::Result<Duration> {
    let (table, pass) = begin(rt.alloc())?;
    let mut seat = table.seat(pass);
    seat.reserve(many)?;
    let start = Instant::now(rt)?;
    kinds::claims(&mut seat, Key(1), many);
    start.elapsed(rt)
}

fn loads(rt: &HostRuntime, many: u32) -> std::io::Result<Duration> {
    let (table, pass) = begin(rt.alloc())?;
    let mut seat = table.seat(pass);
    let start = Instant::now(rt)?;
    kinds::loads(&mut seat, many);
    start.elapsed(rt)
}

fn number_in(word: Option<String>, default: u32) -> u32 {
    match word {
        Some(word) => word.parse::<u32>().unwrap_or(default),
        None => default,
    }
}

fn main(rt: HostRuntime) -> std::io::Result<()> {
    let mut words = env::args(&rt)?;
    let _ = words.next();
    let many = number_in(words.next(), 1_000_000).min(10_000_000);
    let claims = claims(&rt, many)?.as_nanos();
    let takes = takes(&rt, many)?.as_nanos();
    let loads = loads(&rt, many)?.as_nanos();
    let turns = turns(&rt, many)?.as_nanos();
    println!(rt; "{many} of each step")?;
    eprintln!(rt; "{claims} {takes} {loads} {turns}")
}
