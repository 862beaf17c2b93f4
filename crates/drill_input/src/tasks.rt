ghost use Rattle.std.specs.Prelude.{◌≡◌, ◌≤◌, ◌<◌, ◌+◌, ◌*◌, ◌-◌, ◌++◌, ◌∷◌, [], ℕ, map, pos, IfOk, OnOk};
ghost use Rattle.raw_graph.specs.Graph.{task_of};
ghost use Rattle.drill_input.specs.Draws.{state};
ghost use Rattle.drill_input.specs.Drill.{each, second_back, third_back, first_task, later_task, first_version, next_version, last_task, drill_tasks};

use crate::draws::Draws;
use crate::formulas::{last_formula, later_formula, next_formula, number_formula};
use graph_model::{Key, Keys};
use raw_graph::RawTask;
use std::alloc::{AllocError, Global};

// How far back an input can stand.
const FARTHEST: u64 = 64;

/// The key of the sink.
pub(crate) const SINK: u64 = 20000;

// Keys in a list of their own.
fn keys_of(alloc: Global, keys: &[u64]) -> Result<Keys, AllocError>
    ensures { IfOk result (λ list. list ≡ keys.now) }
{
    Keys::from_slice(alloc, keys)
}

// Task `key` of the first 64.
fn first_task(alloc: Global, number: u32, key: u64) -> Result<RawTask, AllocError>
    requires first { 1 ≤ key }
    requires last { key ≤ 64 }
    ensures { IfOk result (λ task. task_of task ≡ first_task number key) }
{
    let mut after = Keys::new(alloc);
    if key != 1 {
        after.push(key - 1)?;
    }
    Ok(RawTask {
        key: Key(key),
        formula: number_formula(alloc, u64::from(number) + key)?,
        inputs: Keys::new(alloc),
        after,
        block: None,
    })
}

// Task `key` of those behind them.
fn later_task(alloc: Global, draws: &mut Draws, key: u64) -> Result<RawTask, AllocError>
    requires first { 65 ≤ key }
    requires last { key ≤ 8192 }
    ensures task { (number : ℕ) → draws.old.state ≡ state number (2 * (key - 65)) → IfOk result (λ task. task_of task ≡ later_task number key) }
    ensures drawn { (number : ℕ) → draws.old.state ≡ state number (2 * (key - 65)) → draws.new.state ≡ state number (2 * (key + 1 - 65)) }
{
    let d = 1 + draws.next() % FARTHEST;
    let e = 1 + draws.next() % FARTHEST;
    Ok(RawTask {
        key: Key(key),
        formula: later_formula(alloc, d, e)?,
        inputs: keys_of(alloc, &[key - 1, key - d, key - e])?,
        after: Keys::new(alloc),
        block: None,
    })
}

// The writer of the first version of block 0.
fn first_version(alloc: Global) -> Result<RawTask, AllocError>
    ensures { IfOk result (λ task. task_of task ≡ first_version) }
{
    Ok(RawTask {
        key: Key(10001),
        formula: number_formula(alloc, 1)?,
        inputs: Keys::new(alloc),
        after: Keys::new(alloc),
        block: Some((0, 1)),
    })
}

// The writer of a later version.
fn next_version(alloc: Global, version: u32) -> Result<RawTask, AllocError>
    requires first { 2 ≤ version }
    requires last { version ≤ 64 }
    ensures { IfOk result (λ task. task_of task ≡ next_version version) }
{
    Ok(RawTask {
        key: Key(10000 + u64::from(version)),
        formula: next_formula(alloc)?,
        inputs: keys_of(alloc, &[9999 + u64::from(version)])?,
        after: Keys::new(alloc),
        block: Some((0, version)),
    })
}

// The sink.
fn last_task(alloc: Global) -> Result<RawTask, AllocError>
    ensures { IfOk result (λ task. task_of task ≡ last_task) }
{
    Ok(RawTask {
        key: Key(SINK),
        formula: last_formula(alloc)?,
        inputs: keys_of(alloc, &[8192, 10064])?,
        after: Keys::new(alloc),
        block: None,
    })
}

// Puts tasks 1 to 64 behind the others.
fn put_first(alloc: Global, tasks: &mut Vec<RawTask>, number: u32) -> Result<(), AllocError>
    ensures { OnOk result (map task_of tasks.new.items ≡ map task_of tasks.old.items ++ each (first_task number) 1 64) }
{
    for key in 1..65 {
        tasks.push(first_task(alloc, number, key)?)?;
    }
    Ok(())
}

// Puts tasks 65 to 8192 behind the others.
fn put_later(alloc: Global, tasks: &mut Vec<RawTask>, draws: &mut Draws) -> Result<(), AllocError>
    ensures tasks { (number : ℕ) → draws.old.state ≡ state number 0 → OnOk result (map task_of tasks.new.items ≡ map task_of tasks.old.items ++ each (later_task number) 65 8128) }
    ensures drawn { (number : ℕ) → draws.old.state ≡ state number 0 → OnOk result (draws.new.state ≡ state number 16256) }
{
    for key in 65..8193 {
        tasks.push(later_task(alloc, draws, key)?)?;
    }
    Ok(())
}

// Puts the writers of later versions behind the others.
fn put_versions(alloc: Global, tasks: &mut Vec<RawTask>) -> Result<(), AllocError>
    ensures { OnOk result (map task_of tasks.new.items ≡ map task_of tasks.old.items ++ each next_version 2 63) }
{
    for version in 2..65 {
        tasks.push(next_version(alloc, version)?)?;
    }
    Ok(())
}

/// All tasks, in the order of their keys.
pub(crate) fn tasks(
    alloc: Global,
    number: u32,
    draws: &mut Draws,
) -> Result<Vec<RawTask>, AllocError>
    requires { draws.old.state ≡ state number 0 }
    ensures tasks { IfOk result (λ tasks. map task_of tasks.items ≡ drill_tasks number) }
    ensures drawn { OnOk result (draws.new.state ≡ state number 16256) }
{
    let mut tasks = Vec::new(alloc);
    put_first(alloc, &mut tasks, number)?;
    put_later(alloc, &mut tasks, draws)?;
    tasks.push(first_version(alloc)?)?;
    put_versions(alloc, &mut tasks)?;
    tasks.push(last_task(alloc)?)?;
    Ok(tasks)
}
