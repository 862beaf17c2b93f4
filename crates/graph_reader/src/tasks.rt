//! The tasks of a file.

ghost use Rattle.std.specs.Prelude.{codes, decimal, map};
ghost use Rattle.serde_json.specs.View.{view, items_view};
ghost use Rattle.graph_reader.specs.Checks.{needed, each, field};
ghost use Rattle.graph_reader.specs.Content.{task_in, tasks_in, every};
ghost use Rattle.graph_reader.specs.Faults.{Answers, within};
ghost use Rattle.graph_reader.specs.Format.{task_check, tasks_check};
ghost use Rattle.raw_graph.specs.Graph.{task_of};

use crate::fault::{TextFault, at, at_item, missing};
use crate::fields::{block_at, formula_at, key_at, keys_at};
use crate::names::{Kind, check_names, check_object};
use raw_graph::{MOST_TASKS, RawTask};
use serde_json::Value;
use std::alloc::Global;

fn task(alloc: Global, value: &Value) -> Result<RawTask, TextFault>
    ensures { Answers task_of (task_check (view value.now)) (task_in (view value.now)) result }
{
    check_object(alloc, value)?;
    check_names(alloc, Kind::Task, value)?;
    let key = key_at(alloc, value, "key")?;
    let formula = formula_at(alloc, value, key)?;
    let inputs = keys_at(alloc, value, "inputs")?;
    let after = keys_at(alloc, value, "after")?;
    let block = block_at(alloc, value)?;
    Ok(RawTask {
        key,
        formula,
        inputs,
        after,
        block,
    })
}

#[tactic(auto, using(crate::proofs::Parts::answers_at))]
fn task_item(alloc: Global, position: usize, value: &Value) -> Result<RawTask, TextFault>
    ensures { Answers task_of (within (decimal position) (task_check (view value.now))) (task_in (view value.now)) result }
{
    at_item(alloc, position, task(alloc, value))
}

fn each_task(alloc: Global, values: &[Value]) -> Result<Vec<RawTask>, TextFault>
    ensures { Answers (λ tasks. map task_of tasks.items) (each task_check 0 (items_view values.now)) (every task_in (items_view values.now)) result }
{
    let mut tasks = Vec::new(alloc);
    for (position, value) in values.iter().enumerate() {
        let task = task_item(alloc, position, value)?;
        tasks.push(task)?;
    }
    Ok(tasks)
}

fn tasks(alloc: Global, value: &Value) -> Result<Vec<RawTask>, TextFault>
    ensures { Answers (λ tasks. map task_of tasks.items) (tasks_check (view value.now)) (tasks_in (view value.now)) result }
{
    match value.as_array() {
        Some(items) if items.len() <= MOST_TASKS => each_task(alloc, items.as_slice()),
        Some(_) => Err(TextFault::TooManyTasks),
        None => Err(TextFault::shape(alloc)),
    }
}

#[tactic(auto, using(crate::proofs::Parts::needed_found, crate::proofs::Parts::needed_missing))]
pub(crate) fn tasks_at(alloc: Global, value: &Value) -> Result<Vec<RawTask>, TextFault>
    ensures { Answers (λ tasks. map task_of tasks.items) (needed (codes "tasks") tasks_check (view value.now)) (tasks_in (field (codes "tasks") (view value.now))) result }
{
    match value.get("tasks") {
        Some(found) => at(alloc, "tasks", tasks(alloc, found)),
        None => missing(alloc, "tasks"),
    }
}
