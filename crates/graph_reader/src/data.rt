//! A graph and a plan as a JSON value.

ghost use Rattle.std.specs.Prelude.{◌≡◌, IfOk, map};
ghost use Rattle.serde_json.specs.Data.{string, array};
ghost use Rattle.serde_json.specs.View.{view, items_of};
ghost use Rattle.formula_text.specs.Formulas.{tree};
ghost use Rattle.formula_text.specs.Writing.{text_of};
ghost use Rattle.raw_graph.specs.Graph.{task_of, file_with};
ghost use Rattle.graph_reader.specs.Written.{keys_data, task_data, point_name, strike_data, file_data};

use formula_text::Formula;
use graph_model::{FaultPlan, Point, Strike, Target};
use raw_graph::{RawGraph, RawTask};
use serde_json::{Value, json};
use std::alloc::{AllocError, Global};

fn keys_value(alloc: Global, keys: &[u64]) -> Result<Value, AllocError>
    ensures { IfOk result (λ v. view v ≡ keys_data keys.now) }
{
    let mut items = Vec::new(alloc);
    for key in keys {
        items.push(Value::from(*key))?;
    }
    Ok(Value::from(items))
}

fn formula_value(alloc: Global, formula: &Formula) -> Result<Value, AllocError>
    ensures { IfOk result (λ v. view v ≡ string (text_of (tree formula.now))) }
{
    let text = formula.write(alloc)?;
    // A written formula is ASCII.
    Ok(Value::from(String::from_utf8(text.into_vec()).unwrap()))
}

fn task_value(alloc: Global, task: &RawTask) -> Result<Value, AllocError>
    ensures { IfOk result (λ v. view v ≡ task_data (task_of task.now)) }
{
    let formula = formula_value(alloc, &task.formula)?;
    let inputs = keys_value(alloc, task.inputs.as_slice())?;
    let after = keys_value(alloc, task.after.as_slice())?;
    match task.block {
        None => {
            json!(in alloc; {"after": after, "formula": formula, "inputs": inputs, "key": task.key.0})
        }
        Some((name, version)) => {
            json!(in alloc; {"after": after, "block": [name, version], "formula": formula, "inputs": inputs, "key": task.key.0})
        }
    }
}

fn point_name(point: Point) -> &'static str
    ensures { result.now ≡ point_name point }
{
    match point {
        Point::Explored => "explored",
        Point::Ready => "ready",
        Point::Computed => "computed",
        Point::Notified => "notified",
    }
}

fn strike_value(alloc: Global, strike: Strike) -> Result<Value, AllocError>
    ensures { IfOk result (λ v. view v ≡ strike_data strike) }
{
    let point = point_name(strike.point);
    match strike.target {
        Target::Descriptor => {
            json!(in alloc; {"life": strike.life, "point": point, "target": "descriptor", "task": strike.key.0})
        }
        Target::Notify { word } => {
            json!(in alloc; {"life": strike.life, "point": point, "target": "notify", "task": strike.key.0, "word": word})
        }
        Target::Block => {
            json!(in alloc; {"life": strike.life, "point": point, "target": "block", "task": strike.key.0})
        }
    }
}

fn tasks_value(alloc: Global, tasks: &[RawTask]) -> Result<Value, AllocError>
    ensures { IfOk result (λ v. view v ≡ array (items_of (map task_data (map task_of tasks.now)))) }
{
    let mut items = Vec::new(alloc);
    for task in tasks {
        items.push(task_value(alloc, task)?)?;
    }
    Ok(Value::from(items))
}

fn plan_value(alloc: Global, plan: &FaultPlan) -> Result<Value, AllocError>
    ensures { IfOk result (λ v. view v ≡ array (items_of (map strike_data plan.now))) }
{
    let mut items = Vec::new(alloc);
    for i in 0..plan.len() {
        items.push(strike_value(alloc, plan.get(i))?)?;
    }
    Ok(Value::from(items))
}

/// The whole.
pub(crate) fn file_value(
    alloc: Global,
    raw: &RawGraph,
    plan: &FaultPlan,
) -> Result<Value, AllocError>
    ensures { IfOk result (λ v. view v ≡ file_data (file_with raw.now plan.now)) }
{
    let faults = plan_value(alloc, plan)?;
    let tasks = tasks_value(alloc, raw.tasks.as_slice())?;
    json!(in alloc; {"faults": faults, "sink": raw.sink.0, "tasks": tasks, "version": 1u64})
}
