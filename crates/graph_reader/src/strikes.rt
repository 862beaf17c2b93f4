//! The strikes of a file.

ghost use Rattle.std.specs.Prelude.{◌≡◌, codes, decimal, map, IfOk, MatchResult};
ghost use Rattle.std.specs.List.Sorted.{IsNonDecreasing};
ghost use Rattle.serde_json.specs.View.{view, items_view};
ghost use Rattle.graph_reader.specs.Checks.{needed, optional, each, field};
ghost use Rattle.graph_reader.specs.Content.{number_in, strike_in, plan_in, items_in, every};
ghost use Rattle.graph_reader.specs.Faults.{Answers, within};
ghost use Rattle.graph_reader.specs.Format.{is_among, task_key_check, strike_check, strikes_check};
ghost use Rattle.raw_graph.specs.Graph.{task_of, keys_of};
ghost use Rattle.graph_reader.specs.declared.fault.TextFault.TheVariants.{OutOfMemory};

use crate::fault::{TextFault, at, at_item, missing};
use crate::fields::{number_at, point_at, target_at, word_at};
use crate::kinds;
use crate::names::{Kind, check_names, check_object};
use graph_model::{Key, Strike};
use raw_graph::{MOST_KEY, MOST_LIFE, MOST_STRIKES, RawTask};
use serde_json::Value;
use std::alloc::Global;

// The keys of the tasks.
fn keys(alloc: Global, tasks: &[RawTask]) -> Result<Vec<u64>, TextFault>
    ensures { MatchResult result (λ v. v.items ≡ keys_of (map task_of tasks.now)) (λ e. e ≡ OutOfMemory) }
{
    let mut keys = Vec::new(alloc);
    for task in tasks {
        keys.push(task.key.0)?;
    }
    Ok(keys)
}

// The keys of the tasks in ascending order.
fn sorted_keys(alloc: Global, tasks: &[RawTask]) -> Result<Vec<u64>, TextFault>
    ensures sorted { IfOk result (λ v. IsNonDecreasing v.items) }
    ensures same { MatchResult result (λ v. is_among v.items ≡ is_among (keys_of (map task_of tasks.now))) (λ e. e ≡ OutOfMemory) }
{
    let mut keys = keys(alloc, tasks)?;
    keys.sort_unstable();
    Ok(keys)
}

fn is_listed(keys: &[u64], key: u64) -> bool
    requires { IsNonDecreasing keys.now }
    ensures { result ≡ is_among keys.now key }
{
    keys.binary_search(&key).is_ok()
}

// A key of the tasks.
fn task_key(alloc: Global, value: &Value, keys: &[u64]) -> Result<Key, TextFault>
    requires { IsNonDecreasing keys.now }
    ensures { Answers (λ k. k.0) (task_key_check (is_among keys.now) (view value.now)) (number_in (view value.now)) result }
{
    let key = kinds::number(alloc, value, 0, MOST_KEY)?;
    if is_listed(keys, key) {
        Ok(Key(key))
    } else {
        Err(TextFault::shape(alloc))
    }
}

#[tactic(auto, using(crate::proofs::Parts::needed_found, crate::proofs::Parts::needed_missing))]
fn task_at(alloc: Global, value: &Value, keys: &[u64]) -> Result<Key, TextFault>
    requires { IsNonDecreasing keys.now }
    ensures { Answers (λ k. k.0) (needed (codes "task") (task_key_check (is_among keys.now)) (view value.now)) (number_in (field (codes "task") (view value.now))) result }
{
    match value.get("task") {
        Some(found) => at(alloc, "task", task_key(alloc, found, keys)),
        None => missing(alloc, "task"),
    }
}

fn strike(alloc: Global, value: &Value, keys: &[u64]) -> Result<Strike, TextFault>
    requires { IsNonDecreasing keys.now }
    ensures { Answers (λ s. s) (strike_check (is_among keys.now) (view value.now)) (strike_in (view value.now)) result }
{
    check_object(alloc, value)?;
    check_names(alloc, Kind::Strike, value)?;
    let key = task_at(alloc, value, keys)?;
    let life = number_at(alloc, value, "life", 1, MOST_LIFE)? as u32;
    let point = point_at(alloc, value)?;
    let named = target_at(alloc, value)?;
    let target = word_at(alloc, value, named)?;
    Ok(Strike {
        key,
        life,
        point,
        target,
    })
}

#[tactic(auto, using(crate::proofs::Parts::answers_at))]
fn strike_item(
    alloc: Global,
    position: usize,
    value: &Value,
    keys: &[u64],
) -> Result<Strike, TextFault>
    requires { IsNonDecreasing keys.now }
    ensures { Answers (λ s. s) (within (decimal position) (strike_check (is_among keys.now) (view value.now))) (strike_in (view value.now)) result }
{
    at_item(alloc, position, strike(alloc, value, keys))
}

fn each_strike(alloc: Global, values: &[Value], keys: &[u64]) -> Result<Vec<Strike>, TextFault>
    requires { IsNonDecreasing keys.now }
    ensures { Answers (λ v. v.items) (each (strike_check (is_among keys.now)) 0 (items_view values.now)) (every strike_in (items_view values.now)) result }
{
    let mut strikes = Vec::new(alloc);
    for (position, value) in values.iter().enumerate() {
        let strike = strike_item(alloc, position, value, keys)?;
        strikes.push(strike)?;
    }
    Ok(strikes)
}

#[tactic(auto, using(crate::proofs::Counted::too_many_strikes))]
fn strikes(alloc: Global, value: &Value, keys: &[u64]) -> Result<Vec<Strike>, TextFault>
    requires { IsNonDecreasing keys.now }
    ensures { Answers (λ v. v.items) (strikes_check (is_among keys.now) (view value.now)) (every strike_in (items_in (view value.now))) result }
{
    match value.as_array() {
        Some(items) if items.len() <= MOST_STRIKES => each_strike(alloc, items.as_slice(), keys),
        Some(_) => Err(TextFault::range(alloc)),
        None => Err(TextFault::shape(alloc)),
    }
}

#[tactic(auto, using(crate::proofs::Parts::optional_found))]
fn strikes_at(alloc: Global, value: &Value, keys: &[u64]) -> Result<Vec<Strike>, TextFault>
    requires { IsNonDecreasing keys.now }
    ensures { Answers (λ v. v.items) (optional (codes "faults") (strikes_check (is_among keys.now)) (view value.now)) (plan_in (view value.now)) result }
{
    match value.get("faults") {
        Some(found) => at(alloc, "faults", strikes(alloc, found, keys)),
        None => Ok(Vec::new(alloc)),
    }
}

/// The strikes on these tasks.
pub(crate) fn strikes_on(
    alloc: Global,
    value: &Value,
    tasks: &[RawTask],
) -> Result<Vec<Strike>, TextFault>
    ensures { Answers (λ v. v.items) (optional (codes "faults") (strikes_check (is_among (keys_of (map task_of tasks.now)))) (view value.now)) (plan_in (view value.now)) result }
{
    let keys = sorted_keys(alloc, tasks)?;
    strikes_at(alloc, value, keys.as_slice())
}
