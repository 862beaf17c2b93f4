ghost use Rattle.std.specs.Prelude.{◌≡◌, length, MatchOption, All, Contains, OnOk, IfErr, ℕ, List};
ghost use Rattle.std.specs.List.Sorted.{IsNonDecreasing};
ghost use Rattle.audit_checks.specs.Tasks.{IsAscending, keys_of, places_of};
ghost use Rattle.audit_checks.specs.Accepted.{NamesTasks};
ghost use Rattle.audit_checks.specs.Faults.{IsFault, IsFirstUnknown};

use crate::fault::AuditFault;
use crate::index::KeyIndex;
use crate::tasks::{place, place_count};
use graph_model::Key;
use raw_graph::RawTask;

// Refuses two tasks with one key.
pub fn check_keys(keys: &[u64], tasks: &[RawTask]) -> Result<(), AuditFault>
    requires keys { keys_of tasks.now ≡ keys.now }
    requires sorted { IsNonDecreasing keys.now }
    ensures ok { OnOk result (IsAscending keys.now) }
    ensures err { IfErr result (λ e. (sink : ℕ) → IsFault tasks.now sink e) }
{
    for i in 1..keys.len() {
        if keys[i - 1] == keys[i] {
            return Err(AuditFault::DuplicateKey { key: Key(keys[i]) });
        }
    }
    Ok(())
}

// The first place of a task that names none of the tasks.
fn first_unknown(keys: &[u64], index: &KeyIndex, task: &RawTask) -> Option<u64>
    requires { IsAscending keys.now }
    ensures { MatchOption result (All (Contains keys.now) (places_of task.now)) (λ name. IsFirstUnknown keys.now (places_of task.now) name) }
{
    for j in 0..place_count(task) {
        let name = place(task, j);
        match index.find(keys, name) {
            Some(_) => {}
            None => return Some(name),
        }
    }
    None
}

// Refuses a place that names no task.
pub fn check_names(keys: &[u64], index: &KeyIndex, tasks: &[RawTask]) -> Result<(), AuditFault>
    requires keys { keys_of tasks.now ≡ keys.now }
    requires ascending { IsAscending keys.now }
    ensures ok { OnOk result (NamesTasks tasks.now) }
    ensures err { IfErr result (λ e. (sink : ℕ) → IsFault tasks.now sink e) }
{
    for task in tasks {
        if let Some(name) = first_unknown(keys, index, task) {
            return Err(AuditFault::UnknownKey {
                task: task.key,
                key: Key(name),
            });
        }
    }
    Ok(())
}
