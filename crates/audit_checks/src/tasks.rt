ghost use Rattle.std.specs.Prelude.{◌≡◌, ◌<◌, length, slice_index};
ghost use Rattle.audit_checks.specs.Tasks.{places_of};

use raw_graph::RawTask;

// How many predecessors a task has.
pub fn place_count(task: &RawTask) -> usize
    ensures { result ≡ length (places_of task.now) }
{
    task.inputs.as_slice().len() + task.after.as_slice().len()
}

// The key at place j.
pub fn place(task: &RawTask, j: usize) -> u64
    requires { j < length (places_of task.now) }
    ensures { result ≡ slice_index (places_of task.now) j }
{
    let inputs = task.inputs.as_slice();
    if j < inputs.len() {
        inputs[j]
    } else {
        task.after.as_slice()[j - inputs.len()]
    }
}
