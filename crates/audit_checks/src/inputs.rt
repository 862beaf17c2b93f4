ghost use Rattle.std.specs.Prelude.{◌≡◌, ◌<◌, ◌≤◌, ℕ, length, IfErr, OnOk};
ghost use Rattle.audit_checks.specs.Tasks.{IsAscending, keys_of};
ghost use Rattle.audit_checks.specs.Accepted.{HasGivenInputs, HasOrderedWriters, HasReadersBefore};
ghost use Rattle.audit_checks.specs.Faults.{IsFault, HasVersions};

use crate::fault::AuditFault;
use raw_graph::RawTask;

// Refuses a formula that uses an input that is not given.
pub fn check_inputs(tasks: &[RawTask]) -> Result<(), AuditFault>
    requires { IsAscending (keys_of tasks.now) }
    ensures ok { OnOk result (HasGivenInputs tasks.now) }
    ensures err { IfErr result (λ e. (sink : ℕ) → HasVersions tasks.now sink → HasOrderedWriters tasks.now → HasReadersBefore tasks.now → IsFault tasks.now sink e) }
{
    for task in tasks {
        let given = task.inputs.len();
        if let Some(input) = task.formula.least_input_from(given) {
            return Err(AuditFault::InputCount {
                task: task.key,
                input,
            });
        }
    }
    Ok(())
}
