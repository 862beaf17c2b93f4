ghost use Rattle.std.specs.Prelude.{◌≡◌, ◌<◌, ◌≤◌, ℕ, length, map, slice_index, slice_index_or, vec_len, IfErr, IfOk, OnOk};
ghost use Rattle.raw_graph.specs.declared.raw.RawTask.{RawTask};
ghost use Rattle.audit_checks.specs.Accepted.{NamesTasks, HasFewPlaces, IsAcyclic, HasOneWriter, HasAllVersions, HasOrderedWriters, HasReadersBefore};
ghost use Rattle.audit_checks.specs.ByKey.{IsReverseByKey, number_in, row_by};
ghost use Rattle.audit_checks.specs.Faults.{IsFault, HasSizes};
ghost use Rattle.audit_checks.specs.Links.{Tells, places_in, succs_in};
ghost use Rattle.audit_checks.specs.Rows.{row};
ghost use Rattle.audit_checks.specs.Tasks.{IsAscending, keys_of, places_of};
ghost use Rattle.audit_blocks.specs.Edges.{TellsPlaces};
ghost use Rattle.audit_blocks.specs.Laws.{HasBlockLaws};
ghost use Rattle.audit_blocks.specs.Numbering.{AreNumbered};
ghost use Rattle.audit_blocks.specs.Versions.{AreWritten, HasFileVersions, IsOrdered};

use crate::numbering::{Blocks, numbered_blocks};
use crate::readers::check_readers;
use crate::versions::{check_gaps, check_once, check_order};
use crate::written::{Written, written_in};
use audit_checks::{AuditFault, Links};
use raw_graph::RawTask;
use std::alloc::Global;

// Refuses versions that are not in order, by the first kind of fault.
fn check_versions(
    alloc: Global,
    tasks: &[RawTask],
    written: &[Written],
    links: &Links,
) -> Result<(), AuditFault>
    requires few { length tasks.now ≤ 16384 }
    requires given { HasFileVersions tasks.now }
    requires written { AreWritten tasks.now written.now }
    requires ordered { IsOrdered written.now }
    requires tells { TellsPlaces tasks.now (keys_of tasks.now) (places_in links.now) }
    ensures once { OnOk result (HasOneWriter tasks.now) }
    ensures whole { OnOk result (HasAllVersions tasks.now) }
    ensures ordered { OnOk result (HasOrderedWriters tasks.now) }
    ensures read { OnOk result (HasReadersBefore tasks.now) }
    ensures err { IfErr result (λ e. (sink : ℕ) → HasSizes tasks.now sink → IsAcyclic tasks.now → IsFault tasks.now sink e) }
{
    check_once(written)?;
    check_gaps(written)?;
    check_order(written, links)?;
    check_readers(alloc, tasks, written, links)?;
    Ok(())
}

/// Where the tasks write, after the refusals of versions. The tasks come in ascending order of their keys, with
/// their edges.
pub fn blocks_of(
    alloc: Global,
    keys: &[u64],
    tasks: &[RawTask],
    links: &Links,
) -> Result<Blocks, AuditFault>
    requires keys { keys_of tasks.now ≡ keys.now }
    requires ascending { IsAscending keys.now }
    requires known { NamesTasks tasks.now }
    requires few { HasFewPlaces tasks.now }
    requires tasks { length tasks.now ≤ 16384 }
    requires versions { HasFileVersions tasks.now }
    requires places_len { vec_len links.now.places ≡ length tasks.now }
    requires succs_len { vec_len links.now.succs ≡ length tasks.now }
    requires named { (i : ℕ) (d : RawTask) → i < length tasks.now → Tells keys.now (places_of (slice_index_or tasks.now i d)) (row (places_in links.now) i) }
    requires reverse { IsReverseByKey keys.now (row_by keys.now (places_in links.now)) (row_by keys.now (succs_in links.now)) }
    ensures once { OnOk result (HasOneWriter tasks.now) }
    ensures whole { OnOk result (HasAllVersions tasks.now) }
    ensures ordered { OnOk result (HasOrderedWriters tasks.now) }
    ensures read { OnOk result (HasReadersBefore tasks.now) }
    ensures err { IfErr result (λ e. (sink : ℕ) → HasSizes tasks.now sink → IsAcyclic tasks.now → IsFault tasks.now sink e) }
    ensures numbered { IfOk result (λ b. AreNumbered tasks.now b.places.items b.count) }
    ensures laws { IfOk result (λ b. HasBlockLaws keys.now b.places.items b.count (row_by keys.now (places_in links.now)) (row_by keys.now (succs_in links.now)) (λ k. slice_index (map (λ t. length t.inputs) tasks.now) (number_in keys.now k))) }
{
    let Ok(written) = written_in(alloc, tasks) else {
        return Err(AuditFault::OutOfMemory);
    };
    check_versions(alloc, tasks, written.as_slice(), links)?;
    let Ok(blocks) = numbered_blocks(alloc, tasks, written.as_slice()) else {
        return Err(AuditFault::OutOfMemory);
    };
    Ok(blocks)
}
