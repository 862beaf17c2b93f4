ghost use Rattle.std.specs.Prelude.{◌≡◌, ◌==◌, ◌<◌, ◌≤◌, ℕ, List, All, length, vec_len, IfErr, OnOk};
ghost use Rattle.raw_graph.specs.declared.raw.RawTask.{RawTask};
ghost use Rattle.audit_checks.specs.Accepted.{IsAcyclic, HasOneWriter};
ghost use Rattle.audit_checks.specs.Faults.{IsFault, HasSizes, HasVersions};
ghost use Rattle.std.specs.List.{list_any};
ghost use Rattle.audit_checks.specs.Links.{places_in};
ghost use Rattle.audit_blocks.specs.Versions.{at, AreWritten, IsLast, IsOrdered, IsRising, IsWhole};
ghost use Rattle.audit_blocks.specs.Edges.{IsInTurn, TellsPlaces, names_in};

use crate::written::Written;
use audit_checks::{AuditFault, Links};

// Refuses two writers of one version.
pub fn check_once(written: &[Written]) -> Result<(), AuditFault>
    requires { IsOrdered written.now }
    ensures ok { OnOk result (IsRising written.now) }
    ensures err { IfErr result (λ e. (ts : List RawTask) (sink : ℕ) → AreWritten ts written.now → HasSizes ts sink → IsAcyclic ts → IsFault ts sink e) }
{
    for i in 1..written.len() {
        let (before, here) = (written[i - 1], written[i]);
        if before.block == here.block && before.version == here.version {
            return Err(AuditFault::VersionTwice {
                block: here.block,
                version: here.version,
            });
        }
    }
    Ok(())
}

// The version before place i in the same block, or 0.
fn last_version(written: &[Written], i: usize) -> u32
    requires inside { i < length written.now }
    requires rising { IsRising written.now }
    requires positive { All (λ w. 1 ≤ w.version) written.now }
    ensures last { IsLast written.now i result }
    ensures below { result < (at written.now i).version }
{
    if i > 0 && written[i - 1].block == written[i].block {
        written[i - 1].version
    } else {
        0
    }
}

// Refuses a version that no one writes below one that is written.
pub fn check_gaps(written: &[Written]) -> Result<(), AuditFault>
    requires rising { IsRising written.now }
    requires positive { All (λ w. 1 ≤ w.version) written.now }
    ensures ok { OnOk result (IsWhole written.now) }
    ensures err { IfErr result (λ e. (ts : List RawTask) (sink : ℕ) → AreWritten ts written.now → HasSizes ts sink → IsAcyclic ts → HasOneWriter ts → IsFault ts sink e) }
{
    for i in 0..written.len() {
        let Written { block, version, .. } = written[i];
        let last = last_version(written, i);
        let next = last + 1;
        if next < version {
            return Err(AuditFault::VersionGap {
                block,
                version: next,
            });
        }
    }
    Ok(())
}

// Whether a place of the task names a predecessor.
fn names(places: &[(u32, u32)], p: u32) -> bool
    ensures { result ≡ list_any (λ e. e.0 == p) places.now }
{
    places.iter().any(|place| place.0 == p)
}

// Whether a place of task k names task p.
pub fn names_task(links: &Links, k: u32, p: u32) -> bool
    requires { k < vec_len links.now.places }
    ensures { result ≡ names_in (places_in links.now) k p }
{
    names(links.places[k as usize].as_slice(), p)
}

// Refuses a writer that the next one does not name.
pub fn check_order(written: &[Written], links: &Links) -> Result<(), AuditFault>
    requires inside { All (λ w. w.writer < vec_len links.now.places) written.now }
    requires rising { IsRising written.now }
    requires whole { IsWhole written.now }
    ensures ok { OnOk result (IsInTurn written.now (places_in links.now)) }
    ensures err { IfErr result (λ e. (ts : List RawTask) (keys : List ℕ) (sink : ℕ) → AreWritten ts written.now → TellsPlaces ts keys (places_in links.now) → HasVersions ts sink → IsFault ts sink e) }
{
    for i in 1..written.len() {
        let (before, here) = (written[i - 1], written[i]);
        if before.block == here.block && !names_task(links, here.writer, before.writer) {
            return Err(AuditFault::VersionOrder {
                block: before.block,
                version: before.version,
            });
        }
    }
    Ok(())
}
