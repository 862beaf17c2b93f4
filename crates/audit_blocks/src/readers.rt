ghost use Rattle.std.specs.Prelude.{◌≡◌, ◌<◌, ◌≤◌, ℕ, All, MatchOption, None, Some, length, replicate, slice_get, vec_len, IfErr, IfOk, OnOk};
ghost use Rattle.raw_graph.specs.declared.raw.RawTask.{RawTask};
ghost use Rattle.audit_checks.specs.Accepted.{HasOrderedWriters, HasReadersBefore};
ghost use Rattle.audit_checks.specs.Faults.{IsFault, HasVersions};
ghost use Rattle.audit_checks.specs.Links.{places_in};
ghost use Rattle.audit_checks.specs.Rows.{row};
ghost use Rattle.audit_checks.specs.Tasks.{keys_of};
ghost use Rattle.audit_blocks.specs.Versions.{AreWritten, IsRising, IsWhole};
ghost use Rattle.audit_blocks.specs.Edges.{TellsPlaces};
ghost use Rattle.audit_blocks.specs.Readers.{HasOwnWriters, AreNexts, AreInside, IsLateAt, IsLateTo, IsLeastOf, lesser_of, IsFirstOf, sooner_of};

use crate::versions::names_task;
use crate::written::Written;
use audit_checks::{AuditFault, Links};
use raw_graph::RawTask;
use std::alloc::{AllocError, Global};

/// A task, and a reader of the version that it overwrites. Both are numbers.
#[derive(Clone, Copy)]
struct Late {
    writer: u32,
    reader: u32,
}

// No writer, so many times.
fn no_writers(alloc: Global, count: usize) -> Result<Vec<Option<u32>>, AllocError>
    ensures { IfOk result (λ nexts. nexts.items ≡ replicate count None) }
{
    let mut nexts = Vec::new(alloc);
    for _ in 0..count {
        nexts.push(None)?;
    }
    Ok(nexts)
}

// By task: the writer of the version after the one that it writes.
fn next_writers(
    alloc: Global,
    written: &[Written],
    count: usize,
) -> Result<Vec<Option<u32>>, AllocError>
    requires inside { All (λ w. w.writer < count) written.now }
    requires own { HasOwnWriters written.now }
    ensures nexts { IfOk result (λ nexts. AreNexts written.now (length written.now) nexts.items) }
    ensures len { IfOk result (λ nexts. vec_len nexts ≡ count) }
{
    let mut nexts = no_writers(alloc, count)?;
    for i in 1..written.len() {
        let (before, here) = (written[i - 1], written[i]);
        if before.block == here.block {
            nexts[before.writer as usize] = Some(here.writer);
        }
    }
    Ok(nexts)
}

// The task that overwrites what place j of task r reads, if it is another and does not name r.
fn overwriter(links: &Links, nexts: &[Option<u32>], r: u32, j: usize) -> Option<u32>
    requires reader { r < vec_len links.now.places }
    requires place { j < length (row (places_in links.now) r) }
    requires inside { AreInside (places_in links.now) nexts.now }
    ensures { MatchOption result ((w : ℕ) → ¬ IsLateAt (places_in links.now) nexts.now r j w) (λ w. IsLateAt (places_in links.now) nexts.now r j w) }
{
    let (p, _) = links.places[r as usize][j];
    let Some(w) = nexts[p as usize] else {
        return None;
    };
    if w == r || names_task(links, w, r) {
        return None;
    }
    Some(w)
}

// The lesser number that is there.
fn lesser(a: Option<u32>, b: Option<u32>) -> Option<u32>
    ensures { result ≡ lesser_of a b }
{
    match (a, b) {
        (Some(x), Some(y)) => Some(x.min(y)),
        (Some(x), None) => Some(x),
        (None, _) => b,
    }
}

// The least task that overwrites an input of task r, and does not name r.
fn late_writer(task: &RawTask, links: &Links, nexts: &[Option<u32>], r: u32) -> Option<u32>
    requires reader { r < vec_len links.now.places }
    requires places { length task.now.inputs ≤ length (row (places_in links.now) r) }
    requires inside { AreInside (places_in links.now) nexts.now }
    ensures { IsLeastOf (IsLateTo (places_in links.now) nexts.now r (length task.now.inputs)) result }
{
    let mut least = None;
    for j in 0..task.inputs.len() {
        let late = overwriter(links, nexts, r, j);
        least = lesser(least, late);
    }
    least
}

// The first of what is known and of a reader that comes after, if it is late.
fn sooner(first: Option<Late>, writer: Option<u32>, reader: u32) -> Option<Late>
    ensures { result ≡ sooner_of first writer reader }
{
    let Some(writer) = writer else {
        return first;
    };
    let Some(late) = first else {
        return Some(Late { writer, reader });
    };
    if writer < late.writer {
        Some(Late { writer, reader })
    } else {
        Some(late)
    }
}

// The least writer with a late reader, and its least one.
fn first_late(tasks: &[RawTask], links: &Links, nexts: &[Option<u32>]) -> Option<Late>
    requires few { length tasks.now ≤ 16384 }
    requires long { vec_len links.now.places ≡ length tasks.now }
    requires places { (i : ℕ) (t : RawTask) → slice_get tasks.now i ≡ Some t → length t.inputs ≤ length (row (places_in links.now) i) }
    requires inside { AreInside (places_in links.now) nexts.now }
    ensures { IsFirstOf tasks.now (places_in links.now) nexts.now (length tasks.now) result }
{
    let mut first = None;
    for r in 0..tasks.len() {
        let task = &tasks[r];
        let writer = late_writer(task, links, nexts, r as u32);
        first = sooner(first, writer, r as u32);
    }
    first
}

// Refuses a reader that the task that overwrites does not name.
pub fn check_readers(
    alloc: Global,
    tasks: &[RawTask],
    written: &[Written],
    links: &Links,
) -> Result<(), AuditFault>
    requires few { length tasks.now ≤ 16384 }
    requires written { AreWritten tasks.now written.now }
    requires rising { IsRising written.now }
    requires whole { IsWhole written.now }
    requires tells { TellsPlaces tasks.now (keys_of tasks.now) (places_in links.now) }
    ensures ok { OnOk result (HasReadersBefore tasks.now) }
    ensures err { IfErr result (λ e. (sink : ℕ) → HasVersions tasks.now sink → HasOrderedWriters tasks.now → IsFault tasks.now sink e) }
{
    let Ok(nexts) = next_writers(alloc, written, tasks.len()) else {
        return Err(AuditFault::OutOfMemory);
    };
    let Some(late) = first_late(tasks, links, nexts.as_slice()) else {
        return Ok(());
    };
    let reader = &tasks[late.reader as usize];
    let writer = &tasks[late.writer as usize];
    Err(AuditFault::ReaderNotBefore {
        reader: reader.key,
        writer: writer.key,
    })
}
