ghost use Rattle.std.specs.Prelude.{◌≡◌, ◌<◌, ◌≤◌, Contains, IfOk, MatchOption, Some, length, slice_get, slice_index, ⊤};
ghost use Rattle.audit_checks.specs.Tasks.{IsAscending};
ghost use Rattle.audit_blocks.specs.Versions.{AreWritten, IsOrdered};
ghost use Rattle.audit_blocks.specs.Names.{AreNamesTo};
ghost use Rattle.audit_blocks.specs.Numbering.{AreNumbered, HasPlace};

use crate::written::Written;
use graph_model::Place;
use raw_graph::RawTask;
use std::alloc::{AllocError, Global};

/// Where each task writes, by number, and how many blocks there are.
#[derive(Drop)]
pub struct Blocks {
    pub places: Vec<Place>,
    pub count: u32,
}

// The names of the stated blocks, ascending and each once.
fn block_names(alloc: Global, written: &[Written]) -> Result<Vec<u32>, AllocError>
    requires { IsOrdered written.now }
    ensures { IfOk result (λ names. AreNamesTo written.now (length written.now) names.items) }
{
    let mut names = Vec::new(alloc);
    for i in 0..written.len() {
        let here = written[i];
        if i == 0 || written[i - 1].block != here.block {
            names.push(here.block)?;
        }
    }
    Ok(names)
}

// Where a name stands.
fn find_name(names: &[u32], name: u32) -> Option<usize>
    requires { IsAscending names.now }
    ensures { MatchOption result (¬ Contains names.now name) (λ i. (i < length names.now) × (slice_index names.now i ≡ name)) }
{
    match names.binary_search(&name) {
        Ok(i) => Some(i),
        Err(_) => None,
    }
}

// The number of a stated block.
fn number_of_name(names: &[u32], name: u32) -> u32
    requires ascending { IsAscending names.now }
    requires known { Contains names.now name }
    requires few { length names.now ≤ 16384 }
    ensures { slice_get names.now result ≡ Some name }
{
    find_name(names, name).unwrap() as u32
}

// Where a task writes. A block of its own is the next one.
fn place_of(names: &[u32], task: &RawTask, next: u32) -> Place
    requires ascending { IsAscending names.now }
    requires known { MatchOption task.now.block ⊤ (λ w. Contains names.now w.0) }
    requires few { length names.now ≤ 16384 }
    ensures { HasPlace names.now next task.now.block result }
{
    match task.block {
        Some((name, version)) => Place {
            block: number_of_name(names, name),
            version,
        },
        None => Place {
            block: next,
            version: 1,
        },
    }
}

/// Where each task writes: the stated blocks by name, then the tasks' own by key.
pub fn numbered_blocks(
    alloc: Global,
    tasks: &[RawTask],
    written: &[Written],
) -> Result<Blocks, AllocError>
    requires few { length tasks.now ≤ 16384 }
    requires written { AreWritten tasks.now written.now }
    requires ordered { IsOrdered written.now }
    ensures { IfOk result (λ b. AreNumbered tasks.now b.places.items b.count) }
{
    let names = block_names(alloc, written)?;
    let mut count = names.len() as u32;
    let mut places = Vec::new(alloc);
    for i in 0..tasks.len() {
        let task = &tasks[i];
        let place = place_of(names.as_slice(), task, count);
        places.push(place)?;
        if task.block.is_none() {
            count += 1;
        }
    }
    Ok(Blocks { places, count })
}
