ghost use Rattle.std.specs.Prelude.{◌≡◌, ◌≢◌, ◌+◌, ◌*◌, ◌<◌, ◌≤◌, ◌-◌, ◌^◌, ◌∷◌, ◌++◌, [], ℕ, length, vec_len, slice_set, slice_index, slice_index_or, count_by, ◌==◌, IfOk, OnOk, All};
ghost use Rattle.raw_graph.specs.declared.raw.RawTask.{RawTask};
ghost use Rattle.audit_checks.specs.Tasks.{IsAscending, keys_of, places_of, edge_count};
ghost use Rattle.audit_checks.specs.Accepted.{NamesTasks, HasFewPlaces};
ghost use Rattle.audit_checks.specs.Rows.{row};
ghost use Rattle.audit_checks.specs.ByKey.{IsReverseByKey, row_by};
ghost use Rattle.audit_checks.specs.Links.{Reverse, HasFewPorts, Tells, places_in, succs_in};
ghost use Rattle.audit_checks.specs.Ports.{AreAscending, StandBefore};

use crate::index::KeyIndex;
use crate::rows::{empty_rows, push_at};
use crate::tasks::{place, place_count};
use raw_graph::RawTask;
use std::alloc::{AllocError, Global};

/// The edges from both ends. Tasks are named by their numbers.
#[derive(Drop)]
pub struct Links {
    /// By task and place: the predecessor, and the port there.
    pub places: Vec<Vec<(u32, u32)>>,
    /// By task and port: the successor, and its place.
    pub succs: Vec<Vec<(u32, u32)>>,
}

// Place j of task k names task p.
fn add_edge(links: &mut Links, k: u32, j: u32, p: u32) -> Result<(), AllocError>
    requires task { k < vec_len links.old.places }
    requires pred { p < vec_len links.old.succs }
    requires place { j ≡ length (row (places_in links.old) k) }
    requires few { HasFewPorts (2 ^ 32 - 1) links.old }
    requires reverse { Reverse links.old }
    ensures places { OnOk result (places_in links.new ≡ slice_set (places_in links.old) k (row (places_in links.old) k ++ (p, length (row (succs_in links.old) p)) ∷ [])) }
    ensures succs { OnOk result (succs_in links.new ≡ slice_set (succs_in links.old) p (row (succs_in links.old) p ++ (k, j) ∷ [])) }
    ensures places_len { vec_len links.new.places ≡ vec_len links.old.places }
    ensures succs_len { vec_len links.new.succs ≡ vec_len links.old.succs }
    ensures reverse { OnOk result (Reverse links.new) }
{
    let port = links.succs[p as usize].len() as u32;
    push_at(&mut links.succs, p as usize, (k, j))?;
    push_at(&mut links.places, k as usize, (p, port))?;
    Ok(())
}

// The places of task k.
fn add_task(
    links: &mut Links,
    keys: &[u64],
    index: &KeyIndex,
    tasks: &[RawTask],
    k: u32,
) -> Result<(), AllocError>
    requires task { k < length tasks.now }
    requires places_len { vec_len links.old.places ≡ length tasks.now }
    requires succs_len { vec_len links.old.succs ≡ length tasks.now }
    requires keys { keys_of tasks.now ≡ keys.now }
    requires ascending { IsAscending keys.now }
    requires known { NamesTasks tasks.now }
    requires places { HasFewPlaces tasks.now }
    requires tasks { length tasks.now ≤ 16384 }
    requires few { HasFewPorts (40 * k) links.old }
    requires empty { row (places_in links.old) k ≡ [] }
    requires reverse { Reverse links.old }
    requires stand { StandBefore (succs_in links.old) k 0 }
    ensures places_len { vec_len links.new.places ≡ vec_len links.old.places }
    ensures succs_len { vec_len links.new.succs ≡ vec_len links.old.succs }
    ensures few { OnOk result (HasFewPorts (40 * (k + 1)) links.new) }
    ensures here { OnOk result ((d : RawTask) → Tells keys.now (places_of (slice_index_or tasks.now k d)) (row (places_in links.new) k)) }
    ensures rest { OnOk result ((i : ℕ) → i ≢ k → row (places_in links.new) i ≡ row (places_in links.old) i) }
    ensures counted { OnOk result ((r : ℕ) (d : RawTask) → r < length keys.now → length (row (succs_in links.new) r) ≡ length (row (succs_in links.old) r) + count_by (λ p. p == slice_index keys.now r) (places_of (slice_index_or tasks.now k d))) }
    ensures reverse { OnOk result (Reverse links.new) }
    ensures stand { OnOk result (StandBefore (succs_in links.new) (k + 1) 0) }
{
    let task = &tasks[k as usize];
    for j in 0..place_count(task) {
        let p = index.number_of(keys, place(task, j));
        add_edge(links, k, j as u32, p as u32)?;
    }
    Ok(())
}

/// The edges of these tasks.
pub fn links_of(
    alloc: Global,
    keys: &[u64],
    index: &KeyIndex,
    tasks: &[RawTask],
) -> Result<Links, AllocError>
    requires keys { keys_of tasks.now ≡ keys.now }
    requires ascending { IsAscending keys.now }
    requires known { NamesTasks tasks.now }
    requires few { HasFewPlaces tasks.now }
    requires tasks { length tasks.now ≤ 16384 }
    ensures places_len { IfOk result (λ links. vec_len links.places ≡ length tasks.now) }
    ensures succs_len { IfOk result (λ links. vec_len links.succs ≡ length tasks.now) }
    ensures named { IfOk result (λ links. (i : ℕ) (d : RawTask) → i < length tasks.now → Tells keys.now (places_of (slice_index_or tasks.now i d)) (row (places_in links) i)) }
    ensures counted { IfOk result (λ links. (r : ℕ) → r < length keys.now → length (row (succs_in links) r) ≡ edge_count tasks.now (slice_index keys.now r)) }
    ensures mirror { IfOk result (λ links. Reverse links) }
    ensures reverse { IfOk result (λ links. IsReverseByKey keys.now (row_by keys.now (places_in links)) (row_by keys.now (succs_in links))) }
    // In ascending order of the successor's key, and then of the place there.
    ensures ascending { IfOk result (λ links. (k : ℕ) → AreAscending (row_by keys.now (succs_in links) k)) }
{
    let mut links = Links {
        places: empty_rows(alloc, tasks.len())?,
        succs: empty_rows(alloc, tasks.len())?,
    };
    for k in 0..tasks.len() {
        add_task(&mut links, keys, index, tasks, k as u32)?;
    }
    Ok(links)
}
