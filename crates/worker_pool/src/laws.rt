//! What a closed table comes to: the value with its records, or why there is none.
ghost use Rattle.std.specs.Prelude.{◌≡◌, IfErr, List, ℕ};
ghost use Rattle.core_state.specs.Counts.{count};
ghost use Rattle.core_state.specs.Tests.{is_computed};
ghost use Rattle.core_state.specs.Rooted.{setting_of};
ghost use Rattle.core_state.specs.declared.views.View.{View};
ghost use Rattle.graph_model.specs.Serial.{Outcome};
ghost use Rattle.graph_model.specs.declared.plan.Strike.{Strike};
ghost use Rattle.worker_pool.specs.Closing.{ClosedTells, EndedBy, LeavesPending, StopShown, WithRoot, is_whole};
ghost use Rattle.worker_pool.specs.Ends.{HasAllRecords, RunTells};
ghost use Rattle.worker_pool.specs.Joining.{HaveEnded};
ghost use Rattle.worker_pool.specs.Pooling.{StopTells};

use crate::end::Why;
use crate::pool::Stop;
use core_laws::{causes, lawful, once, played, quiet, suspected};
use core_state::{Course, ROOT};
use core_steps::Closed;
use graph_model::{Cells, Record, TaskGraph};

// All laws of a closed table.
fn laws_of<C: Course>(closed: &Closed<C>)
    ensures { ClosedTells C.setting closed.now.pending closed.now.root closed.now.records.items closed.now.root_replaced.items }
{
    quiet(closed);
    once(closed);
    causes(closed);
    lawful(closed);
    played(closed);
}

/// Why the life is suspected that ended the turns, if one did.
pub(crate) fn stop_shown<C: Course>(closed: &Closed<C>, stop: Stop)
    ensures { (vs : List View) → HaveEnded C.setting vs closed.now.words.items closed.now.blocks.items closed.now.records.items closed.now.root_replaced.items → StopTells C.setting vs stop → StopShown C.setting closed.now.records.items closed.now.root_replaced.items stop }
{
    let _ = stop;
    suspected(closed);
}

// The records of tasks with the root's replacements behind them, or that room was refused.
fn with_root(why: Why, records: Vec<Record>, root: Vec<Record>) -> (Why, Vec<Record>)
    ensures { WithRoot why records.items root.items result.0 result.1.items }
{
    let mut all = records;
    match all.extend_from_slice(root.as_slice()) {
        Ok(()) => (why, all),
        Err(_) => (Why::OutOfMemory, all),
    }
}

// Why a run ended that has no value, with its records.
fn ended_by<G: TaskGraph>(
    graph: &G,
    stop: Stop,
    pending: u64,
    records: Vec<Record>,
    root: Vec<Record>,
) -> (Why, Vec<Record>)
    ensures { EndedBy (G.graph graph.now).sink stop pending records.items root.items result.0 result.1.items }
{
    match stop {
        Stop::OutOfMemory => (Why::OutOfMemory, records),
        Stop::Over => with_root(Why::ScheduleShort { pending }, records, root),
        Stop::Spent { spent } => {
            if spent.key == ROOT {
                let why = Why::LivesSpent {
                    key: graph.sink(),
                    life: spent.life,
                    cause: spent.cause,
                };
                with_root(why, records, root)
            } else {
                let why = Why::LivesSpent {
                    key: spent.key,
                    life: spent.life,
                    cause: spent.cause,
                };
                (why, records)
            }
        }
    }
}

// Nothing is pending where the turns ended of themselves.
fn is_whole(stop: Stop, pending: u64) -> bool
    ensures { result ≡ is_whole stop pending }
{
    match stop {
        Stop::Over => pending == 0,
        Stop::OutOfMemory | Stop::Spent { spent: _ } => false,
    }
}

/// What a run comes to whose turns ended so, with its records.
pub(crate) fn ended<C: Course, G: TaskGraph>(
    graph: &G,
    stop: Stop,
    closed: Closed<C>,
) -> (Result<Cells, Why>, Vec<Record>)
    requires { StopShown C.setting closed.records.items closed.root_replaced.items stop }
    ensures tells { (outcome : Outcome) (strikes : List Strike) (lives : ℕ) → C.setting ≡ setting_of (G.graph graph.now) outcome strikes lives → RunTells (G.graph graph.now) outcome strikes lives result.0 result.1.items }
    ensures short { IfErr result.0 (λ why. LeavesPending stop closed.pending closed.records.items closed.root_replaced.items why result.1.items) }
    ensures computed { HasAllRecords result.0 → (k l : ℕ) → count (is_computed k l) result.1.items ≡ count (is_computed k l) closed.records.items }
{
    laws_of(&closed);
    let Closed {
        pending,
        stopped: _,
        root,
        records,
        root_replaced,
        words: _,
        blocks: _,
        course: _,
    } = closed;
    let whole = is_whole(stop, pending);
    match root {
        Some(value) => {
            if whole {
                return (Ok(value), records);
            }
            let (why, records) = ended_by(graph, stop, pending, records, root_replaced);
            (Err(why), records)
        }
        None => {
            let (why, records) = ended_by(graph, stop, pending, records, root_replaced);
            (Err(why), records)
        }
    }
}
