//! On what terms a graph is run by workers.

ghost use Rattle.std.specs.Prelude.{◌≡◌, ◌≢◌, ◌≤◌, [], length, false, MatchOption, None};
ghost use Rattle.command_words.specs.Meaning.{asked};
ghost use Rattle.run_bounds.specs.Budgets.{all_places, enough_turns};
ghost use Rattle.graph_runner.specs.Terms.{HasTerms, ample_turns, by_workers, turn_count};

use command_words::Command;
use graph_model::{FaultPlan, TaskGraph};

/// How workers come to do their work.
#[derive(Clone, Copy, Debug)]
pub(crate) enum Pace<'a> {
    /// Each has a thread.
    Threads,
    /// The workers of the schedule take a turn, in their order, over and over, so often or as often as the schedule, the
    /// plan and the graph decide.
    Turns {
        schedule: &'a [u32],
        turns: Option<u64>,
    },
}

/// How a graph is run by workers.
#[derive(Clone, Copy, Debug)]
pub(crate) struct Terms<'a> {
    pub workers: u32,
    /// The greatest life that a task may have.
    pub lives: u32,
    pub pace: Pace<'a>,
    /// Whether the records are printed.
    pub detail: bool,
}

// The greatest life where the words don't say it.
const LIVES: u32 = 65_535;

/// The terms of a command that is run by workers.
pub(crate) fn terms_of<'a>(command: &'a Command) -> Option<Terms<'a>>
    ensures { MatchOption result (by_workers (asked command.entry.now) ≡ false) (HasTerms (asked command.entry.now)) }
{
    match command {
        Command::Run {
            workers,
            lives,
            records,
        } => Some(Terms {
            workers: *workers,
            lives: *lives,
            pace: Pace::Threads,
            detail: *records,
        }),
        Command::Replay {
            workers,
            lives,
            records,
            schedule,
            turns,
        } => Some(Terms {
            workers: *workers,
            lives: *lives,
            pace: Pace::Turns {
                schedule: schedule.as_slice(),
                turns: *turns,
            },
            detail: *records,
        }),
        Command::Paths { workers, lives } => Some(Terms {
            workers: *workers,
            lives: *lives,
            pace: Pace::Threads,
            detail: false,
        }),
        Command::Drill { number: _, workers } => Some(Terms {
            workers: *workers,
            lives: LIVES,
            pace: Pace::Threads,
            detail: false,
        }),
        Command::Check => None,
        Command::Print => None,
    }
}

// How many predecessor places all tasks have together.
fn place_count<G: TaskGraph>(graph: &G) -> u32
    ensures count { result ≡ all_places (G.graph graph.now) }
    ensures few { result ≤ 41943040 }
{
    let mut count = 0;
    for i in 0..graph.task_count() {
        count += graph.pred_count(graph.task(i));
    }
    count
}

fn ample_turns(schedule: u32, strikes: u32, tasks: u32, places: u32) -> u64
    requires schedule { schedule ≤ 4096 }
    requires strikes { strikes ≤ 4096 }
    requires tasks { tasks ≤ 1048576 }
    requires places { places ≤ 41943040 }
    ensures { result ≡ ample_turns schedule strikes tasks places }
{
    let rounds = 200 * u128::from(schedule) * (2 * u128::from(strikes) + 1);
    let room = u128::from(places) + u128::from(tasks) + 2;
    let turns = rounds * (u128::from(tasks) + 1) * room * room;
    turns.max(1_000_000).min(u128::from(u64::MAX)) as u64
}

/// How many turns a run of this graph with this schedule and plan may take.
pub(crate) fn turns_for<G: TaskGraph>(
    turns: Option<u64>,
    schedule: &[u32],
    graph: &G,
    plan: &FaultPlan,
) -> u64
    requires { length schedule.now ≤ 4096 }
    ensures count { result ≡ turn_count turns (length schedule.now) (length plan.now) (length (G.graph graph.now).keys) (all_places (G.graph graph.now)) }
    ensures enough { turns ≡ None → schedule.now ≢ [] → enough_turns (G.graph graph.now) ≤ result }
{
    match turns {
        Some(turns) => turns,
        None => ample_turns(
            schedule.len() as u32,
            plan.len(),
            graph.task_count(),
            place_count(graph),
        ),
    }
}
