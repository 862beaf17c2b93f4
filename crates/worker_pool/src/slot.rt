//! What one thread of a run has.
ghost use Rattle.std.specs.Prelude.{◌≡◌, ◌<◌, All, ℕ};
ghost use Rattle.worker_pool.specs.Threads.{SameStation, either_ending, stop_of};

use crate::crew::{Crew, Rest};
use crate::pool::Stop;
use crate::worker::{Spent, Worker};
use core_state::Course;
use core_steps::Hints;
use crossbeam_deque::{Steal, Worker as Deque};
use task_table::Pass;

/// How a worker ended.
#[derive(Clone, Copy, Debug)]
pub(crate) enum Ending {
    /// It saw that nothing is pending.
    Over,
    /// It saw that another worker stopped the table.
    Stopped,
    /// Room was refused. A block may be in hand.
    Refused,
    Spent { spent: Spent },
}

/// Where the hints of a worker lie that does not yet work.
#[derive(Drop)]
pub(crate) struct Rack {
    pub deque: Deque<u32>,
    pub posted: Hints,
    pub rest: Rest,
    pub number: usize,
}

/// A worker with the hints that others may steal, the newest last.
#[derive(Drop)]
pub(crate) struct Station {
    pub worker: Worker,
    pub deque: Deque<u32>,
    pub posted: Hints,
    pub rest: Rest,
    pub number: usize,
}

/// What one thread has for itself.
#[derive(Drop)]
pub(crate) struct Slot<C: Course, Ke> {
    pub pass: Option<Pass<C>>,
    pub station: Station,
    pub kernel: Ke,
    pub ending: Ending,
}

impl Ending {
    /// Of how two workers ended, what the run ends by: the first that holds of a refusal, a spent life and a stop.
    pub(crate) fn or(self, other: Ending) -> Ending
        ensures { result ≡ either_ending self other }
    {
        match self {
            Ending::Over => other,
            Ending::Refused => Ending::Refused,
            Ending::Stopped => match other {
                Ending::Over => Ending::Stopped,
                Ending::Stopped | Ending::Refused | Ending::Spent { spent: _ } => other,
            },
            Ending::Spent { spent } => match other {
                Ending::Refused => Ending::Refused,
                Ending::Over | Ending::Stopped | Ending::Spent { spent: _ } => {
                    Ending::Spent { spent }
                }
            },
        }
    }

    /// What ended the turns of a run that ends so, or None where a pass may have a block in hand.
    pub(crate) fn stop(self) -> Option<Stop>
        ensures { result ≡ stop_of self }
    {
        match self {
            Ending::Refused => None,
            Ending::Spent { spent } => Some(Stop::Spent { spent }),
            Ending::Stopped => Some(Stop::OutOfMemory),
            Ending::Over => Some(Stop::Over),
        }
    }
}

impl Station {
    /// The newest hint of its own, or else the oldest one of the next worker in order that has one.
    pub(crate) fn hint(&mut self, crew: &Crew) -> Option<u32>
        ensures same { SameStation self.old self.new }
    {
        if let Some(row) = self.worker.newest_hint() {
            return Some(row);
        }
        if let Some(row) = self.deque.pop() {
            return Some(row);
        }
        let count = crew.stealers.len();
        for i in 1..count {
            if let Steal::Success(row) = crew.stealers[(self.number % count + i) % count].steal() {
                return Some(row);
            }
        }
        None
    }

    /// Lets others steal the hints that the worker keeps, and wakes one of them where there are more than the one
    /// that it takes itself.
    pub(crate) fn share(&mut self, crew: &Crew)
        ensures same { SameStation self.old self.new }
    {
        self.put_out();
        if crew.has_sleeper() && self.deque.len() > 1 {
            crew.wake_one();
        }
    }

    // Moves the hints that the worker keeps to its deque. Those that it refuses are kept.
    fn put_out(&mut self)
        ensures same { SameStation self.old self.new }
    {
        for _ in 0..self.worker.hints.len() {
            let Some(row) = self.worker.oldest_hint() else {
                return;
            };
            if self.deque.push(row).is_err() {
                self.worker.keep_oldest(row);
                return;
            }
        }
    }
}
