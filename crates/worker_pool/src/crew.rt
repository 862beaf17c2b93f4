//! What the threads of a run see of each other: hints to steal, and who sleeps.

use crossbeam_deque::{Stealer, Worker as Deque};
use crossbeam_utils::Backoff;
use crossbeam_utils::atomic::AtomicCell;
use crossbeam_utils::sync::{Parker, Unparker};
use std::alloc::{AllocError, Global};
use std::sync::Wait;

/// How often in a row a worker looks for a hint in vain before it sleeps.
const LOOKS: u32 = 64;

/// All workers of a run, each by its number.
#[derive(Drop)]
pub(crate) struct Crew {
    pub stealers: Vec<Stealer<u32>>,
    wakers: Vec<Unparker>,
    // A bit for each worker that sleeps, or is about to.
    asleep: AtomicCell<u64>,
}

/// How long a worker has looked for a hint in vain, and what it sleeps on then.
#[derive(Drop)]
pub(crate) struct Rest {
    parker: Parker,
    backoff: Backoff,
    looks: u32,
}

fn bit_of(number: usize) -> u64 {
    1u64.wrapping_shl((number % 64) as u32)
}

impl Crew {
    /// Nobody yet, with room for so many.
    pub(crate) fn new(alloc: Global, count: usize) -> Result<Crew, AllocError> {
        Ok(Crew {
            stealers: Vec::with_capacity(alloc, count)?,
            wakers: Vec::with_capacity(alloc, count)?,
            asleep: AtomicCell::new(0u64),
        })
    }

    /// The next worker, whose hints lie in this deque.
    pub(crate) fn add(&mut self, alloc: Global, deque: &Deque<u32>) -> Result<Rest, AllocError> {
        let parker = Parker::new(alloc)?;
        self.stealers.push(deque.stealer()?)?;
        self.wakers.push(parker.unparker().clone()?)?;
        Ok(Rest {
            parker,
            backoff: Backoff::new(),
            looks: 0,
        })
    }

    /// Whether a worker sleeps or is about to, as seen a moment ago.
    pub(crate) fn has_sleeper(&self) -> bool {
        self.asleep.load() != 0
    }

    /// Wakes a worker that sleeps, if one does.
    pub(crate) fn wake_one(&self) {
        let asleep = self.asleep.load();
        if asleep == 0 {
            return;
        }
        let number = asleep.trailing_zeros() as usize;
        let bit = bit_of(number);
        // Of two who would wake the same worker one does.
        if self.asleep.fetch_and(!bit) & bit == 0 {
            return;
        }
        if let Some(waker) = self.wakers.get(number) {
            waker.unpark();
        }
    }

    /// Wakes all. Who is about to sleep does not, but looks again.
    pub(crate) fn wake_all(&self) {
        for waker in self.wakers.iter() {
            waker.unpark();
        }
    }
}

impl Rest {
    /// Waits a little: longer from time to time, then until it is woken. A worker says that it will sleep, and looks
    /// once more before it does, so that it sees what came up before it could be woken.
    pub(crate) fn wait<R: Wait>(&mut self, rt: &R, crew: &Crew, number: usize) {
        if self.looks < LOOKS {
            self.backoff.snooze();
        } else if self.looks == LOOKS {
            crew.asleep.fetch_or(bit_of(number));
        } else {
            self.parker.park(rt);
            self.end(crew, number);
            return;
        }
        self.looks += 1;
    }

    /// The worker is awake, and has something to do or will look again.
    pub(crate) fn end(&mut self, crew: &Crew, number: usize) {
        if self.looks > LOOKS {
            crew.asleep.fetch_and(!bit_of(number));
        }
        self.looks = 0;
        self.backoff.reset();
    }
}
