use core_state::Job;
use core_steps::{Hints, Steps};
use graph_model::Key;

/// A job that was made ready: a credit is bought, and the job is posted.
#[derive(Clone, Copy, Debug, PartialEq, Eq)]
pub struct Owe {
    row: u32,
    key: Key,
    job: Job,
    life: u32,
    bought: bool,
}

/// What the step of an `Owe` came to.
#[derive(Clone, Copy, Debug, PartialEq, Eq)]
pub enum Paid {
    Bought,
    Posted,
    /// Posted, and a job of this life stood there.
    Given { life: u32 },
}

impl Owe {
    ghost use Rattle.std.specs.Prelude.{◌≡◌, ◌≤◌, ◌<◌, ◌+◌, List, length, true, false, not, ◌&&◌, ◌==◌};
    ghost use Rattle.core_state.specs.Lines.{Line, HasLines};
    ghost use Rattle.recovery.specs.Memory.{KnowsKey, IsOnTop, MakesStep, SameResults};
    ghost use Rattle.recovery.specs.Happening.{owe_event};
    ghost use Rattle.recovery.specs.Owing.{GivenFresh, owe_lines, owe_credits, paid_lines, paid_credits, owe_hints, is_bought, is_given_life};

    /// A job that is owed, without a credit.
    pub fn new(row: u32, key: Key, job: Job, life: u32) -> Owe
        ensures { result ≡ record { row = row; key = key; job = job; life = life; bought = false } }
    {
        Owe {
            row,
            key,
            job,
            life,
            bought: false,
        }
    }

    pub fn row(&self) -> u32
        ensures { result ≡ self.now.row }
    {
        self.row
    }

    pub fn key(&self) -> Key
        ensures { result ≡ self.now.key }
    {
        self.key
    }

    pub fn job(&self) -> Job
        ensures { result ≡ self.now.job }
    {
        self.job
    }

    /// Buys a credit, or posts the job with it. Only a post changes the hints. Of a job that a post
    /// brings no strike was made.
    pub fn turn<T: Steps>(&mut self, steps: &mut T, hints: &mut Hints) -> Paid
        requires row { KnowsKey (T.setting steps.old) (T.view steps.old) self.old.row self.old.key.0 }
        requires credit { (T.view steps.old).spare ≡ owe_credits self.old }
        requires top { IsOnTop (T.setting steps.old) (T.view steps.old) (owe_lines self.old) }
        requires room { 1 ≤ T.KeyWords.spare steps.old }
        requires hints { length hints.old < 4 }
        ensures lines { (b : List Line) → HasLines (T.setting steps.old) (T.view steps.old) (owe_lines self.old b) → HasLines (T.setting steps.old) (T.view steps.new) (paid_lines result self.old b) }
        ensures credit { (T.view steps.new).spare ≡ paid_credits result }
        ensures bought { is_bought result ≡ not self.old.bought }
        ensures given { is_given_life result ≡ (self.old.bought && not ((T.shown steps.new).1 == 0)) }
        ensures fresh { GivenFresh (T.setting steps.old) (T.view steps.new) self.old result }
        ensures owe { self.new ≡ record self.old { bought = true } }
        ensures hints { hints.new ≡ owe_hints self.old hints.old }
        ensures step { MakesStep T.setting T.view T.KeyWords.made T.KeyWords.spare T.KeyWords.last T.shown T.happened T.lender T.others (owe_event (T.view steps.old) self.old) steps.old steps.new }
        ensures results { SameResults (T.view steps.old) (T.view steps.new) }
    {
        if !self.bought {
            steps.buy();
            self.bought = true;
            return Paid::Bought;
        }
        let found = steps.post(self.row, self.job, self.life);
        hints.push(self.row);
        if found == 0 {
            Paid::Posted
        } else {
            Paid::Given { life: found }
        }
    }
}
