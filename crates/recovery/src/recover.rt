use crate::owe::{Owe, Paid};
use crate::reenter::{Reached, Reenter};
use crate::turn::Turn;
use core_state::{Elected, Job, Rooted};
use core_steps::{Hints, Steps};
use graph_model::{Cause, Key, TaskGraph};

/// The replacement of one life: election, renewal of the words, and the re-entering of successors.
#[derive(Clone, Copy, Debug)]
pub struct Recover {
    row: u32,
    key: Key,
    life: u32,
    cause: Cause,
    wait: bool,
    lives: u32,
    phase: Phase,
}

/// What is left of a replacement.
#[derive(Clone, Copy, Debug)]
enum Phase {
    /// An election is next.
    Suspect,
    /// So many notify words are renewed.
    Renew { done: u32 },
    /// All words are renewed.
    Finish,
    /// A job is owed before the successors behind it are entered again.
    Owe { owe: Owe, behind: Reenter },
    Reenter { reenter: Reenter },
    /// No port is left, below what was met or given.
    Passed,
    Over,
}

impl Recover {
    ghost use Rattle.std.specs.Prelude.{◌≡◌, ◌≤◌, ◌<◌, ◌+◌, ◌*◌, ◌^◌, ◌&&◌, ◌==◌, not, length, true, false};
    ghost use Rattle.core_state.specs.Words.{mark_of};
    ghost use Rattle.graph_model.specs.Graph.{Graph as Tasks};
    ghost use Rattle.core_state.specs.Asked.{IsCoreKey, InEachGraphOf};
    ghost use Rattle.core_state.specs.Graph.{Setting, greatest_life};
    ghost use Rattle.core_state.specs.Sure.{IsSure};
    ghost use Rattle.recovery.specs.Memory.{KnowsKey, IsOnTop, MakesStep, SameResults};
    ghost use Rattle.recovery.specs.Serving.{Serves};
    ghost use Rattle.recovery.specs.Reentering.{reads_mark};
    ghost use Rattle.recovery.specs.Happening.{turn_event};
    ghost use Rattle.recovery.specs.Resting.{LetsGo, Rests, recover_rest};
    ghost use Rattle.recovery.specs.Owing.{owe_credits, owe_hints};
    ghost use Rattle.recovery.specs.Recovering.{Fits, IsOnward, Recovers, SpendsLife, going, is_given, is_last, is_met, is_over, is_quiet, is_spent, makes_step, phase_credits, posts, recover_lines, sees_mark, turn_hints};

    /// The replacement of a life that a view suspects for this cause. With `wait` the end of another
    /// worker's replacement of this life is awaited, by one election after another. `lives` is the
    /// greatest life of the key.
    pub fn new(row: u32, key: Key, life: u32, cause: Cause, wait: bool, lives: u32) -> Recover
        ensures new { result ≡ record { row = row; key = key; life = life; cause = cause; wait = wait; lives = lives; phase = Phase.Suspect } }
        ensures rest { (g : Tasks) (e : Setting) → Serves g e → IsCoreKey g key.0 → 0 < e.shape.rows → recover_rest e result ≤ 20 * e.shape.rows * (e.graph.ports key.0 + 3) }
    {
        Recover {
            row,
            key,
            life,
            cause,
            wait,
            lives,
            phase: Phase::Suspect,
        }
    }

    /// Whether nothing is left to do.
    pub fn is_over(&self) -> bool
        ensures { result ≡ is_over self.now.phase }
    {
        match &self.phase {
            Phase::Passed | Phase::Over => true,
            Phase::Suspect
            | Phase::Renew { done: _ }
            | Phase::Finish
            | Phase::Owe { owe: _, behind: _ }
            | Phase::Reenter { reenter: _ } => false,
        }
    }

    // Goes on with what is left.
    fn go(&mut self, phase: Phase) -> Turn
        ensures turn { result ≡ going phase }
        ensures same { self.new ≡ record self.old { phase = phase } }
    {
        self.phase = phase;
        match &self.phase {
            Phase::Over => Turn::Done,
            Phase::Suspect
            | Phase::Renew { done: _ }
            | Phase::Finish
            | Phase::Owe { owe: _, behind: _ }
            | Phase::Reenter { reenter: _ }
            | Phase::Passed => Turn::Going,
        }
    }

    fn elect<T: Steps>(&mut self, steps: &mut T) -> Turn
        requires phase { self.old.phase ≡ Phase.Suspect }
        requires row { KnowsKey (T.setting steps.old) (T.view steps.old) self.old.row self.old.key.0 }
        requires life { self.old.life < self.old.lives }
        requires lives { self.old.lives ≡ greatest_life (T.setting steps.old) self.old.key.0 }
        requires top { IsOnTop (T.setting steps.old) (T.view steps.old) (recover_lines (T.setting steps.old).graph self.old) }
        requires credit { (T.view steps.old).spare ≡ 0 }
        requires room { 1 ≤ T.KeyWords.spare steps.old }
        ensures goes { (g : Tasks) → Fits g (T.setting steps.old) (T.view steps.old) self.old → Recovers g (T.setting steps.old) (T.view steps.old) (T.view steps.new) self.old self.new result }
        ensures quiet { is_quiet result ≡ true }
        ensures step { MakesStep T.setting T.view T.KeyWords.made T.KeyWords.spare T.KeyWords.last T.shown T.happened T.lender T.others (turn_event (T.setting steps.old) (T.view steps.old) self.old) steps.old steps.new }
        ensures rest { Rests (T.setting steps.old) self.old self.new result (T.shown steps.new).1 }
        ensures lost { LetsGo self.old self.new (T.shown steps.new).1 }
    {
        match steps.elect(self.row, self.life, self.cause) {
            Elected::Yes => self.go(Phase::Renew { done: 0 }),
            Elected::Replaced { life: _ } => self.go(Phase::Over),
            Elected::Renewing { life } => {
                if life < self.life {
                    self.go(Phase::Suspect)
                } else if self.wait {
                    // the next election asks whether it has ended
                    self.go(Phase::Suspect)
                } else {
                    self.go(Phase::Over)
                }
            }
        }
    }

    fn renew<T: Steps, G: TaskGraph>(
        &mut self,
        steps: &mut T,
        graph: &Rooted<'_, G>,
        done: u32,
    ) -> Turn
        requires phase { self.old.phase ≡ Phase.Renew done }
        requires serves { Serves (G.graph graph.now.graph.now) (T.setting steps.old) }
        requires fits { Fits (G.graph graph.now.graph.now) (T.setting steps.old) (T.view steps.old) self.old }
        requires top { IsOnTop (T.setting steps.old) (T.view steps.old) (recover_lines (T.setting steps.old).graph self.old) }
        requires credit { (T.view steps.old).spare ≡ 0 }
        ensures goes { Recovers (G.graph graph.now.graph.now) (T.setting steps.old) (T.view steps.old) (T.view steps.new) self.old self.new result }
        ensures quiet { is_quiet result ≡ true }
        ensures step { MakesStep T.setting T.view T.KeyWords.made T.KeyWords.spare T.KeyWords.last T.shown T.happened T.lender T.others (turn_event (T.setting steps.old) (T.view steps.old) self.old) steps.old steps.new }
        ensures rest { Rests (T.setting steps.old) self.old self.new result (T.shown steps.new).1 }
    {
        if done < graph.notify_words(self.key) {
            steps.renew_notify(self.row, done);
            self.go(Phase::Renew { done: done + 1 })
        } else {
            steps.renew_descriptor(self.row);
            self.go(Phase::Finish)
        }
    }

    fn finish<T: Steps>(&mut self, steps: &mut T) -> Turn
        requires phase { self.old.phase ≡ Phase.Finish }
        requires row { KnowsKey (T.setting steps.old) (T.view steps.old) self.old.row self.old.key.0 }
        requires life { self.old.life < self.old.lives }
        requires top { IsOnTop (T.setting steps.old) (T.view steps.old) (recover_lines (T.setting steps.old).graph self.old) }
        requires credit { (T.view steps.old).spare ≡ 0 }
        ensures goes { (g : Tasks) → Fits g (T.setting steps.old) (T.view steps.old) self.old → Recovers g (T.setting steps.old) (T.view steps.old) (T.view steps.new) self.old self.new result }
        ensures quiet { is_quiet result ≡ true }
        ensures step { MakesStep T.setting T.view T.KeyWords.made T.KeyWords.spare T.KeyWords.last T.shown T.happened T.lender T.others (turn_event (T.setting steps.old) (T.view steps.old) self.old) steps.old steps.new }
        ensures rest { Rests (T.setting steps.old) self.old self.new result (T.shown steps.new).1 }
    {
        steps.finish(self.row);
        let owe = Owe::new(self.row, self.key, Job::Explore, self.life + 1);
        let behind = Reenter::from(0);
        self.go(Phase::Owe { owe, behind })
    }

    // The re-entering from here on where its port is there, and else this end.
    fn onward<G: TaskGraph>(&self, graph: &Rooted<'_, G>, reenter: Reenter, end: Phase) -> Phase
        requires { IsCoreKey (G.graph graph.now.graph.now) self.now.key.0 }
        ensures { InEachGraphOf (G.graph graph.now.graph.now) (λ r. IsOnward (r.ports self.now.key.0) reenter end result) }
    {
        if reenter.port() < graph.succ_count(self.key) {
            Phase::Reenter { reenter }
        } else {
            end
        }
    }

    fn pay<T: Steps, G: TaskGraph>(
        &mut self,
        steps: &mut T,
        graph: &Rooted<'_, G>,
        hints: &mut Hints,
        mut owe: Owe,
        behind: Reenter,
    ) -> Turn
        requires phase { self.old.phase ≡ Phase.Owe owe behind }
        requires serves { Serves (G.graph graph.now.graph.now) (T.setting steps.old) }
        requires fits { Fits (G.graph graph.now.graph.now) (T.setting steps.old) (T.view steps.old) self.old }
        requires top { IsOnTop (T.setting steps.old) (T.view steps.old) (recover_lines (T.setting steps.old).graph self.old) }
        requires credit { (T.view steps.old).spare ≡ owe_credits owe }
        requires room { 1 ≤ T.KeyWords.spare steps.old }
        requires hints { length hints.old < 4 }
        ensures goes { Recovers (G.graph graph.now.graph.now) (T.setting steps.old) (T.view steps.old) (T.view steps.new) self.old self.new result }
        ensures spent { is_spent result ≡ false }
        ensures met { is_met result ≡ false }
        ensures given { is_given result ≡ (owe.bought && not ((T.shown steps.new).1 == 0)) }
        ensures hints { hints.new ≡ owe_hints owe hints.old }
        ensures step { MakesStep T.setting T.view T.KeyWords.made T.KeyWords.spare T.KeyWords.last T.shown T.happened T.lender T.others (turn_event (T.setting steps.old) (T.view steps.old) self.old) steps.old steps.new }
        ensures rest { Rests (T.setting steps.old) self.old self.new result (T.shown steps.new).1 }
    {
        match owe.turn(steps, hints) {
            Paid::Bought => self.go(Phase::Owe { owe, behind }),
            Paid::Posted => {
                let next = self.onward(graph, behind, Phase::Over);
                self.go(next)
            }
            Paid::Given { life } => {
                self.phase = self.onward(graph, behind, Phase::Passed);
                Turn::Given {
                    row: owe.row(),
                    key: owe.key(),
                    job: owe.job(),
                    life,
                }
            }
        }
    }

    fn reenter<T: Steps, G: TaskGraph>(
        &mut self,
        steps: &mut T,
        graph: &Rooted<'_, G>,
        mut reenter: Reenter,
    ) -> Turn
        requires phase { self.old.phase ≡ Phase.Reenter reenter }
        requires serves { Serves (G.graph graph.now.graph.now) (T.setting steps.old) }
        requires fits { Fits (G.graph graph.now.graph.now) (T.setting steps.old) (T.view steps.old) self.old }
        requires top { IsOnTop (T.setting steps.old) (T.view steps.old) (recover_lines (T.setting steps.old).graph self.old) }
        requires credit { (T.view steps.old).spare ≡ 0 }
        requires room { 1 ≤ T.KeyWords.spare steps.old }
        ensures goes { Recovers (G.graph graph.now.graph.now) (T.setting steps.old) (T.view steps.old) (T.view steps.new) self.old self.new result }
        ensures spent { is_spent result ≡ false }
        ensures given { is_given result ≡ false }
        ensures met { is_met result ≡ (reads_mark reenter.way && (mark_of (T.shown steps.new).1 == 1)) }
        ensures step { MakesStep T.setting T.view T.KeyWords.made T.KeyWords.spare T.KeyWords.last T.shown T.happened T.lender T.others (turn_event (T.setting steps.old) (T.view steps.old) self.old) steps.old steps.new }
        ensures rest { Rests (T.setting steps.old) self.old self.new result (T.shown steps.new).1 }
    {
        match reenter.turn(steps, graph, self.row, self.key) {
            Reached::Going => {
                let next = self.onward(graph, reenter, Phase::Over);
                self.go(next)
            }
            Reached::Last { row, key, life } => {
                let owe = Owe::new(row, key, Job::Compute, life);
                self.go(Phase::Owe {
                    owe,
                    behind: reenter,
                })
            }
            Reached::Mark {
                row,
                key,
                life,
                cause,
            } => {
                self.phase = self.onward(graph, reenter, Phase::Passed);
                Turn::Met {
                    row,
                    key,
                    life,
                    cause,
                }
            }
        }
    }

    /// At most one step, of the event that the phase names. The seat's view knows what this rests on,
    /// and its first lines are those of this replacement. A turn that goes on lets the rest fall, or
    /// its election met a life that is being replaced.
    pub fn turn<T: Steps, G: TaskGraph>(
        &mut self,
        steps: &mut T,
        graph: &G,
        hints: &mut Hints,
    ) -> Turn
        requires serves { Serves (G.graph graph.now) (T.setting steps.old) }
        requires fits { Fits (G.graph graph.now) (T.setting steps.old) (T.view steps.old) self.old }
        requires sure { IsSure (T.setting steps.old) (T.view steps.old) }
        requires top { IsOnTop (T.setting steps.old) (T.view steps.old) (recover_lines (T.setting steps.old).graph self.old) }
        requires credit { (T.view steps.old).spare ≡ phase_credits self.old.phase }
        requires room { 1 ≤ T.KeyWords.spare steps.old }
        requires hints { length hints.old ≤ 2 }
        ensures goes { Recovers (G.graph graph.now) (T.setting steps.old) (T.view steps.old) (T.view steps.new) self.old self.new result }
        ensures spent { is_spent result ≡ is_last self.old.phase self.old.life self.old.lives }
        ensures life { SpendsLife result self.old }
        ensures met { is_met result ≡ (sees_mark self.old.phase && (mark_of (T.shown steps.new).1 == 1)) }
        ensures given { is_given result ≡ (posts self.old.phase && not ((T.shown steps.new).1 == 0)) }
        ensures hints { hints.new ≡ turn_hints self.old.phase hints.old }
        ensures step { makes_step self.old ≡ true → MakesStep T.setting T.view T.KeyWords.made T.KeyWords.spare T.KeyWords.last T.shown T.happened T.lender T.others (turn_event (T.setting steps.old) (T.view steps.old) self.old) steps.old steps.new }
        ensures still { makes_step self.old ≡ false → steps.new ≡ steps.old }
        ensures results { SameResults (T.view steps.old) (T.view steps.new) }
        ensures rest { Rests (T.setting steps.old) self.old self.new result (T.shown steps.new).1 }
        ensures lost { self.old.phase ≡ Phase.Suspect → makes_step self.old ≡ true → LetsGo self.old self.new (T.shown steps.new).1 }
    {
        let rooted = Rooted::of(graph);
        match &self.phase {
            Phase::Suspect => {
                if self.life == self.lives {
                    Turn::LivesSpent {
                        key: self.key,
                        life: self.life,
                        cause: self.cause,
                    }
                } else {
                    self.elect(steps)
                }
            }
            Phase::Renew { done } => {
                let done = *done;
                self.renew(steps, &rooted, done)
            }
            Phase::Finish => self.finish(steps),
            Phase::Owe { owe, behind } => {
                let owe = *owe;
                let behind = *behind;
                self.pay(steps, &rooted, hints, owe, behind)
            }
            Phase::Reenter { reenter } => {
                let reenter = *reenter;
                self.reenter(steps, &rooted, reenter)
            }
            Phase::Passed => self.go(Phase::Over),
            Phase::Over => Turn::Done,
        }
    }
}
