use core_state::{Registered, Rooted, Told};
use core_steps::Steps;
use graph_model::{Cause, Key, TaskGraph};
use key_table::{Search, Sought};

/// The re-entering of the successors of a new life, from a port on.
#[derive(Clone, Copy, Debug)]
pub(crate) struct Reenter {
    port: u32,
    way: Way,
}

/// How far the successor at the port was reached.
#[derive(Clone, Copy, Debug)]
enum Way {
    Start,
    Seek { search: Search },
    Load { row: u32 },
    Register { row: u32 },
    Spend { row: u32 },
}

/// What the step of a `Reenter` met.
#[derive(Clone, Copy, Debug)]
pub(crate) enum Reached {
    Going,
    /// The last place of the successor's life was spent.
    Last {
        row: u32,
        key: Key,
        life: u32,
    },
    Mark {
        row: u32,
        key: Key,
        life: u32,
        cause: Cause,
    },
}

impl Reenter {
    ghost use Rattle.std.specs.Prelude.{◌≡◌, ◌≤◌, ◌<◌, ◌+◌, ◌-◌, ◌^◌, ◌&&◌, ◌==◌, ℕ, Contains, false};
    ghost use Rattle.core_state.specs.Words.{mark_of};
    ghost use Rattle.core_state.specs.Asked.{IsCoreKey};
    ghost use Rattle.core_state.specs.Counts.{known_key};
    ghost use Rattle.core_state.specs.Events.{Event as event};
    ghost use Rattle.key_table.specs.Seeking.{next_row};
    ghost use Rattle.recovery.specs.Happening.{way_event};
    ghost use Rattle.recovery.specs.Memory.{KnowsKey, MakesStep};
    ghost use Rattle.recovery.specs.Resting.{ReenterRests, way_rest};
    ghost use Rattle.recovery.specs.Serving.{Serves, IsPort};
    ghost use Rattle.recovery.specs.Reentering.{FitsWay, IsAbout, IsPortWork, IsSearch, MaySpend, ReachedTells, Reenters, is_mark, reads_mark};

    pub(crate) fn from(port: u32) -> Reenter
        ensures { result ≡ record { port = port; way = Way.Start } }
    {
        Reenter {
            port,
            way: Way::Start,
        }
    }

    pub(crate) fn port(&self) -> u32
        ensures { result ≡ self.now.port }
    {
        self.port
    }

    /// One step for the successors of `key` in `row`.
    pub(crate) fn turn<T: Steps, G: TaskGraph>(
        &mut self,
        steps: &mut T,
        graph: &Rooted<'_, G>,
        row: u32,
        key: Key,
    ) -> Reached
        requires serves { Serves (G.graph graph.now.graph.now) (T.setting steps.old) }
        requires key { IsCoreKey (G.graph graph.now.graph.now) key.0 }
        requires row { KnowsKey (T.setting steps.old) (T.view steps.old) row key.0 }
        requires port { self.old.port < (T.setting steps.old).graph.ports key.0 }
        requires next { self.old.port + 1 < 2 ^ 32 }
        requires way { FitsWay (T.setting steps.old) (T.view steps.old) key.0 self.old.port self.old.way }
        requires work { IsPortWork (T.setting steps.old) (T.view steps.old) key.0 self.old.port }
        requires room { 1 ≤ T.KeyWords.spare steps.old }
        ensures goes { Reenters (T.setting steps.old) (T.view steps.old) (T.view steps.new) key.0 self.old self.new result }
        ensures tells { ReachedTells (G.graph graph.now.graph.now) (T.setting steps.old) (T.view steps.new) result }
        ensures mark { is_mark result ≡ (reads_mark self.old.way && (mark_of (T.shown steps.new).1 == 1)) }
        ensures credit { (T.view steps.new).spare ≡ (T.view steps.old).spare }
        ensures step { MakesStep T.setting T.view T.KeyWords.made T.KeyWords.spare T.KeyWords.last T.shown T.happened T.lender T.others (way_event (T.setting steps.old) (T.view steps.old) row key.0 self.old.port self.old.way) steps.old steps.new }
        ensures moves { ReenterRests (T.setting steps.old).shape.rows self.old self.new result }
    {
        let (successor, place) = graph.succ(key, self.port);
        match &self.way {
            Way::Start => {
                let search = Search::find(successor, steps.rows());
                self.seek(steps, search)
            }
            Way::Seek { search } => {
                let search = *search;
                self.seek(steps, search)
            }
            Way::Load { row: at } => {
                let at = *at;
                self.load(steps, at, successor, place)
            }
            Way::Register { row: at } => {
                let at = *at;
                self.register(steps, row, key, at)
            }
            Way::Spend { row: at } => {
                let at = *at;
                let preds = graph.pred_count(successor);
                self.spend(steps, at, successor, place, preds)
            }
        }
    }

    fn leave(&mut self)
        requires { self.old.port + 1 < 2 ^ 32 }
        ensures { self.new ≡ record { port = self.old.port + 1; way = Way.Start } }
    {
        *self = Reenter::from(self.port + 1);
    }

    fn seek<T: Steps>(&mut self, steps: &mut T, mut search: Search) -> Reached
        requires search { IsSearch (T.setting steps.old) (T.view steps.old) search.key search }
        requires listed { Contains (T.setting steps.old).keys search.key }
        requires way { way_rest (T.setting steps.old).shape.rows self.old.way ≡ ((T.setting steps.old).shape.rows - search.passed) + 9 }
        requires next { self.old.port + 1 < 2 ^ 32 }
        requires room { 1 ≤ T.KeyWords.spare steps.old }
        ensures goes { (key place : ℕ) → IsPort (T.setting steps.old).graph key self.old.port search.key place → Reenters (T.setting steps.old) (T.view steps.old) (T.view steps.new) key self.old self.new result }
        ensures about { result ≡ Reached.Going }
        ensures credit { (T.view steps.new).spare ≡ (T.view steps.old).spare }
        ensures step { MakesStep T.setting T.view T.KeyWords.made T.KeyWords.spare T.KeyWords.last T.shown T.happened T.lender T.others (event.look (next_row search)) steps.old steps.new }
        ensures moves { ReenterRests (T.setting steps.old).shape.rows self.old self.new result }
    {
        match search.turn(steps) {
            Sought::Going => self.way = Way::Seek { search },
            Sought::At { row, made: _ } => self.way = Way::Load { row },
            Sought::Absent => self.leave(),
        }
        Reached::Going
    }

    fn load<T: Steps>(&mut self, steps: &mut T, at: u32, successor: Key, place: u32) -> Reached
        requires at { KnowsKey (T.setting steps.old) (T.view steps.old) at successor.0 }
        requires place { place ≤ 40 }
        requires way { self.old.way ≡ Way.Load at }
        requires next { self.old.port + 1 < 2 ^ 32 }
        requires room { 1 ≤ T.KeyWords.spare steps.old }
        ensures goes { (key : ℕ) → IsPort (T.setting steps.old).graph key self.old.port successor.0 place → Reenters (T.setting steps.old) (T.view steps.old) (T.view steps.new) key self.old self.new result }
        ensures about { IsAbout result at successor }
        ensures mark { is_mark result ≡ (mark_of (T.shown steps.new).1 == 1) }
        ensures credit { (T.view steps.new).spare ≡ (T.view steps.old).spare }
        ensures step { MakesStep T.setting T.view T.KeyWords.made T.KeyWords.spare T.KeyWords.last T.shown T.happened T.lender T.others (event.load_descriptor at (known_key at (T.view steps.old))) steps.old steps.new }
        ensures moves { ReenterRests (T.setting steps.old).shape.rows self.old self.new result }
    {
        let word = steps.load_descriptor(at);
        if word.struck {
            self.leave();
            Reached::Mark {
                row: at,
                key: successor,
                life: word.life,
                cause: Cause::Descriptor,
            }
        } else if word.has(place) {
            self.leave();
            Reached::Going
        } else {
            self.way = Way::Register { row: at };
            Reached::Going
        }
    }

    fn register<T: Steps>(&mut self, steps: &mut T, row: u32, key: Key, at: u32) -> Reached
        requires row { KnowsKey (T.setting steps.old) (T.view steps.old) row key.0 }
        requires port { self.old.port < (T.setting steps.old).graph.ports key.0 }
        requires next { self.old.port + 1 < 2 ^ 32 }
        requires way { self.old.way ≡ Way.Register at }
        requires at { KnowsKey (T.setting steps.old) (T.view steps.old) at ((T.setting steps.old).graph.succ key.0 self.old.port).task }
        requires work { IsPortWork (T.setting steps.old) (T.view steps.old) key.0 self.old.port }
        requires room { 1 ≤ T.KeyWords.spare steps.old }
        ensures goes { Reenters (T.setting steps.old) (T.view steps.old) (T.view steps.new) key.0 self.old self.new result }
        ensures about { IsAbout result row key }
        ensures mark { is_mark result ≡ (mark_of (T.shown steps.new).1 == 1) }
        ensures credit { (T.view steps.new).spare ≡ (T.view steps.old).spare }
        ensures step { MakesStep T.setting T.view T.KeyWords.made T.KeyWords.spare T.KeyWords.last T.shown T.happened T.lender T.others (event.register row (known_key row (T.view steps.old)) self.old.port) steps.old steps.new }
        ensures moves { ReenterRests (T.setting steps.old).shape.rows self.old self.new result }
    {
        match steps.register(row, self.port) {
            Registered::Waiting { life: _ } => {
                self.leave();
                Reached::Going
            }
            Registered::Closed { life: _ } => {
                self.way = Way::Spend { row: at };
                Reached::Going
            }
            Registered::Struck { life } => Reached::Mark {
                row,
                key,
                life,
                cause: Cause::Notify,
            },
        }
    }

    fn spend<T: Steps>(
        &mut self,
        steps: &mut T,
        at: u32,
        successor: Key,
        place: u32,
        preds: u32,
    ) -> Reached
        requires at { KnowsKey (T.setting steps.old) (T.view steps.old) at successor.0 }
        requires place { place < 40 }
        requires may { MaySpend (T.setting steps.old) (T.view steps.old) self.old.port successor.0 place }
        requires preds { preds ≡ (T.setting steps.old).graph.places successor.0 }
        requires next { self.old.port + 1 < 2 ^ 32 }
        requires room { 1 ≤ T.KeyWords.spare steps.old }
        ensures goes { (key : ℕ) → IsPort (T.setting steps.old).graph key self.old.port successor.0 place → Reenters (T.setting steps.old) (T.view steps.old) (T.view steps.new) key self.old self.new result }
        ensures about { IsAbout result at successor }
        ensures mark { is_mark result ≡ (mark_of (T.shown steps.new).1 == 1) }
        ensures credit { (T.view steps.new).spare ≡ (T.view steps.old).spare }
        ensures step { MakesStep T.setting T.view T.KeyWords.made T.KeyWords.spare T.KeyWords.last T.shown T.happened T.lender T.others (event.spend at (known_key at (T.view steps.old)) place) steps.old steps.new }
        ensures moves { ReenterRests (T.setting steps.old).shape.rows self.old self.new result }
    {
        let told = steps.spend(at, place, preds);
        self.leave();
        match told {
            Told::Spent { life: _ } | Told::Already { life: _ } => Reached::Going,
            Told::Last { life } => Reached::Last {
                row: at,
                key: successor,
                life,
            },
            Told::Struck { life } => Reached::Mark {
                row: at,
                key: successor,
                life,
                cause: Cause::Descriptor,
            },
        }
    }
}
