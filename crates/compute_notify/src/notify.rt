ghost use Rattle.std.specs.Prelude.{None, Some, ℕ, ◌+◌, ◌-◌, ◌<◌, ◌==◌, ◌≡◌, ◌≢◌, ◌≤◌, false, true};
ghost use Rattle.compute_notify.specs.Eventing.{notify_event};
ghost use Rattle.compute_notify.specs.Items.{Goes, Stands, first_port, item_lines, next_ports, notified_after, notify_of};
ghost use Rattle.compute_notify.specs.Resting.{LetsFall, after_rest, item_rest, notify_way_rest};
ghost use Rattle.compute_notify.specs.Rooms.{is_plain};
ghost use Rattle.compute_notify.specs.Running.{Runs};
ghost use Rattle.compute_notify.specs.Stepping.{HasStepped};
ghost use Rattle.key_table.specs.Seeking.{next_row};
ghost use Rattle.recovery.specs.Memory.{Remembers};
ghost use Rattle.recovery.specs.Reentering.{IsSearch};
ghost use Rattle.core_state.specs.Events.{Event as event};

use crate::item::{After, Came, Item};
use crate::run::Terms;
use core_state::{PORTS_PER_WORD, Rooted, Told};
use core_steps::Steps;
use graph_model::{Key, TaskGraph};
use key_table::{Search, Sought};

/// Telling the ports of a closed word, the lowest first.
#[derive(Clone, Copy, Debug)]
pub(crate) struct Notify {
    key: Key,
    life: u32,
    word: u32,
    // The bits of the ports that are left.
    ports: u64,
    way: Way,
}

/// How far the successor at the lowest port was reached.
#[derive(Clone, Copy, Debug)]
pub(crate) enum Way {
    Start,
    Seek { search: Search },
    Spend { row: u32 },
}

/// What a turn of a notification came to. It is small, since most turns only go on.
#[derive(Clone, Copy, Debug)]
pub(crate) enum Notified {
    /// The notification goes on at its lowest port.
    On { way: Way },
    /// The place of the successor there was spent, and the other ports are left.
    Spent { row: u32, key: Key, told: Told },
}

impl Notify {
    /// What a closed word with these ports brings.
    pub(crate) fn of(key: Key, life: u32, word: u32, ports: u64) -> Notify
        ensures { result ≡ notify_of key life word ports }
    {
        Notify {
            key,
            life,
            word,
            ports,
            way: Way::Start,
        }
    }

    /// Whether no port is left.
    pub(crate) fn is_over(&self) -> bool
        ensures { result ≡ (self.now.ports == 0) }
    {
        self.ports == 0
    }

    // The lowest port that is left.
    fn port(&self) -> u32
        requires some { self.now.ports ≢ 0 }
        requires low { self.now.word < 17 }
        ensures { result ≡ first_port self.now }
    {
        self.word * PORTS_PER_WORD + self.ports.trailing_zeros()
    }

    // The notification that a turn has left at its port.
    #[inline(always)]
    fn on(self, way: Way) -> Notify
        ensures { result ≡ record self { way = way } }
    {
        Notify { way, ..self }
    }

    // The notification of the ports behind the lowest.
    #[inline(always)]
    fn behind(self) -> Notify
        requires some { self.ports ≢ 0 }
        ensures { result ≡ notify_of self.key self.life self.word (next_ports self.ports) }
    {
        Notify::of(
            self.key,
            self.life,
            self.word,
            self.ports & (self.ports - 1),
        )
    }

    /// What a turn left and brought.
    pub(crate) fn after(&self, told: Notified, lives: u32) -> After
        requires some { self.now.ports ≢ 0 }
        ensures { result ≡ notified_after self.now lives told }
    {
        match told {
            Notified::On { way } => After::stays(Item::Notify {
                notify: self.on(way),
            }),
            Notified::Spent { row, key, told } => After::over(
                Item::Notify {
                    notify: self.behind(),
                },
                Came::told(told, row, key, lives),
            ),
        }
    }

    /// Changes the notification, if its turn brought nothing.
    #[inline(always)]
    pub(crate) fn keep(&mut self, told: &Notified) -> bool
        requires some { self.old.ports ≢ 0 }
        ensures kept { result ≡ true → (lives : ℕ) → notified_after self.old lives told.now ≡ record { left = Some (Item.Notify self.new); came = Came.Nothing } }
        ensures same { result ≡ false → self.new ≡ self.old }
    {
        match *told {
            Notified::On { way } => {
                self.way = way;
                true
            }
            Notified::Spent {
                row: _,
                key: _,
                told: Told::Spent { life: _ } | Told::Already { life: _ },
            } => {
                *self = self.behind();
                true
            }
            _ => false,
        }
    }

    /// One look for the successor at the lowest port, or the spending of its place.
    #[inline(never)]
    pub(crate) fn turn<T: Steps, G: TaskGraph>(
        self,
        steps: &mut T,
        terms: &Terms<'_, G>,
    ) -> Notified
        requires runs { Runs (G.graph terms.now.graph.now) terms.now.plan.now terms.now.lives (T.setting steps.old) }
        requires stands { Stands (G.graph terms.now.graph.now) (T.setting steps.old) (T.view steps.old) (Item.Notify self) }
        requires left { self.ports ≢ 0 }
        requires room { 1 ≤ T.KeyWords.spare steps.old }
        ensures goes { Goes (G.graph terms.now.graph.now) (T.setting steps.old) (T.view steps.old) (T.view steps.new) (item_lines (T.setting steps.old).graph (Item.Notify self)) (notified_after self terms.now.lives result) }
        ensures plain { is_plain (notified_after self terms.now.lives result) ≡ true }
        ensures knows { Remembers (T.view steps.old) (T.view steps.new) }
        ensures step { HasStepped T.setting T.view T.KeyWords.made T.KeyWords.spare T.KeyWords.last T.shown T.happened T.lender T.others (λ v. v) (notify_event (T.setting steps.old) (T.view steps.old) self self.way) steps.old steps.new }
        ensures rest { LetsFall (T.setting steps.old) terms.now.plan.now (notify_event (T.setting steps.old) (T.view steps.old) self self.way) (T.shown steps.new).1 (item_rest (T.setting steps.old) terms.now.plan.now None (Item.Notify self)) (after_rest (T.setting steps.old) terms.now.plan.now None (notified_after self terms.now.lives result)) }
    {
        let graph = Rooted::of(terms.graph);
        let (successor, place) = graph.succ(self.key, self.port());
        match &self.way {
            Way::Start => {
                let search = Search::find(successor, steps.rows());
                self.seek(steps, terms, search)
            }
            Way::Seek { search } => {
                let search = *search;
                self.seek(steps, terms, search)
            }
            Way::Spend { row } => {
                let row = *row;
                let told = steps.spend(row, place, graph.pred_count(successor));
                Notified::Spent {
                    row,
                    key: successor,
                    told,
                }
            }
        }
    }

    fn seek<T: Steps, G: TaskGraph>(
        self,
        steps: &mut T,
        terms: &Terms<'_, G>,
        mut search: Search,
    ) -> Notified
        requires runs { Runs (G.graph terms.now.graph.now) terms.now.plan.now terms.now.lives (T.setting steps.old) }
        requires stands { Stands (G.graph terms.now.graph.now) (T.setting steps.old) (T.view steps.old) (Item.Notify self) }
        requires left { self.ports ≢ 0 }
        requires search { IsSearch (T.setting steps.old) (T.view steps.old) ((T.setting steps.old).graph.succ self.key.0 (first_port self)).task search }
        requires way { notify_way_rest (T.setting steps.old).shape.rows self.way ≡ ((T.setting steps.old).shape.rows - search.passed) + 7 }
        requires room { 1 ≤ T.KeyWords.spare steps.old }
        ensures goes { Goes (G.graph terms.now.graph.now) (T.setting steps.old) (T.view steps.old) (T.view steps.new) (item_lines (T.setting steps.old).graph (Item.Notify self)) (notified_after self terms.now.lives result) }
        ensures plain { is_plain (notified_after self terms.now.lives result) ≡ true }
        ensures knows { Remembers (T.view steps.old) (T.view steps.new) }
        ensures step { HasStepped T.setting T.view T.KeyWords.made T.KeyWords.spare T.KeyWords.last T.shown T.happened T.lender T.others (λ v. v) (event.look (next_row search)) steps.old steps.new }
        ensures rest { LetsFall (T.setting steps.old) terms.now.plan.now (event.look (next_row search)) (T.shown steps.new).1 (item_rest (T.setting steps.old) terms.now.plan.now None (Item.Notify self)) (after_rest (T.setting steps.old) terms.now.plan.now None (notified_after self terms.now.lives result)) }
    {
        match search.turn(steps) {
            Sought::Going => Notified::On {
                way: Way::Seek { search },
            },
            Sought::At { row, made: _ } => Notified::On {
                way: Way::Spend { row },
            },
            Sought::Absent => unreachable!(),
        }
    }
}
