ghost use Rattle.std.specs.Prelude.{None, Some, false, ◌+◌, ◌-◌, ◌≡◌, ◌≤◌, true};
ghost use Rattle.compute_notify.specs.Eventing.{look_event};
ghost use Rattle.compute_notify.specs.Items.{Goes, Stands, item_lines, replaces};
ghost use Rattle.compute_notify.specs.Resting.{LetsFall, after_rest, item_rest, look_way_rest};
ghost use Rattle.compute_notify.specs.Rooms.{is_plain};
ghost use Rattle.compute_notify.specs.Running.{Runs};
ghost use Rattle.compute_notify.specs.Stepping.{HasStepped};
ghost use Rattle.core_state.specs.Asked.{IsCoreKey};
ghost use Rattle.key_table.specs.Seeking.{next_row};
ghost use Rattle.recovery.specs.Memory.{Remembers};
ghost use Rattle.recovery.specs.Reentering.{IsSearch};
ghost use Rattle.core_state.specs.Events.{Event as event};

use crate::duty::Duty;
use crate::item::{After, Came, Item};
use crate::run::{Terms, greatest_life};
use core_state::{PORTS_PER_WORD, Rooted};
use core_steps::Steps;
use graph_model::{Cause, Edge, TaskGraph};
use key_table::{Search, Sought};
use recovery::Recover;

/// A life that read a bad block: the writer is looked at before the life is replaced.
#[derive(Clone, Copy, Debug)]
pub(crate) struct Look {
    duty: Duty,
    cause: Cause,
    input: u32,
    way: Way,
}

/// How far the writer was reached.
#[derive(Clone, Copy, Debug)]
enum Way {
    Start,
    Seek { search: Search },
    Load { row: u32 },
}

impl Look {
    pub(crate) fn of(duty: Duty, cause: Cause, input: u32) -> Look
        ensures { result ≡ record { duty = duty; cause = cause; input = input; way = Way.Start } }
    {
        Look {
            duty,
            cause,
            input,
            way: Way::Start,
        }
    }

    fn on(self, way: Way) -> After
        ensures { result ≡ record { left = Some (Item.Look (record self { way = way })); came = Came.Nothing } }
    {
        After::stays(Item::Look {
            look: Look { way, ..self },
        })
    }

    /// One look for the writer, or the load of the notify word at which it would have been waited for.
    #[inline(never)]
    pub(crate) fn turn<T: Steps, G: TaskGraph>(self, steps: &mut T, terms: &Terms<'_, G>) -> After
        requires runs { Runs (G.graph terms.now.graph.now) terms.now.plan.now terms.now.lives (T.setting steps.old) }
        requires stands { Stands (G.graph terms.now.graph.now) (T.setting steps.old) (T.view steps.old) (Item.Look self) }
        requires room { 1 ≤ T.KeyWords.spare steps.old }
        ensures goes { Goes (G.graph terms.now.graph.now) (T.setting steps.old) (T.view steps.old) (T.view steps.new) (item_lines (T.setting steps.old).graph (Item.Look self)) result }
        ensures plain { is_plain result ≡ true }
        ensures knows { Remembers (T.view steps.old) (T.view steps.new) }
        ensures step { HasStepped T.setting T.view T.KeyWords.made T.KeyWords.spare T.KeyWords.last T.shown T.happened T.lender T.others (λ v. v) (look_event (T.setting steps.old) (T.view steps.old) self self.way) steps.old steps.new }
        ensures rest { LetsFall (T.setting steps.old) terms.now.plan.now (look_event (T.setting steps.old) (T.view steps.old) self self.way) (T.shown steps.new).1 (item_rest (T.setting steps.old) terms.now.plan.now None (Item.Look self)) (after_rest (T.setting steps.old) terms.now.plan.now None result) }
    {
        let edge = Rooted::of(terms.graph).pred(self.duty.key, self.input);
        match &self.way {
            Way::Start => {
                let search = Search::find(edge.key, steps.rows());
                self.seek(steps, terms, search)
            }
            Way::Seek { search } => {
                let search = *search;
                self.seek(steps, terms, search)
            }
            Way::Load { row } => {
                let row = *row;
                self.load(steps, terms, row, edge)
            }
        }
    }

    fn seek<T: Steps, G: TaskGraph>(
        self,
        steps: &mut T,
        terms: &Terms<'_, G>,
        mut search: Search,
    ) -> After
        requires runs { Runs (G.graph terms.now.graph.now) terms.now.plan.now terms.now.lives (T.setting steps.old) }
        requires stands { Stands (G.graph terms.now.graph.now) (T.setting steps.old) (T.view steps.old) (Item.Look self) }
        requires search { IsSearch (T.setting steps.old) (T.view steps.old) ((T.setting steps.old).graph.pred self.duty.key.0 self.input).task search }
        requires key { IsCoreKey (G.graph terms.now.graph.now) ((T.setting steps.old).graph.pred self.duty.key.0 self.input).task }
        requires way { look_way_rest (T.setting steps.old).shape.rows self.way ≡ ((T.setting steps.old).shape.rows - search.passed) + 1 }
        requires room { 1 ≤ T.KeyWords.spare steps.old }
        ensures goes { Goes (G.graph terms.now.graph.now) (T.setting steps.old) (T.view steps.old) (T.view steps.new) (item_lines (T.setting steps.old).graph (Item.Look self)) result }
        ensures plain { is_plain result ≡ true }
        ensures knows { Remembers (T.view steps.old) (T.view steps.new) }
        ensures step { HasStepped T.setting T.view T.KeyWords.made T.KeyWords.spare T.KeyWords.last T.shown T.happened T.lender T.others (λ v. v) (event.look (next_row search)) steps.old steps.new }
        ensures rest { LetsFall (T.setting steps.old) terms.now.plan.now (event.look (next_row search)) (T.shown steps.new).1 (item_rest (T.setting steps.old) terms.now.plan.now None (Item.Look self)) (after_rest (T.setting steps.old) terms.now.plan.now None result) }
    {
        match search.turn(steps) {
            Sought::Going => self.on(Way::Seek { search }),
            Sought::At { row, made: _ } => self.on(Way::Load { row }),
            Sought::Absent => unreachable!(),
        }
    }

    fn load<T: Steps, G: TaskGraph>(
        self,
        steps: &mut T,
        terms: &Terms<'_, G>,
        row: u32,
        edge: Edge,
    ) -> After
        requires runs { Runs (G.graph terms.now.graph.now) terms.now.plan.now terms.now.lives (T.setting steps.old) }
        requires stands { Stands (G.graph terms.now.graph.now) (T.setting steps.old) (T.view steps.old) (Item.Look self) }
        requires way { self.way ≡ Way.Load row }
        requires edge { (T.setting steps.old).graph.pred self.duty.key.0 self.input ≡ record { task = edge.key.0; port = edge.port } }
        requires key { IsCoreKey (G.graph terms.now.graph.now) edge.key.0 }
        requires room { 1 ≤ T.KeyWords.spare steps.old }
        ensures goes { Goes (G.graph terms.now.graph.now) (T.setting steps.old) (T.view steps.old) (T.view steps.new) (item_lines (T.setting steps.old).graph (Item.Look self)) result }
        ensures plain { is_plain result ≡ true }
        ensures step { HasStepped T.setting T.view T.KeyWords.made T.KeyWords.spare T.KeyWords.last T.shown T.happened T.lender T.others (λ v. v) (look_event (T.setting steps.old) (T.view steps.old) self self.way) steps.old steps.new }
        ensures rest { LetsFall (T.setting steps.old) terms.now.plan.now (look_event (T.setting steps.old) (T.view steps.old) self self.way) (T.shown steps.new).1 (item_rest (T.setting steps.old) terms.now.plan.now None (Item.Look self)) (after_rest (T.setting steps.old) terms.now.plan.now None result) }
    {
        let word = steps.load_notify(row, edge.port / PORTS_PER_WORD);
        let writer = Duty {
            row,
            key: edge.key,
            life: word.life,
        };
        let came = if word.struck {
            Came::recover(writer, Cause::Notify, false, terms.lives)
        } else if word.closed {
            Came::recover(writer, self.cause, true, terms.lives)
        } else {
            Came::Nothing
        };
        After::over(
            Item::Recover {
                recover: self.own(terms.lives),
            },
            came,
        )
    }

    // The replacement of the life that read.
    fn own(&self, lives: u32) -> Recover
        ensures { result ≡ replaces self.now.duty self.now.cause false lives }
    {
        let Duty { row, key, life } = self.duty;
        Recover::new(row, key, life, self.cause, false, greatest_life(key, lives))
    }
}
