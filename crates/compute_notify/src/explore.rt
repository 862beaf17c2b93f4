ghost use Rattle.std.specs.Prelude.{None, Some, [], ℕ, ◌+◌, ◌-◌, ◌<◌, ◌≡◌, ◌≤◌, false, true};
ghost use Rattle.compute_notify.specs.Eventing.{explore_event, item_event};
ghost use Rattle.compute_notify.specs.Items.{Goes, IsClaiming, Stands, explored_after, item_lines};
ghost use Rattle.compute_notify.specs.Resting.{LetsFall, after_rest, explore_way_rest, item_rest};
ghost use Rattle.compute_notify.specs.Rooms.{is_plain};
ghost use Rattle.compute_notify.specs.Running.{IsPlace, Runs};
ghost use Rattle.compute_notify.specs.Stepping.{HasStepped};
ghost use Rattle.compute_notify.specs.Striking.{strike_event, strike_left};
ghost use Rattle.compute_notify.specs.Working.{AfterHand, FitsTop};
ghost use Rattle.core_state.specs.Counts.{known_key};
ghost use Rattle.key_table.specs.Seeking.{next_row};
ghost use Rattle.recovery.specs.Memory.{Remembers};
ghost use Rattle.core_state.specs.Events.{Event as event};

use crate::duty::Duty;
use crate::item::{After, Came, Item};
use crate::run::Terms;
use crate::strikes::{Next, make_strike, next_strike};
use core_state::{BlockCells, Job, Registered, Rooted, SELF_PLACE, Told};
use core_steps::Steps;
use graph_model::{Cause, Edge, Key, Point, TaskGraph};
use key_table::{Search, Sought};
use recovery::Owe;

/// Exploring, from a place on.
#[derive(Clone, Copy, Debug)]
pub(crate) struct Explore {
    duty: Duty,
    place: u32,
    way: Way,
    // Strikes made or passed over of the point behind the last place.
    made: u32,
}

/// How far the predecessor at the place was reached.
#[derive(Clone, Copy, Debug)]
pub(crate) enum Way {
    Start,
    Seek { search: Search },
    Register { row: u32 },
    Spend,
}

/// What a turn of an exploring came to. It is small, since most turns only go on.
#[derive(Clone, Copy, Debug)]
pub(crate) enum Explored {
    /// The exploring goes on at its place.
    On { way: Way },
    /// It goes on at another place.
    At { place: u32 },
    /// So many strikes are made or passed over.
    Struck { made: u32 },
    /// The row of the predecessor was made, whose exploring is owed.
    Made { row: u32, key: Key },
    /// The predecessor shows a mark: it is replaced before the exploring registers at it.
    Marked { writer: Duty },
    /// A place was spent, and the exploring goes on at another.
    Spent { place: u32, told: Told },
    /// The self place was spent, and nothing is left.
    Ended { told: Told },
}

impl Explore {
    pub(crate) fn of(duty: Duty) -> Explore
        ensures { result ≡ record { duty = duty; place = 0; way = Way.Start; made = 0 } }
    {
        Explore {
            duty,
            place: 0,
            way: Way::Start,
            made: 0,
        }
    }

    // The exploring, where a turn has left its place as it is.
    #[inline(always)]
    pub(crate) fn on(self, way: Way) -> Explore
        ensures { result ≡ record self { way = way } }
    {
        Explore { way, ..self }
    }

    // The exploring of another place.
    #[inline(always)]
    pub(crate) fn at(self, place: u32) -> Explore
        ensures { result ≡ record self { place = place; way = Way.Start } }
    {
        Explore {
            place,
            way: Way::Start,
            ..self
        }
    }

    /// What a turn left and brought.
    pub(crate) fn after(&self, told: Explored, lives: u32) -> After
        ensures { result ≡ explored_after self.now lives told }
    {
        let Duty { row, key, life: _ } = self.duty;
        match told {
            Explored::On { way } => After::stays(Item::Explore {
                explore: self.on(way),
            }),
            Explored::At { place } => After::stays(Item::Explore {
                explore: self.at(place),
            }),
            Explored::Struck { made } => After::stays(Item::Explore {
                explore: Explore { made, ..*self },
            }),
            Explored::Made { row, key } => After::over(
                Item::Explore {
                    explore: self.on(Way::Register { row }),
                },
                Came::Above {
                    item: Item::Owe {
                        owe: Owe::new(row, key, Job::Explore, 1),
                    },
                },
            ),
            Explored::Marked { writer } => After::over(
                Item::Explore {
                    explore: self.on(Way::Register { row: writer.row }),
                },
                Came::recover(writer, Cause::Notify, false, lives),
            ),
            Explored::Spent { place, told } => After::over(
                Item::Explore {
                    explore: self.at(place),
                },
                Came::told(told, row, key, lives),
            ),
            Explored::Ended { told } => After::gone(Came::told(told, row, key, lives)),
        }
    }

    /// Changes the exploring, if its turn left it and brought nothing.
    #[inline(always)]
    pub(crate) fn keep(&mut self, told: &Explored) -> bool
        ensures kept { result ≡ true → (lives : ℕ) → explored_after self.old lives told.now ≡ record { left = Some (Item.Explore self.new); came = Came.Nothing } }
        ensures same { result ≡ false → self.new ≡ self.old }
    {
        match *told {
            Explored::On { way } => {
                self.way = way;
                true
            }
            Explored::At { place } => {
                self.place = place;
                self.way = Way::Start;
                true
            }
            Explored::Struck { made } => {
                self.made = made;
                true
            }
            Explored::Spent {
                place,
                told: Told::Spent { life: _ } | Told::Already { life: _ },
            } => {
                self.place = place;
                self.way = Way::Start;
                true
            }
            _ => false,
        }
    }

    /// One step towards the predecessor at the place; behind the last place one strike's step at the point,
    /// and then the spending of the self place.
    #[inline(never)]
    pub(crate) fn turn<T: Steps, G: TaskGraph>(
        self,
        steps: &mut T,
        terms: &Terms<'_, G>,
        hand: &mut Option<BlockCells>,
    ) -> Explored
        requires runs { Runs (G.graph terms.now.graph.now) terms.now.plan.now terms.now.lives (T.setting steps.old) }
        requires stands { Stands (G.graph terms.now.graph.now) (T.setting steps.old) (T.view steps.old) (Item.Explore self) }
        requires top { FitsTop (T.setting steps.old) (T.view steps.old) hand.old (Item.Explore self) }
        requires room { 1 ≤ T.KeyWords.spare steps.old }
        ensures goes { Goes (G.graph terms.now.graph.now) (T.setting steps.old) (T.view steps.old) (T.view steps.new) (item_lines (T.setting steps.old).graph (Item.Explore self)) (explored_after self terms.now.lives result) }
        ensures plain { is_plain (explored_after self terms.now.lives result) ≡ true }
        ensures top { AfterHand (T.setting steps.old) (T.view steps.new) hand.new (explored_after self terms.now.lives result) }
        ensures knows { Remembers (T.view steps.old) (T.view steps.new) }
        ensures step { HasStepped T.setting T.view T.KeyWords.made T.KeyWords.spare T.KeyWords.last T.shown T.happened T.lender T.others (λ v. v) (item_event (T.setting steps.old) (T.view steps.old) terms.now.plan.now hand.old hand.new (Item.Explore self)) steps.old steps.new }
        ensures rest { LetsFall (T.setting steps.old) terms.now.plan.now (item_event (T.setting steps.old) (T.view steps.old) terms.now.plan.now hand.old hand.new (Item.Explore self)) (T.shown steps.new).1 (item_rest (T.setting steps.old) terms.now.plan.now hand.old (Item.Explore self)) (after_rest (T.setting steps.old) terms.now.plan.now hand.new (explored_after self terms.now.lives result)) }
    {
        let graph = Rooted::of(terms.graph);
        if self.place < graph.pred_count(self.duty.key) {
            return self.at_place(steps, terms);
        }
        let words = graph.notify_words(self.duty.key);
        match next_strike(terms.plan, words, Point::Explored, self.duty, self.made) {
            Some(next) => self.strike(steps, terms, next, hand),
            None => self.spend_self(steps, terms),
        }
    }

    fn strike<T: Steps, G: TaskGraph>(
        self,
        steps: &mut T,
        terms: &Terms<'_, G>,
        next: Next,
        hand: &mut Option<BlockCells>,
    ) -> Explored
        requires runs { Runs (G.graph terms.now.graph.now) terms.now.plan.now terms.now.lives (T.setting steps.old) }
        requires stands { Stands (G.graph terms.now.graph.now) (T.setting steps.old) (T.view steps.old) (Item.Explore self) }
        requires top { FitsTop (T.setting steps.old) (T.view steps.old) hand.old (Item.Explore self) }
        requires next { strike_left (T.setting steps.old).graph terms.now.plan.now (Item.Explore self) ≡ Some next }
        requires room { 1 ≤ T.KeyWords.spare steps.old }
        ensures goes { Goes (G.graph terms.now.graph.now) (T.setting steps.old) (T.view steps.old) (T.view steps.new) (item_lines (T.setting steps.old).graph (Item.Explore self)) (explored_after self terms.now.lives result) }
        ensures plain { is_plain (explored_after self terms.now.lives result) ≡ true }
        ensures top { AfterHand (T.setting steps.old) (T.view steps.new) hand.new (explored_after self terms.now.lives result) }
        ensures step { HasStepped T.setting T.view T.KeyWords.made T.KeyWords.spare T.KeyWords.last T.shown T.happened T.lender T.others (λ v. v) (strike_event (T.setting steps.old) (T.view steps.old) self.duty next.target hand.old hand.new) steps.old steps.new }
        ensures rest { LetsFall (T.setting steps.old) terms.now.plan.now (strike_event (T.setting steps.old) (T.view steps.old) self.duty next.target hand.old hand.new) (T.shown steps.new).1 (item_rest (T.setting steps.old) terms.now.plan.now hand.old (Item.Explore self)) (after_rest (T.setting steps.old) terms.now.plan.now hand.new (explored_after self terms.now.lives result)) }
    {
        let graph = Rooted::of(terms.graph);
        let made = if make_strike(steps, &graph, self.duty, next.target, hand) {
            next.made
        } else {
            self.made
        };
        Explored::Struck { made }
    }

    fn spend_self<T: Steps, G: TaskGraph>(self, steps: &mut T, terms: &Terms<'_, G>) -> Explored
        requires runs { Runs (G.graph terms.now.graph.now) terms.now.plan.now terms.now.lives (T.setting steps.old) }
        requires stands { Stands (G.graph terms.now.graph.now) (T.setting steps.old) (T.view steps.old) (Item.Explore self) }
        requires hand { (T.view steps.old).hands ≡ [] }
        requires none { strike_left (T.setting steps.old).graph terms.now.plan.now (Item.Explore self) ≡ None }
        requires past { self.place ≡ (T.setting steps.old).graph.places self.duty.key.0 }
        requires room { 1 ≤ T.KeyWords.spare steps.old }
        ensures goes { Goes (G.graph terms.now.graph.now) (T.setting steps.old) (T.view steps.old) (T.view steps.new) (item_lines (T.setting steps.old).graph (Item.Explore self)) (explored_after self terms.now.lives result) }
        ensures plain { is_plain (explored_after self terms.now.lives result) ≡ true }
        ensures hand { (T.view steps.new).hands ≡ [] }
        ensures step { HasStepped T.setting T.view T.KeyWords.made T.KeyWords.spare T.KeyWords.last T.shown T.happened T.lender T.others (λ v. v) (event.spend self.duty.row (known_key self.duty.row (T.view steps.old)) 40) steps.old steps.new }
        ensures rest { LetsFall (T.setting steps.old) terms.now.plan.now (event.spend self.duty.row (known_key self.duty.row (T.view steps.old)) 40) (T.shown steps.new).1 (item_rest (T.setting steps.old) terms.now.plan.now None (Item.Explore self)) (after_rest (T.setting steps.old) terms.now.plan.now None (explored_after self terms.now.lives result)) }
    {
        let Duty { row, key, life: _ } = self.duty;
        let preds = Rooted::of(terms.graph).pred_count(key);
        let told = steps.spend(row, SELF_PLACE, preds);
        Explored::Ended { told }
    }

    fn at_place<T: Steps, G: TaskGraph>(self, steps: &mut T, terms: &Terms<'_, G>) -> Explored
        requires runs { Runs (G.graph terms.now.graph.now) terms.now.plan.now terms.now.lives (T.setting steps.old) }
        requires stands { Stands (G.graph terms.now.graph.now) (T.setting steps.old) (T.view steps.old) (Item.Explore self) }
        requires hand { (T.view steps.old).hands ≡ [] }
        requires place { self.place < (T.setting steps.old).graph.places self.duty.key.0 }
        requires room { 1 ≤ T.KeyWords.spare steps.old }
        ensures goes { Goes (G.graph terms.now.graph.now) (T.setting steps.old) (T.view steps.old) (T.view steps.new) (item_lines (T.setting steps.old).graph (Item.Explore self)) (explored_after self terms.now.lives result) }
        ensures plain { is_plain (explored_after self terms.now.lives result) ≡ true }
        ensures hand { (T.view steps.new).hands ≡ [] }
        ensures knows { Remembers (T.view steps.old) (T.view steps.new) }
        ensures step { HasStepped T.setting T.view T.KeyWords.made T.KeyWords.spare T.KeyWords.last T.shown T.happened T.lender T.others (λ v. v) (explore_event (T.setting steps.old) (T.view steps.old) self self.way) steps.old steps.new }
        ensures rest { LetsFall (T.setting steps.old) terms.now.plan.now (explore_event (T.setting steps.old) (T.view steps.old) self self.way) (T.shown steps.new).1 (item_rest (T.setting steps.old) terms.now.plan.now None (Item.Explore self)) (after_rest (T.setting steps.old) terms.now.plan.now None (explored_after self terms.now.lives result)) }
    {
        let graph = Rooted::of(terms.graph);
        let edge = graph.pred(self.duty.key, self.place);
        match &self.way {
            Way::Start => {
                let search = Search::make(edge.key, steps.rows());
                self.seek(steps, terms, search, edge)
            }
            Way::Seek { search } => {
                let search = *search;
                self.seek(steps, terms, search, edge)
            }
            Way::Register { row } => {
                let row = *row;
                self.register(steps, terms, row, edge)
            }
            Way::Spend => {
                let Duty { row, key, life: _ } = self.duty;
                let told = steps.spend(row, self.place, graph.pred_count(key));
                Explored::Spent {
                    place: self.place + 1,
                    told,
                }
            }
        }
    }

    fn seek<T: Steps, G: TaskGraph>(
        self,
        steps: &mut T,
        terms: &Terms<'_, G>,
        mut search: Search,
        edge: Edge,
    ) -> Explored
        requires runs { Runs (G.graph terms.now.graph.now) terms.now.plan.now terms.now.lives (T.setting steps.old) }
        requires stands { Stands (G.graph terms.now.graph.now) (T.setting steps.old) (T.view steps.old) (Item.Explore self) }
        requires hand { (T.view steps.old).hands ≡ [] }
        requires edge { IsPlace (G.graph terms.now.graph.now) (T.setting steps.old).graph self.duty.key.0 self.place edge }
        requires place { self.place < (T.setting steps.old).graph.places self.duty.key.0 }
        requires search { IsClaiming (T.setting steps.old) (T.view steps.old) edge.key.0 search }
        requires way { explore_way_rest (T.setting steps.old).shape.rows self.way ≡ ((T.setting steps.old).shape.rows - search.passed) + 14 }
        requires room { 1 ≤ T.KeyWords.spare steps.old }
        ensures goes { Goes (G.graph terms.now.graph.now) (T.setting steps.old) (T.view steps.old) (T.view steps.new) (item_lines (T.setting steps.old).graph (Item.Explore self)) (explored_after self terms.now.lives result) }
        ensures plain { is_plain (explored_after self terms.now.lives result) ≡ true }
        ensures hand { (T.view steps.new).hands ≡ [] }
        ensures knows { Remembers (T.view steps.old) (T.view steps.new) }
        ensures step { HasStepped T.setting T.view T.KeyWords.made T.KeyWords.spare T.KeyWords.last T.shown T.happened T.lender T.others (λ v. v) (event.claim (next_row search) search.key) steps.old steps.new }
        ensures rest { LetsFall (T.setting steps.old) terms.now.plan.now (event.claim (next_row search) search.key) (T.shown steps.new).1 (item_rest (T.setting steps.old) terms.now.plan.now None (Item.Explore self)) (after_rest (T.setting steps.old) terms.now.plan.now None (explored_after self terms.now.lives result)) }
    {
        match search.turn(steps) {
            Sought::Going => Explored::On {
                way: Way::Seek { search },
            },
            Sought::At { row, made: false } => Explored::On {
                way: Way::Register { row },
            },
            Sought::At { row, made: true } => Explored::Made { row, key: edge.key },
            Sought::Absent => unreachable!(),
        }
    }

    fn register<T: Steps, G: TaskGraph>(
        self,
        steps: &mut T,
        terms: &Terms<'_, G>,
        row: u32,
        edge: Edge,
    ) -> Explored
        requires runs { Runs (G.graph terms.now.graph.now) terms.now.plan.now terms.now.lives (T.setting steps.old) }
        requires stands { Stands (G.graph terms.now.graph.now) (T.setting steps.old) (T.view steps.old) (Item.Explore self) }
        requires hand { (T.view steps.old).hands ≡ [] }
        requires way { self.way ≡ Way.Register row }
        requires edge { IsPlace (G.graph terms.now.graph.now) (T.setting steps.old).graph self.duty.key.0 self.place edge }
        requires room { 1 ≤ T.KeyWords.spare steps.old }
        ensures goes { Goes (G.graph terms.now.graph.now) (T.setting steps.old) (T.view steps.old) (T.view steps.new) (item_lines (T.setting steps.old).graph (Item.Explore self)) (explored_after self terms.now.lives result) }
        ensures plain { is_plain (explored_after self terms.now.lives result) ≡ true }
        ensures hand { (T.view steps.new).hands ≡ [] }
        ensures step { HasStepped T.setting T.view T.KeyWords.made T.KeyWords.spare T.KeyWords.last T.shown T.happened T.lender T.others (λ v. v) (explore_event (T.setting steps.old) (T.view steps.old) self self.way) steps.old steps.new }
        ensures rest { LetsFall (T.setting steps.old) terms.now.plan.now (explore_event (T.setting steps.old) (T.view steps.old) self self.way) (T.shown steps.new).1 (item_rest (T.setting steps.old) terms.now.plan.now None (Item.Explore self)) (after_rest (T.setting steps.old) terms.now.plan.now None (explored_after self terms.now.lives result)) }
    {
        match steps.register(row, edge.port) {
            Registered::Waiting { life: _ } => Explored::At {
                place: self.place + 1,
            },
            Registered::Closed { life: _ } => Explored::On { way: Way::Spend },
            Registered::Struck { life } => Explored::Marked {
                writer: Duty {
                    row,
                    key: edge.key,
                    life,
                },
            },
        }
    }
}
