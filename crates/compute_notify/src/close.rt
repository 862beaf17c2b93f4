ghost use Rattle.std.specs.Prelude.{None, Some, [], false, ◌<◌, ◌≡◌, ◌≤◌, true};
ghost use Rattle.compute_notify.specs.Eventing.{close_event, item_event};
ghost use Rattle.compute_notify.specs.Items.{Goes, Stands, close_from, is_over, item_lines};
ghost use Rattle.compute_notify.specs.Resting.{LetsFall, LooksAgain, after_rest, item_rest};
ghost use Rattle.compute_notify.specs.Rooms.{is_plain};
ghost use Rattle.compute_notify.specs.Running.{Runs};
ghost use Rattle.compute_notify.specs.Stepping.{HasStepped};
ghost use Rattle.compute_notify.specs.Striking.{seen_word, strike_event, strike_left};
ghost use Rattle.compute_notify.specs.Tasks.{after_items};
ghost use Rattle.compute_notify.specs.Working.{AfterHand, FitsTop};
ghost use Rattle.core_state.specs.Asked.{InEachGraphOf, IsCoreKey};

use crate::duty::Duty;
use crate::item::{After, Came, Item};
use crate::notify::Notify;
use crate::run::Terms;
use crate::strikes::{Next, make_strike, next_strike};
use core_state::{BlockCells, Closing, NotifyWord, Rooted};
use core_steps::Steps;
use graph_model::{Cause, Point, TaskGraph};

/// Closing the notify words, from one on.
#[derive(Clone, Copy, Debug)]
pub(crate) struct Close {
    duty: Duty,
    word: u32,
    // How the word was seen last, if it was.
    seen: Option<NotifyWord>,
    // Strikes made or passed over of the point before the first word, or of that behind the last.
    made: u32,
}

impl Close {
    pub(crate) fn of(duty: Duty) -> Close
        ensures { result ≡ close_from duty 0 }
    {
        Close::from(duty, 0)
    }

    fn from(duty: Duty, word: u32) -> Close
        ensures { result ≡ close_from duty word }
    {
        Close {
            duty,
            word,
            seen: None,
            made: 0,
        }
    }

    // The next strike at the point that the closing has come to, if it has come to one.
    fn strike_left<G: TaskGraph>(&self, terms: &Terms<'_, G>) -> Option<Next>
        requires key { IsCoreKey (G.graph terms.now.graph.now) self.now.duty.key.0 }
        requires made { self.now.made ≤ 4096 }
        ensures { InEachGraphOf (G.graph terms.now.graph.now) (λ r. result ≡ strike_left r terms.now.plan.now (Item.Close self.now)) }
    {
        let words = Rooted::of(terms.graph).notify_words(self.duty.key);
        if self.word == 0 {
            next_strike(terms.plan, words, Point::Computed, self.duty, self.made)
        } else if self.word < words {
            None
        } else {
            next_strike(terms.plan, words, Point::Notified, self.duty, self.made)
        }
    }

    /// Whether all words are closed and no strike is left.
    pub(crate) fn is_over<G: TaskGraph>(&self, terms: &Terms<'_, G>) -> bool
        requires key { IsCoreKey (G.graph terms.now.graph.now) self.now.duty.key.0 }
        requires made { self.now.made ≤ 4096 }
        ensures { InEachGraphOf (G.graph terms.now.graph.now) (λ r. result ≡ is_over r terms.now.plan.now (Item.Close self.now)) }
    {
        let words = Rooted::of(terms.graph).notify_words(self.duty.key);
        self.word >= words && self.strike_left(terms).is_none()
    }

    /// One strike's step at a point, or one exchange of the word.
    #[inline(never)]
    pub(crate) fn turn<T: Steps, G: TaskGraph>(
        self,
        steps: &mut T,
        terms: &Terms<'_, G>,
        hand: &mut Option<BlockCells>,
    ) -> After
        requires runs { Runs (G.graph terms.now.graph.now) terms.now.plan.now terms.now.lives (T.setting steps.old) }
        requires stands { Stands (G.graph terms.now.graph.now) (T.setting steps.old) (T.view steps.old) (Item.Close self) }
        requires top { FitsTop (T.setting steps.old) (T.view steps.old) hand.old (Item.Close self) }
        requires left { is_over (T.setting steps.old).graph terms.now.plan.now (Item.Close self) ≡ false }
        requires room { 1 ≤ T.KeyWords.spare steps.old }
        ensures goes { Goes (G.graph terms.now.graph.now) (T.setting steps.old) (T.view steps.old) (T.view steps.new) (item_lines (T.setting steps.old).graph (Item.Close self)) result }
        ensures plain { is_plain result ≡ true }
        ensures top { AfterHand (T.setting steps.old) (T.view steps.new) hand.new result }
        ensures step { HasStepped T.setting T.view T.KeyWords.made T.KeyWords.spare T.KeyWords.last T.shown T.happened T.lender T.others (λ v. v) (item_event (T.setting steps.old) (T.view steps.old) terms.now.plan.now hand.old hand.new (Item.Close self)) steps.old steps.new }
        ensures rest { LetsFall (T.setting steps.old) terms.now.plan.now (item_event (T.setting steps.old) (T.view steps.old) terms.now.plan.now hand.old hand.new (Item.Close self)) (T.shown steps.new).1 (item_rest (T.setting steps.old) terms.now.plan.now hand.old (Item.Close self)) (after_rest (T.setting steps.old) terms.now.plan.now hand.new result) }
        ensures again { LooksAgain (T.setting steps.old).graph terms.now.plan.now (T.shown steps.new).1 (Item.Close self) (after_items result) }
    {
        match self.strike_left(terms) {
            Some(next) => self.strike(steps, terms, next, hand),
            None => self.close_word(steps, terms),
        }
    }

    fn strike<T: Steps, G: TaskGraph>(
        self,
        steps: &mut T,
        terms: &Terms<'_, G>,
        next: Next,
        hand: &mut Option<BlockCells>,
    ) -> After
        requires runs { Runs (G.graph terms.now.graph.now) terms.now.plan.now terms.now.lives (T.setting steps.old) }
        requires stands { Stands (G.graph terms.now.graph.now) (T.setting steps.old) (T.view steps.old) (Item.Close self) }
        requires top { FitsTop (T.setting steps.old) (T.view steps.old) hand.old (Item.Close self) }
        requires next { strike_left (T.setting steps.old).graph terms.now.plan.now (Item.Close self) ≡ Some next }
        requires room { 1 ≤ T.KeyWords.spare steps.old }
        ensures goes { Goes (G.graph terms.now.graph.now) (T.setting steps.old) (T.view steps.old) (T.view steps.new) (item_lines (T.setting steps.old).graph (Item.Close self)) result }
        ensures plain { is_plain result ≡ true }
        ensures top { AfterHand (T.setting steps.old) (T.view steps.new) hand.new result }
        ensures step { HasStepped T.setting T.view T.KeyWords.made T.KeyWords.spare T.KeyWords.last T.shown T.happened T.lender T.others (λ v. v) (strike_event (T.setting steps.old) (T.view steps.old) self.duty next.target hand.old hand.new) steps.old steps.new }
        ensures rest { LetsFall (T.setting steps.old) terms.now.plan.now (strike_event (T.setting steps.old) (T.view steps.old) self.duty next.target hand.old hand.new) (T.shown steps.new).1 (item_rest (T.setting steps.old) terms.now.plan.now hand.old (Item.Close self)) (after_rest (T.setting steps.old) terms.now.plan.now hand.new result) }
    {
        let graph = Rooted::of(terms.graph);
        let made = if make_strike(steps, &graph, self.duty, next.target, hand) {
            next.made
        } else {
            self.made
        };
        After::stays(Item::Close {
            close: Close { made, ..self },
        })
    }

    // How the word is taken to be: as it was seen last, or empty.
    fn guess(&self) -> NotifyWord
        ensures { result ≡ seen_word self.now.duty.life self.now.seen }
    {
        match self.seen {
            Some(word) => word,
            None => NotifyWord::empty(self.duty.life),
        }
    }

    fn close_word<T: Steps, G: TaskGraph>(self, steps: &mut T, terms: &Terms<'_, G>) -> After
        requires runs { Runs (G.graph terms.now.graph.now) terms.now.plan.now terms.now.lives (T.setting steps.old) }
        requires stands { Stands (G.graph terms.now.graph.now) (T.setting steps.old) (T.view steps.old) (Item.Close self) }
        requires hand { (T.view steps.old).hands ≡ [] }
        requires none { strike_left (T.setting steps.old).graph terms.now.plan.now (Item.Close self) ≡ None }
        requires left { self.word < (T.setting steps.old).graph.notify_words self.duty.key.0 }
        requires room { 1 ≤ T.KeyWords.spare steps.old }
        ensures goes { Goes (G.graph terms.now.graph.now) (T.setting steps.old) (T.view steps.old) (T.view steps.new) (item_lines (T.setting steps.old).graph (Item.Close self)) result }
        ensures plain { is_plain result ≡ true }
        ensures hand { (T.view steps.new).hands ≡ [] }
        ensures step { HasStepped T.setting T.view T.KeyWords.made T.KeyWords.spare T.KeyWords.last T.shown T.happened T.lender T.others (λ v. v) (close_event (T.view steps.old) self) steps.old steps.new }
        ensures rest { LetsFall (T.setting steps.old) terms.now.plan.now (close_event (T.view steps.old) self) (T.shown steps.new).1 (item_rest (T.setting steps.old) terms.now.plan.now None (Item.Close self)) (after_rest (T.setting steps.old) terms.now.plan.now None result) }
        ensures again { LooksAgain (T.setting steps.old).graph terms.now.plan.now (T.shown steps.new).1 (Item.Close self) (after_items result) }
    {
        let Duty { row, key, life } = self.duty;
        match steps.close(row, life, self.word, self.guess()) {
            Closing::Edges { ports } => {
                let close = Close::from(self.duty, self.word + 1);
                let notify = Notify::of(key, life, self.word, ports);
                After::over(
                    Item::Close { close },
                    Came::Above {
                        item: Item::Notify { notify },
                    },
                )
            }
            Closing::Stale { life: _ } => After::leaves(),
            Closing::Struck { life } => {
                let shown = Duty { row, key, life };
                After::gone(Came::recover(shown, Cause::Notify, false, terms.lives))
            }
            Closing::Moved { word } => After::stays(Item::Close {
                close: Close {
                    seen: Some(word),
                    ..self
                },
            }),
        }
    }
}
