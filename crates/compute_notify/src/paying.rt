//! The turns of a job that is owed, and of the end of a stack.
ghost use Rattle.std.specs.Prelude.{None, length, ◌≡◌, ◌≤◌, true};
ghost use Rattle.compute_notify.specs.Items.{Goes, Stands, item_lines};
ghost use Rattle.compute_notify.specs.Resting.{LetsFall, after_rest, item_rest};
ghost use Rattle.compute_notify.specs.Rooms.{is_plain};
ghost use Rattle.compute_notify.specs.Running.{Runs};
ghost use Rattle.compute_notify.specs.Stepping.{HasStepped};
ghost use Rattle.recovery.specs.Happening.{owe_event};
ghost use Rattle.recovery.specs.Owing.{owe_hints};
ghost use Rattle.core_state.specs.Events.{Event as event};

use crate::item::{After, Came, Item};
use crate::run::Terms;
use core_steps::{Hints, Steps};
use graph_model::TaskGraph;
use recovery::{Owe, Paid};

/// Buys a credit, or posts the job with it. The job that stood there begins a stack.
#[inline(never)]
pub(crate) fn pay<T: Steps, G: TaskGraph>(
    mut owe: Owe,
    steps: &mut T,
    terms: &Terms<'_, G>,
    hints: &mut Hints,
) -> After
    requires runs { Runs (G.graph terms.now.graph.now) terms.now.plan.now terms.now.lives (T.setting steps.old) }
    requires stands { Stands (G.graph terms.now.graph.now) (T.setting steps.old) (T.view steps.old) (Item.Owe owe) }
    requires hints { length hints.old ≤ 2 }
    requires room { 1 ≤ T.KeyWords.spare steps.old }
    ensures goes { Goes (G.graph terms.now.graph.now) (T.setting steps.old) (T.view steps.old) (T.view steps.new) (item_lines (T.setting steps.old).graph (Item.Owe owe)) result }
    ensures plain { is_plain result ≡ true }
    ensures hints { hints.new ≡ owe_hints owe hints.old }
    ensures step { HasStepped T.setting T.view T.KeyWords.made T.KeyWords.spare T.KeyWords.last T.shown T.happened T.lender T.others (λ v. v) (owe_event (T.view steps.old) owe) steps.old steps.new }
    ensures rest { LetsFall (T.setting steps.old) terms.now.plan.now (owe_event (T.view steps.old) owe) (T.shown steps.new).1 (item_rest (T.setting steps.old) terms.now.plan.now None (Item.Owe owe)) (after_rest (T.setting steps.old) terms.now.plan.now None result) }
{
    match owe.turn(steps, hints) {
        Paid::Bought => After::stays(Item::Owe { owe }),
        Paid::Posted => After::leaves(),
        Paid::Given { life } => After::gone(Came::Stack {
            item: Item::of_job(owe.row(), owe.key(), owe.job(), life),
        }),
    }
}

/// Gives the credit of a stack back that has no items left.
#[inline(never)]
pub(crate) fn give_up<T: Steps, G: TaskGraph>(steps: &mut T, terms: &Terms<'_, G>) -> After
    requires runs { Runs (G.graph terms.now.graph.now) terms.now.plan.now terms.now.lives (T.setting steps.old) }
    requires stands { Stands (G.graph terms.now.graph.now) (T.setting steps.old) (T.view steps.old) (Item.Credit) }
    requires room { 1 ≤ T.KeyWords.spare steps.old }
    ensures goes { Goes (G.graph terms.now.graph.now) (T.setting steps.old) (T.view steps.old) (T.view steps.new) (item_lines (T.setting steps.old).graph (Item.Credit)) result }
    ensures gone { result ≡ record { left = None; came = Came.Nothing } }
    ensures step { HasStepped T.setting T.view T.KeyWords.made T.KeyWords.spare T.KeyWords.last T.shown T.happened T.lender T.others (λ v. v) (event.drop_credit) steps.old steps.new }
    ensures rest { LetsFall (T.setting steps.old) terms.now.plan.now event.drop_credit (T.shown steps.new).1 (item_rest (T.setting steps.old) terms.now.plan.now None Item.Credit) (after_rest (T.setting steps.old) terms.now.plan.now None result) }
{
    steps.drop_credit();
    After::leaves()
}
