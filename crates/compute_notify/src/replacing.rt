//! The turn of a replacement.
ghost use Rattle.std.specs.Prelude.{None, false, length, true, ◌≡◌, ◌≤◌};
ghost use Rattle.compute_notify.specs.Items.{Goes, SpentTells, Stands, is_spent, item_lines, turn_came};
ghost use Rattle.compute_notify.specs.Resting.{LetsFall, LooksAgain, after_rest, item_rest};
ghost use Rattle.compute_notify.specs.Tasks.{after_items};
ghost use Rattle.compute_notify.specs.Rooms.{is_bare};
ghost use Rattle.compute_notify.specs.Running.{Runs};
ghost use Rattle.compute_notify.specs.Stepping.{HasStepped};
ghost use Rattle.recovery.specs.Happening.{turn_event};
ghost use Rattle.recovery.specs.Memory.{Remembers};
ghost use Rattle.recovery.specs.Recovering.{is_last, is_over, makes_step, turn_hints};

use crate::duty::Duty;
use crate::item::{After, Came, Item};
use crate::run::Terms;
use core_steps::{Hints, Steps};
use graph_model::TaskGraph;
use recovery::{Recover, Turn};

// What a turn of a replacement brings above it.
fn came_of(told: Turn, lives: u32) -> Came
    ensures { result ≡ turn_came told lives }
{
    match told {
        Turn::Going | Turn::Done => Came::Nothing,
        Turn::Met {
            row,
            key,
            life,
            cause,
        } => {
            let duty = Duty { row, key, life };
            Came::recover(duty, cause, false, lives)
        }
        Turn::Given {
            row,
            key,
            job,
            life,
        } => Came::Stack {
            item: Item::of_job(row, key, job, life),
        },
        Turn::LivesSpent { key, life, cause } => Came::Spent { key, life, cause },
    }
}

/// One step of a replacement, or none where the life was the greatest that its task may have.
#[inline(never)]
pub(crate) fn replace<T: Steps, G: TaskGraph>(
    mut recover: Recover,
    steps: &mut T,
    terms: &Terms<'_, G>,
    hints: &mut Hints,
) -> After
    requires runs { Runs (G.graph terms.now.graph.now) terms.now.plan.now terms.now.lives (T.setting steps.old) }
    requires stands { Stands (G.graph terms.now.graph.now) (T.setting steps.old) (T.view steps.old) (Item.Recover recover) }
    requires left { is_over recover.phase ≡ false }
    requires hints { length hints.old ≤ 2 }
    requires room { 1 ≤ T.KeyWords.spare steps.old }
    ensures goes { Goes (G.graph terms.now.graph.now) (T.setting steps.old) (T.view steps.old) (T.view steps.new) (item_lines (T.setting steps.old).graph (Item.Recover recover)) result }
    ensures bare { is_bare result ≡ true }
    ensures hints { hints.new ≡ turn_hints recover.phase hints.old }
    ensures spent { is_spent result.came ≡ is_last recover.phase recover.life recover.lives }
    ensures cause { SpentTells result.came recover }
    ensures knows { Remembers (T.view steps.old) (T.view steps.new) }
    ensures still { makes_step recover ≡ false → steps.new ≡ steps.old }
    ensures step { makes_step recover ≡ true → HasStepped T.setting T.view T.KeyWords.made T.KeyWords.spare T.KeyWords.last T.shown T.happened T.lender T.others (λ v. v) (turn_event (T.setting steps.old) (T.view steps.old) recover) steps.old steps.new }
    ensures rest { makes_step recover ≡ true → LetsFall (T.setting steps.old) terms.now.plan.now (turn_event (T.setting steps.old) (T.view steps.old) recover) (T.shown steps.new).1 (item_rest (T.setting steps.old) terms.now.plan.now None (Item.Recover recover)) (after_rest (T.setting steps.old) terms.now.plan.now None result) }
    ensures again { LooksAgain (T.setting steps.old).graph terms.now.plan.now (T.shown steps.new).1 (Item.Recover recover) (after_items result) }
{
    let told = recover.turn(steps, terms.graph, hints);
    After::over(Item::Recover { recover }, came_of(told, terms.lives))
}
