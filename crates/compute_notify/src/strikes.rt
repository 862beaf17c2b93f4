//! The strikes of the plan at a point.
ghost use Rattle.std.specs.Prelude.{drop, ◌+◌, ◌≡◌, ◌≢◌, ◌≤◌};
ghost use Rattle.compute_notify.specs.Stepping.{HasStepped};
ghost use Rattle.compute_notify.specs.Striking.{FitsHand, StrikeTells, has_target, next_hit, strike_event};
ghost use Rattle.core_state.specs.Asked.{IsCoreKey};
ghost use Rattle.core_state.specs.Guards.{MakesStrike};
ghost use Rattle.core_steps.specs.Serving.{work_life};
ghost use Rattle.graph_model.specs.Plans.{hits};
ghost use Rattle.recovery.specs.Memory.{KnowsKey};
ghost use Rattle.recovery.specs.Serving.{Serves};

use crate::duty::Duty;
use block_store::end_strike;
use core_state::{BlockCells, Rooted};
use core_steps::Steps;
use graph_model::{FaultPlan, Point, Target, TaskGraph};

/// A strike of the plan that is next at a point, and how many are made or passed over after it.
#[derive(Clone, Copy, Debug)]
pub(crate) struct Next {
    pub target: Target,
    pub made: u32,
}

// Whether the task has the word that a strike names.
fn is_there(target: Target, words: u32) -> bool
    ensures { result ≡ has_target words target }
{
    match target {
        Target::Notify { word } => word < words,
        Target::Descriptor | Target::Block => true,
    }
}

/// The next strike to be made, where so many of the point's are made or passed over.
pub(crate) fn next_strike(
    plan: &FaultPlan,
    words: u32,
    point: Point,
    duty: Duty,
    made: u32,
) -> Option<Next>
    ensures { result ≡ next_hit words made (drop made (hits point duty.key duty.life plan.now)) }
{
    for at in made..plan.len() {
        let target = plan.strikes_at(point, duty.key, duty.life, at)?;
        if is_there(target, words) {
            return Some(Next {
                target,
                made: at + 1,
            });
        }
    }
    None
}

/// One step of the strike that is next; whether it is made. A block is taken first.
pub(crate) fn make_strike<T: Steps, G: TaskGraph>(
    steps: &mut T,
    graph: &Rooted<'_, G>,
    duty: Duty,
    target: Target,
    hand: &mut Option<BlockCells>,
) -> bool
    requires serves { Serves (G.graph graph.now.graph.now) (T.setting steps.old) }
    requires key { IsCoreKey (G.graph graph.now.graph.now) duty.key.0 }
    requires task { duty.key.0 ≢ (T.setting steps.old).graph.root }
    requires last_block { (T.setting steps.old).shape.blocks ≡ (G.graph graph.now.graph.now).block_count + 1 }
    requires row { KnowsKey (T.setting steps.old) (T.view steps.old) duty.row duty.key.0 }
    requires life { work_life (T.view steps.old) ≡ duty.life }
    requires strikes { MakesStrike (T.setting steps.old) (T.view steps.old) duty.key.0 duty.life target }
    requires hand { FitsHand (T.setting steps.old) (T.view steps.old) duty.key.0 duty.life hand.old }
    requires room { 1 ≤ T.KeyWords.spare steps.old }
    ensures struck { StrikeTells (T.setting steps.old) (T.view steps.old) (T.view steps.new) duty.key.0 duty.life target hand.old hand.new (T.shown steps.new).1 result }
    ensures step { HasStepped T.setting T.view T.KeyWords.made T.KeyWords.spare T.KeyWords.last T.shown T.happened T.lender T.others (λ v. v) (strike_event (T.setting steps.old) (T.view steps.old) duty target hand.old hand.new) steps.old steps.new }
{
    match target {
        Target::Descriptor => {
            steps.strike_descriptor(duty.row);
            true
        }
        Target::Notify { word } => {
            steps.strike_notify(duty.row, word);
            true
        }
        Target::Block => strike_block(steps, graph, duty, hand),
    }
}

fn strike_block<T: Steps, G: TaskGraph>(
    steps: &mut T,
    graph: &Rooted<'_, G>,
    duty: Duty,
    hand: &mut Option<BlockCells>,
) -> bool
    requires serves { Serves (G.graph graph.now.graph.now) (T.setting steps.old) }
    requires key { IsCoreKey (G.graph graph.now.graph.now) duty.key.0 }
    requires task { duty.key.0 ≢ (T.setting steps.old).graph.root }
    requires last_block { (T.setting steps.old).shape.blocks ≡ (G.graph graph.now.graph.now).block_count + 1 }
    requires strikes { MakesStrike (T.setting steps.old) (T.view steps.old) duty.key.0 duty.life Target.Block }
    requires hand { FitsHand (T.setting steps.old) (T.view steps.old) duty.key.0 duty.life hand.old }
    requires room { 1 ≤ T.KeyWords.spare steps.old }
    ensures struck { StrikeTells (T.setting steps.old) (T.view steps.old) (T.view steps.new) duty.key.0 duty.life Target.Block hand.old hand.new (T.shown steps.new).1 result }
    ensures step { HasStepped T.setting T.view T.KeyWords.made T.KeyWords.spare T.KeyWords.last T.shown T.happened T.lender T.others (λ v. v) (strike_event (T.setting steps.old) (T.view steps.old) duty Target.Block hand.old hand.new) steps.old steps.new }
{
    let place = graph.block(duty.key);
    match hand.take() {
        None => {
            *hand = steps.take_turn(place.block);
            false
        }
        Some(taken) => {
            end_strike(
                steps,
                duty.key,
                duty.life,
                place.block,
                place.version,
                taken,
            );
            true
        }
    }
}
