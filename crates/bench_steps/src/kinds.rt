//! One kind of step after another, so many times.
ghost use Rattle.std.specs.Prelude.{◌≡◌, ◌≢◌, ◌≤◌, ◌<◌, ◌+◌, ◌*◌, []};
ghost use Rattle.core_state.specs.Guards.{CanTakeTurn};
ghost use Rattle.recovery.specs.Memory.{KnowsKey};

use core_state::Job;
use core_steps::Steps;
use graph_model::Key;
use key_table::{KeyWords, find_or_make};

// The block 0 is taken and given back.
fn turn<T: Steps>(steps: &mut T)
    requires can { CanTakeTurn (T.setting steps.old) (T.view steps.old) 0 }
    requires room { 2 ≤ T.KeyWords.spare steps.old }
    ensures hands { (T.view steps.new).hands ≡ [] }
    ensures room { T.KeyWords.spare steps.old ≤ T.KeyWords.spare steps.new + 2 }
    ensures setting { T.setting steps.new ≡ T.setting steps.old }
{
    let Some(taken) = steps.take_turn(0) else {
        return;
    };
    steps.give_read(0, taken);
}

/// Turns of the block 0, which is not the root's.
pub(crate) fn turns<T: Steps>(steps: &mut T, many: u32)
    requires low { 0 < (T.setting steps.old).shape.blocks }
    requires other { 0 ≢ (T.setting steps.old).graph.block (T.setting steps.old).graph.root }
    requires hands { (T.view steps.old).hands ≡ [] }
    requires room { many * 2 ≤ T.KeyWords.spare steps.old }
{
    for i in 0..many {
        let _ = i;
        turn(steps);
    }
}

/// Takes of a job that nobody posts.
pub(crate) fn takes<T: Steps>(steps: &mut T, row: u32, key: Key, many: u32)
    requires known { KnowsKey (T.setting steps.old) (T.view steps.old) row key.0 }
    requires room { many ≤ T.KeyWords.spare steps.old }
{
    for i in 0..many {
        let _ = (i, key);
        let _ = steps.take(row, Job::Explore);
    }
}

/// Claims of a key, of which the first makes its row and the others find it.
pub(crate) fn claims<T: Steps>(steps: &mut T, key: Key, many: u32)
    requires may { T.KeyWords.may steps.old key.0 }
    requires room { many ≤ T.KeyWords.spare steps.old }
{
    for i in 0..many {
        let _ = i;
        let _ = find_or_make(steps, key);
    }
}

/// Loads of what is pending.
pub(crate) fn loads<T: Steps>(steps: &mut T, many: u32) {
    for _ in 0..many {
        let _ = steps.load_pending();
    }
}
