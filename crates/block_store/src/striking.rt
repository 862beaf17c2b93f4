//! Striking a task's version of its block.
ghost use Rattle.std.specs.Prelude.{◌≡◌, ◌≤◌, ◌<◌, ◌+◌, ℕ, ◌∷◌};
ghost use mathlib.Core.Option.{some};
ghost use Rattle.block_store.specs.Turned.{IsTaken, StrikesNext, Turns, blow_home, blow_of, spoiled, strikes_of, struck_home};
ghost use Rattle.core_state.specs.Guards.{CanTakeTurn, flipped};
ghost use Rattle.core_state.specs.Views.{strike_next};
ghost use Rattle.core_steps.specs.Seat.{IsStep};

use crate::answers::Blow;
use core_state::BlockCells;
use core_steps::Steps;
use graph_model::{Cells, Key};

fn complement(cell: &mut i64)
    ensures { cell.new ≡ flipped cell.old }
{
    *cell = !*cell;
}

// The block with the mark, and with each cell complemented in its place.
fn spoil(taken: BlockCells) -> BlockCells
    ensures { result ≡ spoiled taken }
{
    let mut cells = taken.cells.into_vec();
    for cell in cells.iter_mut() {
        complement(cell);
    }
    BlockCells {
        tag: taken.tag,
        struck: true,
        cells: Cells::from_vec(cells),
    }
}

/// Brings a block home: struck where it holds the version unstruck, and else as it was. The strike is made
/// either way. It is never Busy.
pub fn end_strike<T: Steps>(
    steps: &mut T,
    key: Key,
    life: u32,
    block: u32,
    version: u32,
    taken: BlockCells,
) -> Blow
    requires taken { IsTaken (T.setting steps.old) (T.view steps.old) block taken }
    requires strikes { StrikesNext (T.setting steps.old) (T.view steps.old) block key.0 life version }
    requires room { 1 ≤ T.spare steps.old }

    ensures told { result ≡ blow_of version taken }
    ensures strike { (n : ℕ) → strike_next (T.setting steps.old).graph (T.setting steps.old).plan (T.view steps.old) ≡ some n → (T.view steps.new).strikes ≡ n ∷ (T.view steps.old).strikes }

    ensures step { IsStep T.setting T.view T.made T.last T.shown T.happened T.lender T.others (struck_home key.0 life block result taken) steps.old steps.new }
    ensures room { T.spare steps.old ≤ T.spare steps.new + 1 }
{
    if taken.tag != version || taken.struck {
        steps.give_read(block, taken);
        return Blow::Missed;
    }
    let struck = spoil(taken);
    steps.give_struck(key, life, block, struck);
    Blow::Landed
}

/// Strikes a task's version of its block. Busy comes exactly where the block's turn word was seen taken.
pub fn strike<T: Steps>(steps: &mut T, key: Key, life: u32, block: u32, version: u32) -> Blow
    requires can { CanTakeTurn (T.setting steps.old) (T.view steps.old) block }
    requires strikes { StrikesNext (T.setting steps.old) (T.view steps.old) block key.0 life version }
    requires words { 0 < (T.setting steps.old).graph.notify_words key.0 }
    requires room { 2 ≤ T.spare steps.old }

    ensures strike { (n : ℕ) → strike_next (T.setting steps.old).graph (T.setting steps.old).plan (T.view steps.old) ≡ some n → (T.view steps.new).strikes ≡ strikes_of result n (T.view steps.old).strikes }

    ensures step { Turns T.setting T.view T.made T.last T.shown T.happened T.lender T.others block result (blow_of version) (blow_home key.0 life block result) steps.old steps.new }
    ensures room { T.spare steps.old ≤ T.spare steps.new + 2 }
{
    match steps.take_turn(block) {
        None => Blow::Busy,
        Some(taken) => end_strike(steps, key, life, block, version, taken),
    }
}
