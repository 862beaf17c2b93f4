//! Writing a task's value to its block.
ghost use Rattle.std.specs.Prelude.{◌≡◌, ◌≤◌, ◌+◌, length};
ghost use Rattle.block_store.specs.Turned.{IsTaken, Turns, WritesNext, filled, put_home};
ghost use Rattle.core_state.specs.Guards.{CanTakeTurn};
ghost use Rattle.core_state.specs.Events.{Event as event};
ghost use Rattle.core_steps.specs.Seat.{IsStep};

use crate::answers::Put;
use core_state::BlockCells;
use core_steps::Steps;
use graph_model::{Cells, Key};

// The block with a version's cells, in the place of those that it had.
fn fill(taken: BlockCells, version: u32, from: &[i64]) -> BlockCells
    requires { length from.now ≡ length taken.cells }
    ensures { result ≡ filled version from.now }
{
    let mut cells = taken.cells.into_vec();
    cells.as_mut_slice().copy_from_slice(from);
    BlockCells {
        tag: version,
        struck: false,
        cells: Cells::from_vec(cells),
    }
}

/// Brings a block home with a task's value, unstruck. It is never Busy.
pub fn end_write<T: Steps>(
    steps: &mut T,
    key: Key,
    life: u32,
    block: u32,
    version: u32,
    taken: BlockCells,
    from: &[i64],
) -> Put
    requires taken { IsTaken (T.setting steps.old) (T.view steps.old) block taken }
    requires writes { WritesNext (T.setting steps.old) (T.view steps.old) block key.0 life version }
    requires value { from.now ≡ (T.setting steps.old).graph.value key.0 }
    requires cells { length from.now ≡ (T.setting steps.old).graph.cells block }
    requires room { 1 ≤ T.spare steps.old }

    ensures told { result ≡ Put.Done }
    ensures step { IsStep T.setting T.view T.made T.last T.shown T.happened T.lender T.others (event.give_written key.0 life block taken (filled version from.now)) steps.old steps.new }
    ensures room { T.spare steps.old ≤ T.spare steps.new + 1 }
{
    let written = fill(taken, version, from);
    steps.give_written(key, life, block, written);
    Put::Done
}

/// Writes a task's value. Busy comes exactly where the block's turn word was seen taken.
pub fn write_from<T: Steps>(
    steps: &mut T,
    key: Key,
    life: u32,
    block: u32,
    version: u32,
    from: &[i64],
) -> Put
    requires can { CanTakeTurn (T.setting steps.old) (T.view steps.old) block }
    requires writes { WritesNext (T.setting steps.old) (T.view steps.old) block key.0 life version }
    requires value { from.now ≡ (T.setting steps.old).graph.value key.0 }
    requires cells { length from.now ≡ (T.setting steps.old).graph.cells block }
    requires room { 2 ≤ T.spare steps.old }

    ensures step { Turns T.setting T.view T.made T.last T.shown T.happened T.lender T.others block result (λ x. Put.Done) (put_home key.0 life block version from.now result) steps.old steps.new }
    ensures room { T.spare steps.old ≤ T.spare steps.new + 2 }
{
    match steps.take_turn(block) {
        None => Put::Busy,
        Some(taken) => end_write(steps, key, life, block, version, taken, from),
    }
}
