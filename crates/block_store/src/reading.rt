//! Reading a version of a block.
ghost use Rattle.std.specs.Prelude.{◌≡◌, ◌≤◌, ◌<◌, ◌+◌, length};
ghost use Rattle.block_store.specs.Turned.{IsTaken, ReadsNext, Turns, read_home, read_item, read_of};
ghost use Rattle.core_state.specs.Guards.{AtWork, CanTakeTurn};
ghost use Rattle.core_state.specs.Events.{Event as event};
ghost use Rattle.core_state.specs.declared.views.Item.{Item};
ghost use Rattle.core_steps.specs.Seat.{IsStep};

use crate::answers::Read;
use core_state::BlockCells;
use core_steps::Steps;
use graph_model::Found;

// What reading this version answers of a block that was taken.
fn told(taken: &BlockCells, version: u32) -> Read
    ensures { result ≡ read_of version taken.now }
{
    if taken.tag != version {
        return Read::Bad {
            found: Found::Other { version: taken.tag },
        };
    }
    if taken.struck {
        return Read::Bad {
            found: Found::Struck { version },
        };
    }
    Read::Good
}

/// Brings a block home that was taken to be read. Good copied the cells of the version, which are the serial
/// value of its writer; Bad says what stood there. It is never Busy.
pub fn end_read<T: Steps>(
    steps: &mut T,
    block: u32,
    version: u32,
    taken: BlockCells,
    into: &mut [i64],
) -> Read
    requires taken { IsTaken (T.setting steps.old) (T.view steps.old) block taken }
    requires reads { ReadsNext (T.setting steps.old) (T.view steps.old) block version }
    requires cells { length into.old ≡ (T.setting steps.old).graph.cells block }
    requires room { 1 ≤ T.spare steps.old }

    ensures told { result ≡ read_of version taken }
    ensures copied { result ≡ Read.Good → into.new ≡ taken.cells }
    ensures value { result ≡ Read.Good → 0 < version → into.new ≡ (T.setting steps.old).graph.value ((T.setting steps.old).graph.writer block version) }
    ensures work { (x : Item) → AtWork (T.view steps.old) x → AtWork (T.view steps.new) (read_item block version result x) }

    ensures step { IsStep T.setting T.view T.made T.last T.shown T.happened T.lender T.others (event.give_read block taken) steps.old steps.new }
    ensures room { T.spare steps.old ≤ T.spare steps.new + 1 }
{
    let read = told(&taken, version);
    if let Read::Good = read {
        into.copy_from_slice(taken.cells.as_slice());
    }
    steps.give_read(block, taken);
    read
}

/// Reads a version of a block. Busy comes exactly where the block's turn word was seen taken.
pub fn read_into<T: Steps>(steps: &mut T, block: u32, version: u32, into: &mut [i64]) -> Read
    requires can { CanTakeTurn (T.setting steps.old) (T.view steps.old) block }
    requires reads { ReadsNext (T.setting steps.old) (T.view steps.old) block version }
    requires cells { length into.old ≡ (T.setting steps.old).graph.cells block }
    requires room { 2 ≤ T.spare steps.old }

    ensures value { result ≡ Read.Good → 0 < version → into.new ≡ (T.setting steps.old).graph.value ((T.setting steps.old).graph.writer block version) }
    ensures work { (x : Item) → AtWork (T.view steps.old) x → AtWork (T.view steps.new) (read_item block version result x) }

    ensures step { Turns T.setting T.view T.made T.last T.shown T.happened T.lender T.others block result (read_of version) (read_home block result) steps.old steps.new }
    ensures room { T.spare steps.old ≤ T.spare steps.new + 2 }
{
    match steps.take_turn(block) {
        None => Read::Busy,
        Some(taken) => end_read(steps, block, version, taken, into),
    }
}
