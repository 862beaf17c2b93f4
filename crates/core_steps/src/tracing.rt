//! The steps that a seat has made, with one more.
ghost use Rattle.std.specs.Prelude.{◌≡◌, ◌+◌};
ghost use Rattle.core_steps.specs.Seat.{Trace};

use crate::kinds::Touched;
use crate::trace;
use ghost_value::Ghost;

/// The steps with one more.
pub fn stepped(before: &Ghost<trace::Steps>, word: Touched) -> Ghost<trace::Steps>
    ensures { result ≡ record { made = before.now.made + 1; shown = (word.at, word.found); last = before.now.last } }
{
    Ghost::of::<trace::Step<'_>, trace::Stepped>(&trace::Step { before, word })
}

/// The steps with one more, a claim or a look.
pub fn key_stepped(before: &Ghost<trace::Steps>, row: u32, word: Touched) -> Ghost<trace::Steps>
    ensures { result ≡ record { made = before.now.made + 1; shown = (word.at, word.found); last = (row, word.found) } }
{
    Ghost::of::<trace::KeyStep<'_>, trace::Stepped>(&trace::KeyStep { before, row, word })
}
