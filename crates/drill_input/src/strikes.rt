ghost use Rattle.std.specs.Prelude.{◌≡◌, ◌≤◌, ◌<◌, ◌+◌, ◌*◌, ◌^◌, ◌++◌, ◌∷◌, [], ℕ, length, IfOk};
ghost use Rattle.graph_model.specs.Plans.{HasTaskKeys};
ghost use Rattle.drill_input.specs.Draws.{state};
ghost use Rattle.drill_input.specs.Drill.{each, point_of, target_of, drawn_strike, last_strike, drill_strikes};

use crate::draws::Draws;
use graph_model::{FaultPlan, Key, Point, Strike, Target};
use std::alloc::{AllocError, Global};

// How many strikes are drawn.
const DRAWN: u32 = 1024;

fn point_of(number: u64) -> Point
    ensures { result ≡ point_of number }
{
    match number {
        0 => Point::Explored,
        1 => Point::Ready,
        2 => Point::Computed,
        _ => Point::Notified,
    }
}

fn target_of(number: u64) -> Target
    ensures { result ≡ target_of number }
{
    match number {
        0 => Target::Descriptor,
        1 => Target::Notify { word: 0 },
        _ => Target::Block,
    }
}

// The next strike that is drawn.
fn drawn_strike(draws: &mut Draws) -> Strike
    ensures strike { (number i : ℕ) → draws.old.state ≡ state number (16256 + 3 * i) → result ≡ drawn_strike number i }
    ensures drawn { (number i : ℕ) → draws.old.state ≡ state number (16256 + 3 * i) → draws.new.state ≡ state number (16256 + 3 * (i + 1)) }
    ensures key { result.key.0 < 2 ^ 63 }
{
    let key = Key(1 + draws.next() % 8192);
    let point = point_of(draws.next() % 4);
    let target = target_of(draws.next() % 3);
    Strike {
        key,
        life: 1,
        point,
        target,
    }
}

/// The plan, whose draws come behind those of the tasks.
pub(crate) fn plan(alloc: Global, draws: &mut Draws) -> Result<FaultPlan, AllocError>
    ensures { (number : ℕ) → draws.old.state ≡ state number 16256 → IfOk result (λ plan. plan ≡ drill_strikes number) }
{
    let mut strikes = Vec::new(alloc);
    for _ in 0..DRAWN {
        strikes.push(drawn_strike(draws))?;
    }
    strikes.push(Strike {
        key: Key(10064),
        life: 1,
        point: Point::Computed,
        target: Target::Block,
    })?;
    Ok(FaultPlan::of(strikes))
}
