ghost use Rattle.std.specs.Prelude.{◌≡◌, IfOk, MatchOption};
ghost use Rattle.command_words.specs.Given.{seen};
ghost use Rattle.command_words.specs.Meaning.{Asked, asked, HasTurns, HasValues};
ghost use Rattle.command_words.specs.Building.{Builds, HasTurnsIn};

use crate::command::Command;
use crate::given::Given;
use crate::numbers::{number_of, schedule_of, value_of};
use crate::options::Kind;
use std::alloc::{AllocError, Global};

// How many turns are given: none where the graph decides.
fn turns_of(given: Given<'_>) -> Option<Option<u64>>
    ensures { HasTurnsIn (seen given.entry) result }
{
    match given.turns {
        Some(text) => match number_of(text, 0, 100_000_000) {
            Some(turns) => Some(Some(u64::from(turns))),
            None => None,
        },
        None => Some(None),
    }
}

fn run_of(given: Given<'_>) -> Option<Command>
    ensures { Builds Kind.Run (seen given.entry) result }
{
    let workers = value_of(given.workers, 1, 64, 4)?;
    let lives = value_of(given.lives, 1, 65535, 65535)?;
    Some(Command::Run {
        workers,
        lives,
        records: given.records.is_some(),
    })
}

fn replay_of(alloc: Global, given: Given<'_>) -> Result<Option<Command>, AllocError>
    ensures { IfOk result (Builds Kind.Replay (seen given.entry)) }
{
    let Some(workers) = value_of(given.workers, 1, 64, 1) else {
        return Ok(None);
    };
    let Some(lives) = value_of(given.lives, 1, 65535, 65535) else {
        return Ok(None);
    };
    let Some(turns) = turns_of(given) else {
        return Ok(None);
    };
    let Some(schedule) = schedule_of(alloc, given.schedule, workers)? else {
        return Ok(None);
    };
    Ok(Some(Command::Replay {
        workers,
        lives,
        records: given.records.is_some(),
        schedule,
        turns,
    }))
}

fn paths_of(given: Given<'_>) -> Option<Command>
    ensures { Builds Kind.Paths (seen given.entry) result }
{
    let workers = value_of(given.workers, 1, 64, 4)?;
    let lives = value_of(given.lives, 1, 65535, 65535)?;
    Some(Command::Paths { workers, lives })
}

fn drill_of(given: Given<'_>) -> Option<Command>
    ensures { Builds Kind.Drill (seen given.entry) result }
{
    let number = number_of(given.number?, 0, 4_294_967_295)?;
    let workers = value_of(given.workers, 1, 64, 4)?;
    Some(Command::Drill { number, workers })
}

/// The command with the values that are given.
pub fn built(alloc: Global, kind: Kind, given: Given<'_>) -> Result<Option<Command>, AllocError>
    ensures { IfOk result (Builds kind (seen given.entry)) }
{
    match kind {
        Kind::Run => Ok(run_of(given)),
        Kind::Replay => replay_of(alloc, given),
        Kind::Paths => Ok(paths_of(given)),
        Kind::Drill => Ok(drill_of(given)),
        Kind::Check => Ok(Some(Command::Check)),
        Kind::Print => Ok(Some(Command::Print)),
    }
}
