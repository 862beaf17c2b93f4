//! The strikes below a matrix.

ghost use Rattle.std.specs.Prelude.{◌≡◌, ◌<◌, ◌≤◌, ◌+◌, ◌^◌, IfSome};
ghost use Rattle.apsp_graph.specs.Lines.{words_of};
ghost use Rattle.apsp_graph.specs.Reading.{Gives, strikes_from};
ghost use Rattle.apsp_graph.specs.Steps.{words_left};
ghost use Rattle.apsp_graph.specs.Strikes.{strike_of, within, point_of, target_of, bare_target};

use crate::fault::MatrixFault;
use crate::lines::{Lines, next_word};
use crate::numbers::number;
use graph_model::{FaultPlan, Key, MOST_STRIKES, Point, Strike, Target};
use std::alloc::Global;

/// The plan that the lines tell. Empty lines are skipped.
pub fn strikes(alloc: Global, lines: Lines, top: u64) -> Result<FaultPlan, MatrixFault>
    requires { top < 4369 }
    ensures { Gives (λ x. x) result (strikes_from top lines.entry.number 4096 (words_left lines.entry)) }
{
    let mut strikes = Vec::new(alloc);
    let mut at = lines;
    while let Some((line, after)) = at.next() {
        let Some(_) = next_word(line) else {
            at = after;
            continue;
        };
        let Some(found) = strike(line, top) else {
            return Err(MatrixFault::Fault { line: at.number });
        };
        if strikes.len() >= MOST_STRIKES {
            return Err(MatrixFault::Fault { line: at.number });
        }
        strikes.push(found)?;
        at = after;
    }
    Ok(FaultPlan::of(strikes))
}

#[tactic(auto, unfolding(crate::specs::Strikes::strike_of))]
fn strike(line: &[u8], top: u64) -> Option<Strike>
    requires { top < 4369 }
    ensures value { result ≡ strike_of top (words_of line.now) }
    ensures key { IfSome result (λ s. s.key.0 < 2 ^ 63) }
{
    let (name, rest) = next_word(line)?;
    let (key, rest) = next_word(rest)?;
    let (life, rest) = next_word(rest)?;
    let (point, rest) = next_word(rest)?;
    let (target, rest) = next_word(rest)?;
    if name != b"fault".as_slice() {
        return None;
    }
    Some(Strike {
        key: Key(within(key, 0, top)?),
        life: within(life, 1, 65535)? as u32,
        point: point_of(point)?,
        target: target_of(target, rest)?,
    })
}

#[tactic(auto, unfolding(crate::specs::Strikes::within))]
fn within(word: &[u8], least: u64, greatest: u64) -> Option<u64>
    requires { greatest < 4294967296 }
    ensures value { result ≡ within least greatest word.now }
    ensures small { IfSome result (λ v. v ≤ greatest) }
{
    let value = number(word)?;
    if value < least || value > greatest {
        return None;
    }
    Some(value)
}

#[tactic(auto, unfolding(crate::specs::Strikes::point_of))]
fn point_of(word: &[u8]) -> Option<Point>
    ensures { result ≡ point_of word.now }
{
    if word == b"explored".as_slice() {
        Some(Point::Explored)
    } else if word == b"ready".as_slice() {
        Some(Point::Ready)
    } else if word == b"computed".as_slice() {
        Some(Point::Computed)
    } else if word == b"notified".as_slice() {
        Some(Point::Notified)
    } else {
        None
    }
}

#[tactic(auto, unfolding(crate::specs::Strikes::target_of))]
fn target_of(word: &[u8], rest: &[u8]) -> Option<Target>
    ensures { result ≡ target_of word.now (words_of rest.now) }
{
    match next_word(rest) {
        None => bare_target(word),
        Some((number, rest)) => {
            if word != b"notify".as_slice() || next_word(rest).is_some() {
                return None;
            }
            Some(Target::Notify {
                word: within(number, 0, 15)? as u32,
            })
        }
    }
}

#[tactic(auto, unfolding(crate::specs::Strikes::bare_target))]
fn bare_target(word: &[u8]) -> Option<Target>
    ensures { result ≡ bare_target word.now }
{
    if word == b"descriptor".as_slice() {
        Some(Target::Descriptor)
    } else if word == b"notify".as_slice() {
        Some(Target::Notify { word: 0 })
    } else if word == b"block".as_slice() {
        Some(Target::Block)
    } else {
        None
    }
}
