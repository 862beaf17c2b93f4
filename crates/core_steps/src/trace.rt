//! The steps that a seat has made. They have no bytes.
use crate::kinds::Touched;
use ghost_value::{Ghost, Gives};
use std::marker::Model;

/// How many steps, the last word, and the last claim or look. No value of it is made.
pub struct Steps;

impl Model for Steps {
    ghost use Rattle.core_steps.specs.Seat.{Trace};

    ghost Value = { Trace };

    ghost view = { λ _. record { made = 0; shown = (0, 0); last = (0, 0) } };
}

/// No step yet.
pub struct NoStep;

impl Gives<(), Steps> for NoStep {
    ghost value = { λ _. record { made = 0; shown = (0, 0); last = (0, 0) } };
}

/// A step, and those before it.
#[derive(Drop)]
pub struct Step<'a> {
    pub before: &'a Ghost<Steps>,
    pub word: Touched,
}

pub struct Stepped;

impl<'a> Gives<Step<'a>, Steps> for Stepped {
    ghost use Rattle.std.specs.Prelude.{◌+◌};

    ghost value = { λ s. record { made = s.before.now.made + 1; shown = (s.word.at, s.word.found); last = s.before.now.last } };
}

/// A claim or a look, and the steps before it.
#[derive(Drop)]
pub struct KeyStep<'a> {
    pub before: &'a Ghost<Steps>,
    pub row: u32,
    pub word: Touched,
}

impl<'a> Gives<KeyStep<'a>, Steps> for Stepped {
    ghost use Rattle.std.specs.Prelude.{◌+◌};

    ghost value = { λ s. record { made = s.before.now.made + 1; shown = (s.word.at, s.word.found); last = (s.row, s.word.found) } };
}

/// The words of a table. No value of it is made.
pub struct Words;

impl Model for Words {
    ghost use Rattle.std.specs.Prelude.{List, [], ℕ};

    ghost Value = { List ℕ };

    ghost view = { λ _. [] };
}

/// The words as they are.
#[derive(Drop)]
pub struct Standing<'a> {
    pub words: &'a Vec<u64>,
}

/// As they were found.
pub struct Found;

impl<'a> Gives<Standing<'a>, Words> for Found {
    ghost value = { λ s. s.words.now.items };
}
