ghost use Rattle.std.specs.Prelude.{◌≡◌, ◌↔◌, All, IfOk, IsTrue, false, true, is_some, map, string_bytes};
ghost use Rattle.std.specs.Option.{option_map};
ghost use Rattle.clap.specs.Words.{found_of, fault_of, FailsBy};
ghost use Rattle.clap.specs.Walk.{rows_of, rule_of};
ghost use Rattle.clap.specs.Simple.{app_of, matches_of, new_rule};
ghost use Rattle.command_words.specs.Options.{takes};
ghost use Rattle.command_words.specs.Given.{seen, slot};
ghost use Rattle.command_words.specs.Spelling.{IsLetThrough};
ghost use Rattle.command_words.specs.Reading.{Reads};
ghost use Rattle.command_words.specs.ByClap.{AnswersSpelled, TakesAll, flag_text, flagged, found_in, table_app, valued};

use crate::given::Given;
use crate::options::{Kind, Name, takes};
use clap::error::ErrorKind;
use clap::{Arg, ArgAction, ArgMatches, Command, Error};
use std::alloc::{AllocError, Global};

// An option that is followed by a value.
fn value_option<'a>(alloc: Global, name: &'a str) -> Arg<'a>
    ensures rule { rule_of result ≡ valued name.entry.now }
    ensures local { result.global ≡ false }
{
    Arg::new(alloc, name).long(name)
}

// An option that is not.
fn flag_option<'a>(alloc: Global, name: &'a str) -> Arg<'a>
    ensures rule { rule_of result ≡ flagged name.entry.now }
    ensures local { result.global ≡ false }
{
    value_option(alloc, name).action(ArgAction::SetTrue)
}

// A word that belongs to no option.
fn lone_word<'a>(alloc: Global, name: &'a str) -> Arg<'a>
    ensures rule { rule_of result ≡ new_rule name.entry.now }
    ensures local { result.global ≡ false }
{
    Arg::new(alloc, name)
}

// The options of all commands. Which command takes which of them is looked up in what was found.
fn table_command<'a>(alloc: Global) -> Result<Command<'a>, AllocError>
    ensures { IfOk result (λ command. app_of command ≡ table_app) }
{
    let workers = value_option(alloc, "workers");
    let lives = value_option(alloc, "lives");
    let records = flag_option(alloc, "records");
    let schedule = value_option(alloc, "schedule");
    let turns = value_option(alloc, "turns");
    let number = lone_word(alloc, "number");
    Command::new(alloc, "words")
        .no_binary_name(true)
        .disable_help_flag(true)
        .arg(workers)?
        .arg(lives)?
        .arg(records)?
        .arg(schedule)?
        .arg(turns)?
        .arg(number)
}

/// What `clap` makes of the words behind the first one, over the options of all commands.
#[tactic(auto, using(crate::proofs::ClapLaws::memory_spelled))]
pub fn table_matches<'a>(alloc: Global, words: &'a [String]) -> Result<ArgMatches<'a>, Error>
    ensures fails { FailsBy (fault_of table_app (map string_bytes words.entry.now)) result }
    ensures rows { IfOk result (λ m. rows_of (found_of m) ≡ matches_of table_app (map string_bytes words.entry.now)) }
    ensures meaning { All (λ word. ¬ IsLetThrough word) (map string_bytes words.entry.now) → AnswersSpelled (map string_bytes words.entry.now) result }
{
    let command = table_command(alloc)?;
    command.try_get_matches_from(words)
}

// The empty text that an option without a value is given, where clap says that it is there.
fn flag_in(found: Option<&str>) -> Option<&'static str>
    ensures { option_map (λ s. s.now) result ≡ flag_text (option_map (λ s. s.now) found.entry) }
{
    let text = found?;
    if text == "true" {
        return Some("");
    }
    None
}

// The options that clap found.
fn given_in<'a>(matches: &ArgMatches<'a>) -> Given<'a>
    ensures { seen result ≡ found_in (rows_of (found_of matches.now)) }
{
    Given {
        workers: matches.get_str("workers"),
        lives: matches.get_str("lives"),
        records: flag_in(matches.get_str("records")),
        schedule: matches.get_str("schedule"),
        turns: matches.get_str("turns"),
        number: matches.get_str("number"),
    }
}

// Whether the command takes the option, where it is given.
fn takes_given(kind: Kind, given: Given<'_>, name: Name) -> bool
    ensures { IsTrue result ↔ (is_some (slot name (seen given.entry)) ≡ true → takes kind name ≡ true) }
{
    given.slot(name).is_none() || takes(kind, name)
}

// Whether the command takes each option that is given.
fn takes_all(kind: Kind, given: Given<'_>) -> bool
    ensures { IsTrue result ↔ TakesAll kind (seen given.entry) }
{
    takes_given(kind, given, Name::Workers)
        && takes_given(kind, given, Name::Lives)
        && takes_given(kind, given, Name::Records)
        && takes_given(kind, given, Name::Schedule)
        && takes_given(kind, given, Name::Turns)
        && takes_given(kind, given, Name::Number)
}

/// What the words behind the first one give the command.
pub fn read<'a>(
    alloc: Global,
    kind: Kind,
    words: &'a [String],
) -> Result<Option<Given<'a>>, AllocError>
    requires { All (λ word. ¬ IsLetThrough word) (map string_bytes words.now) }
    ensures { IfOk result (Reads kind (map string_bytes words.entry.now)) }
{
    let matches = match table_matches(alloc, words) {
        Ok(matches) => matches,
        Err(error) => {
            if error.kind() == ErrorKind::OutOfMemory {
                return Err(AllocError);
            }
            return Ok(None);
        }
    };
    let given = given_in(&matches);
    if takes_all(kind, given) {
        return Ok(Some(given));
    }
    Ok(None)
}
