ghost use Rattle.std.specs.Prelude.{◌≡◌, ℕ, [], List, length, map, string_bytes};
ghost use Rattle.graph_model.specs.Notes.{Note};
ghost use Rattle.command_words.specs.Meaning.{StandsFor, asked};
ghost use Rattle.graph_runner.specs.Commands.{ChecksCome, Comes, Makes, Shows, WordsMake, WordsShow};
ghost use Rattle.graph_runner.specs.Complete.{ChecksComplete, Completes};
ghost use Rattle.graph_runner.specs.Notes.{Told};
ghost use Rattle.graph_runner.specs.Writing.{Tells};
ghost use Rattle.graph_runner.specs.declared.ending.Ending.{Ending};

use crate::ending::Ending;
use crate::finish::{CheckEnd, finish};
use crate::paths::solved;
use crate::runs::{drilled, ran};
use crate::serve::{checked, printed};
use crate::terms::terms_of;
use command_words::{Command, command_of};
use graph_model::{Probe, Record, Text};
use io_edge::{Sink, Source};
use std::alloc::Global;
use std::sync::Wait;
use std::thread::Threads;

/// What a command ends with.
#[derive(Drop)]
pub struct End<P> {
    /// The status that the program ends with.
    pub status: u8,
    /// The line for standard error, with its newline; empty with the statuses 0 and 8.
    pub message: Text,
    /// What was done, in no order.
    pub records: Vec<Record>,
    /// The probes that were handed in, in their order.
    pub probes: Vec<P>,
}

// What a command makes that runs nothing. All but `check` and `print` are a wrong use here.
fn shown<S: Source>(alloc: Global, command: &Command, source: &mut S) -> Result<Text, Ending>
    ensures { Shows (asked command.now) (record { left = S.left source.old; left_after = S.left source.new; faults = S.faults source.old; faults_after = S.faults source.new }) result }
{
    match command {
        Command::Check => checked(alloc, source),
        Command::Print => printed(alloc, source),
        Command::Run { .. } => Err(Ending::Usage),
        Command::Replay { .. } => Err(Ending::Usage),
        Command::Paths { .. } => Err(Ending::Usage),
        Command::Drill { .. } => Err(Ending::Usage),
    }
}

// What the words make of the source, where they check or print.
fn words_shown<S: Source>(alloc: Global, words: &[String], source: &mut S) -> Result<Text, Ending>
    ensures { WordsShow (map string_bytes words.now) (record { left = S.left source.old; left_after = S.left source.new; faults = S.faults source.old; faults_after = S.faults source.new }) result }
{
    match command_of(alloc, words)? {
        Some(command) => shown(alloc, &command, source),
        None => Err(Ending::Usage),
    }
}

/// Checks or prints a graph file. The words are those of the command line without the program's name.
pub fn check_command<S: Source, K: Sink>(
    alloc: Global,
    words: &[String],
    source: &mut S,
    sink: &mut K,
) -> CheckEnd
    ensures comes { (came : Ending) × Tells result.status result.message came
        × ChecksCome (map string_bytes words.now)
        (record { left = S.left source.old; left_after = S.left source.new; faults = S.faults source.old; faults_after = S.faults source.new })
        (record { written = K.written sink.old; written_after = K.written sink.new; faults = K.faults sink.old; faults_after = K.faults sink.new }) came }
    ensures complete { ChecksComplete (map string_bytes words.now)
        (record { left = S.left source.old; left_after = S.left source.new; faults = S.faults source.old; faults_after = S.faults source.new })
        (record { written = K.written sink.old; written_after = K.written sink.new; faults = K.faults sink.old; faults_after = K.faults sink.new }) result.status }
{
    let made = words_shown(alloc, words, source);
    finish(alloc, made, sink)
}

// What a command makes of the source.
fn served<R: Threads + Wait + Sync, S: Source, P: Probe + Drop>(
    rt: &R,
    alloc: Global,
    command: &Command,
    source: &mut S,
    probes: &mut Vec<P>,
    records: &mut Vec<Record>,
) -> Result<Text, Ending>
    requires words { (words : List (List ℕ)) × StandsFor words (asked command.now) }
    requires probes { length probes.old.items ≡ 64 }
    requires records { records.old.items ≡ [] }
    ensures { (news : List (List Note)) × Told P.notes probes.old.items probes.new.items news
        × Makes (asked command.now) (record { left = S.left source.old; left_after = S.left source.new; faults = S.faults source.old; faults_after = S.faults source.new }) records.new.items news result }
{
    let Some(terms) = terms_of(command) else {
        return shown(alloc, command, source);
    };
    match command {
        Command::Drill { number, .. } => drilled(rt, alloc, *number, &terms, probes, records),
        Command::Paths { .. } => solved(rt, alloc, source, &terms, probes, records),
        _ => ran(rt, alloc, source, &terms, probes, records),
    }
}

// What the words make of the source.
fn words_served<R: Threads + Wait + Sync, S: Source, P: Probe + Drop>(
    rt: &R,
    alloc: Global,
    words: &[String],
    source: &mut S,
    probes: &mut Vec<P>,
    records: &mut Vec<Record>,
) -> Result<Text, Ending>
    requires probes { length probes.old.items ≡ 64 }
    requires records { records.old.items ≡ [] }
    ensures { (news : List (List Note)) × Told P.notes probes.old.items probes.new.items news
        × WordsMake (map string_bytes words.now) (record { left = S.left source.old; left_after = S.left source.new; faults = S.faults source.old; faults_after = S.faults source.new }) records.new.items news result }
{
    match command_of(alloc, words)? {
        Some(command) => served(rt, alloc, &command, source, probes, records),
        None => Err(Ending::Usage),
    }
}

/// Runs, checks or prints a graph. The words are those of the command line without the program's name.
///
/// Each of the first probes is told what one worker computes. All probes come back in their order. The workers of all
/// runs but `replay` have a thread each, for which this call waits.
pub fn run_command<R: Threads + Wait + Sync, S: Source, K: Sink, P: Probe + Drop>(
    rt: &R,
    alloc: Global,
    words: &[String],
    source: &mut S,
    sink: &mut K,
    probes: Vec<P>,
) -> End<P>
    requires { length probes.items ≡ 64 }
    ensures comes { (came : Ending) × (news : List (List Note)) × Tells result.status result.message came
        × Told P.notes probes.items result.probes.items news
        × Comes (map string_bytes words.now)
        (record { left = S.left source.old; left_after = S.left source.new; faults = S.faults source.old; faults_after = S.faults source.new })
        (record { written = K.written sink.old; written_after = K.written sink.new; faults = K.faults sink.old; faults_after = K.faults sink.new })
        result.records.items news came }
    ensures complete { Completes (map string_bytes words.now)
        (record { left = S.left source.old; left_after = S.left source.new; faults = S.faults source.old; faults_after = S.faults source.new })
        (record { written = K.written sink.old; written_after = K.written sink.new; faults = K.faults sink.old; faults_after = K.faults sink.new }) result.status }
{
    let mut probes = probes;
    let mut records = Vec::new(alloc);
    let made = words_served(rt, alloc, words, source, &mut probes, &mut records);
    let CheckEnd { status, message } = finish(alloc, made, sink);
    End {
        status,
        message,
        records,
        probes,
    }
}
