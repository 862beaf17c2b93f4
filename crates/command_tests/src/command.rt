//! Commands that are run on sources and sinks in memory.

use graph_model::{Keys, ListProbe, Probe, Record, Text};
use graph_runner::{End, run_command};
use io_edge::{MemSink, MemSource, read_all};
use std::alloc::{AllocError, Global};
use std::process::Abort;
use std::sync::Wait;
use std::test::Fail;
use std::thread::Threads;

/// What the runtime of a test can do.
pub(crate) trait Runtime: Abort + Threads + Wait + Sync {}

impl<R: Abort + Threads + Wait + Sync> Runtime for R {}

/// Four tasks: two read the first, and the last reads these two.
pub(crate) const DIAMOND: &str =
    r#"{"version":1,"sink":4,"tasks":[{"key":1,"formula":"5"},{"key":2,"formula":"$0+1","inputs":[1]},{"key":3,"formula":"$0*2","inputs":[1]},{"key":4,"formula":"$0-$1","inputs":[2,3]}]}"#;

/// The line that tells which words there are.
pub(crate) const USAGE: &str =
    "usage: run, replay, paths, drill NUMBER, check or print, with the options of the manual";

// More bytes than any of these commands reads or writes.
const ALL: usize = 100_000_000;

/// How a source or a sink behaves: how many bytes a call moves, and the number of a call that fails, or 0.
#[derive(Clone, Copy)]
pub(crate) struct Pace {
    pub(crate) per_call: usize,
    pub(crate) fault: u64,
}

/// All bytes in one call.
pub(crate) const WHOLE: Pace = Pace {
    per_call: ALL,
    fault: 0,
};

/// What a command came to.
#[derive(Drop)]
pub(crate) struct Answer<P> {
    pub(crate) status: u8,
    pub(crate) message: Text,
    pub(crate) written: Vec<u8>,
    /// How many bytes of the input were not read.
    pub(crate) unread: usize,
    pub(crate) records: Vec<Record>,
    pub(crate) probes: Vec<P>,
}

fn probes_of(alloc: Global) -> Result<Vec<ListProbe>, AllocError> {
    let mut probes = Vec::new(alloc);
    for _ in 0..64 {
        probes.push(ListProbe::new(alloc))?;
    }
    Ok(probes)
}

/// The words of a line.
pub(crate) fn words_of(alloc: Global, line: &str) -> Result<Vec<String>, AllocError> {
    let mut words = Vec::new(alloc);
    for word in line.split_ascii_whitespace() {
        words.push(String::from_str(alloc, word)?)?;
    }
    Ok(words)
}

fn faults_of(alloc: Global, fault: u64) -> Result<Keys, AllocError> {
    let mut faults = Keys::new(alloc);
    if fault > 0 {
        faults.push(fault)?;
    }
    Ok(faults)
}

/// Runs the words of a line on a text, with these probes.
pub(crate) fn answer_with<P: Probe + Drop>(
    rt: &impl Runtime,
    alloc: Global,
    line: &str,
    text: Text,
    read: Pace,
    write: Pace,
    probes: Vec<P>,
) -> Result<Answer<P>, Fail> {
    let words = words_of(alloc, line)?;
    assert!(rt; read.per_call > 0);
    assert!(rt; write.per_call > 0);
    let mut source = MemSource::new(text, read.per_call, faults_of(alloc, read.fault)?);
    let mut sink = MemSink::new(
        Text::new(alloc),
        write.per_call,
        faults_of(alloc, write.fault)?,
    );
    sink.reserve(1_000_000)?;
    assert_eq!(rt; probes.len(), 64);
    let end = run_command(rt, alloc, words.as_slice(), &mut source, &mut sink, probes);
    let End {
        status,
        message,
        records,
        probes,
    } = end;
    let unread = match read_all(alloc, &mut source, ALL) {
        Ok(rest) => rest.len(),
        Err(_) => 0,
    };
    Ok(Answer {
        status,
        message,
        written: sink.as_slice().to_vec(alloc)?,
        unread,
        records,
        probes,
    })
}

/// Runs the words of a line on a text, with probes that keep their notes.
pub(crate) fn answer_of(
    rt: &impl Runtime,
    alloc: Global,
    line: &str,
    text: Text,
    read: Pace,
    write: Pace,
) -> Result<Answer<ListProbe>, Fail> {
    let probes = probes_of(alloc)?;
    answer_with(rt, alloc, line, text, read, write, probes)
}

/// Runs the words of a line on bytes that come and go whole.
pub(crate) fn answer_on(
    rt: &impl Runtime,
    alloc: Global,
    line: &str,
    bytes: &[u8],
) -> Result<Answer<ListProbe>, Fail> {
    answer_of(
        rt,
        alloc,
        line,
        Text::from_slice(alloc, bytes)?,
        WHOLE,
        WHOLE,
    )
}

/// Whether a text is this line with a newline, or both are empty.
pub(crate) fn is_line(text: &[u8], line: &str) -> bool {
    match text.split_last() {
        Some((last, front)) => *last == b'\n' && front == line.as_bytes(),
        None => line.is_empty(),
    }
}

impl<P> Answer<P> {
    /// Compares the status, the message's line and what was written.
    pub(crate) fn is(&self, status: u8, message: &str, written: &str) -> bool {
        self.status == status
            && is_line(self.message.as_slice(), message)
            && self.written.as_slice() == written.as_bytes()
    }
}

/// The words of a command, its text, the status, the message's line without its newline, and what was written.
pub(crate) type Case<'a> = (&'a str, &'a str, u8, &'a str, &'a str);

/// Runs a command and compares what it came to. All was read, or nothing where the words are no command or a drill.
pub(crate) fn compare(rt: &impl Runtime, alloc: Global, case: Case<'_>) -> Result<(), Fail> {
    let (line, text, status, message, written) = case;
    let end = answer_on(rt, alloc, line, text.as_bytes())?;
    assert!(rt; end.is(status, message, written), "{line} {text}");
    let reads_none = status == 2 || line.starts_with("drill");
    assert_eq!(rt; end.unread, if reads_none { text.len() } else { 0 });
    Ok(())
}

/// Compares each of these cases.
pub(crate) fn compare_all(
    rt: &impl Runtime,
    alloc: Global,
    cases: &[Case<'_>],
) -> Result<(), Fail> {
    for case in cases {
        compare(rt, alloc, *case)?;
    }
    Ok(())
}

/// Compares each of these texts, and the message that refuses it whatever the words are.
pub(crate) fn compare_refusals(
    rt: &impl Runtime,
    alloc: Global,
    lines: &[&str],
    status: u8,
    refusals: &[(&str, &str)],
) -> Result<(), Fail> {
    for (text, message) in refusals {
        for line in lines {
            compare(rt, alloc, (*line, *text, status, *message, ""))?;
        }
    }
    Ok(())
}
