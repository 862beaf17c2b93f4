//! What the words of a command make of a graph file, on one line.
ghost use Rattle.std.specs.Prelude.{◌≡◌, IfOk, length};

use graph_model::{Keys, NoProbe, Text};
use graph_runner::{End, run_command};
use io_edge::{MemSink, MemSource};
use std::alloc::{AllocError, Global};
use std::sync::Wait;
use std::thread::Threads;

// More bytes than any of these commands writes.
const ROOM: usize = 1_000_000;

/// Fowler, Noll and Vo's sum of no bytes.
pub(crate) const NO_BYTES: u64 = 0xcbf2_9ce4_8422_2325;

/// Fowler, Noll and Vo's sum of 64 bits, carried on over more bytes.
pub(crate) fn sum_of(before: u64, bytes: &[u8]) -> u64 {
    let mut sum = before;
    for byte in bytes {
        sum = (sum ^ u64::from(*byte)).wrapping_mul(0x100_0000_01b3);
    }
    sum
}

fn words_of(alloc: Global, line: &str) -> Result<Vec<String>, AllocError> {
    let mut words = Vec::new(alloc);
    for word in line.split_ascii_whitespace() {
        words.push(String::from_str(alloc, word)?)?;
    }
    Ok(words)
}

// What is read, with its lines apart.
fn text_of(alloc: Global, line: &str) -> Result<Text, AllocError> {
    let mut bytes = Vec::new(alloc);
    for byte in line.as_bytes() {
        bytes.push(if *byte == b'\t' { b'\n' } else { *byte })?;
    }
    Ok(Text::from_vec(bytes))
}

fn probes_of(alloc: Global) -> Result<Vec<NoProbe>, AllocError>
    ensures { IfOk result (λ probes. length probes.items ≡ 64) }
{
    vec![in alloc; NoProbe; 64]
}

fn line_count(bytes: &[u8]) -> usize {
    bytes.iter().filter(|byte| **byte == b'\n').count()
}

// The bytes up to the first newline.
fn first_line(bytes: &[u8]) -> &[u8] {
    match bytes.iter().position(|byte| *byte == b'\n') {
        Some(end) => &bytes[..end],
        None => bytes,
    }
}

/// The status and the message; or of what was written the number of lines, the sum and the first line.
pub(crate) fn answer_of<R: Threads + Wait + Sync>(
    rt: &R,
    alloc: Global,
    words: &str,
    text: &str,
) -> Result<Vec<u8>, AllocError> {
    let words = words_of(alloc, words)?;
    let text = text_of(alloc, text)?;
    let mut source = MemSource::new(text, ROOM, Keys::new(alloc));
    let mut sink = MemSink::new(Text::new(alloc), ROOM, Keys::new(alloc));
    sink.reserve(ROOM)?;
    let probes = probes_of(alloc)?;
    let End {
        status,
        message,
        records: _,
        probes: _,
    } = run_command(rt, alloc, words.as_slice(), &mut source, &mut sink, probes);
    if status > 0 {
        let mut line = format!(in alloc; "{status} ")?.into_bytes();
        line.extend_from_slice(message.as_slice())?;
        return Ok(line);
    }
    let written = sink.as_slice();
    let lines = line_count(written);
    let sum = sum_of(NO_BYTES, written);
    let mut line = format!(in alloc; "0 {lines} lines {sum} ")?.into_bytes();
    line.extend_from_slice(first_line(written))?;
    line.push(b'\n')?;
    Ok(line)
}
