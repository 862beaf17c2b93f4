ghost use Rattle.std.specs.Prelude.{◌≡◌, ◌<◌, ◌≤◌, None, IfOk, length};
ghost use Rattle.io_edge.specs.Causes.{HasCause, Rose};

use super::edge::{Failed, Sink, Source};
use std::io::{Error, ErrorKind, Read, Write};
use std::marker::Model;

// A call that was interrupted is tried again 64 times.
const CALLS: u32 = 65;

// Counts an error. The answer is whether the call was only interrupted.
fn count_error(faults: &mut u64, error: &Error) -> bool
    ensures risen { Rose faults.old faults.new }
    ensures later { faults.old ≤ faults.new }
{
    *faults = faults.saturating_add(1);
    error.kind() == ErrorKind::Interrupted
}

/// A reader of std. It tells nothing of its bytes. A call that is interrupted is tried again, at most 64 times.
#[derive(Drop)]
pub struct StdSource<R> {
    reader: R,
    faults: u64,
}

// Contracts see the count of faults.
impl<R> Model for StdSource<R> {
    ghost use Rattle.std.specs.Prelude.{ℕ};

    ghost Value = { ℕ };

    ghost view = { λ s. s.faults };
}

impl<R: Read> StdSource<R> {
    pub fn new(reader: R) -> StdSource<R>
        ensures { result ≡ 0 }
    {
        StdSource { reader, faults: 0 }
    }
}

impl<R: Read> Source for StdSource<R> {
    ghost left = { λ _. None };

    ghost faults = { λ faults. faults };

    fn read(&mut self, buf: &mut [u8]) -> Result<usize, Failed> {
        for _call in 0..CALLS {
            match self.reader.read(buf) {
                Ok(count) => return Ok(count),
                Err(error) => {
                    if !count_error(&mut self.faults, &error) {
                        return Err(Failed);
                    }
                }
            }
        }
        Err(Failed)
    }
}

/// A writer of std, which is flushed after each write. It tells nothing of its bytes. A call that is interrupted is
/// tried again, at most 64 times.
#[derive(Drop)]
pub struct StdSink<W> {
    writer: W,
    faults: u64,
}

// Contracts see the count of faults.
impl<W> Model for StdSink<W> {
    ghost use Rattle.std.specs.Prelude.{ℕ};

    ghost Value = { ℕ };

    ghost view = { λ s. s.faults };
}

impl<W: Write> StdSink<W> {
    pub fn new(writer: W) -> StdSink<W>
        ensures { result ≡ 0 }
    {
        StdSink { writer, faults: 0 }
    }
}

// Writes once. A write of no bytes is an error.
fn write_some<W: Write>(writer: &mut W, piece: &[u8]) -> Result<usize, Error>
    ensures { IfOk result (λ n. (0 < n) × (n ≤ length piece.now)) }
{
    match writer.write(piece)? {
        0 => Err(ErrorKind::WriteZero.into()),
        count => Ok(count),
    }
}

impl<W: Write> StdSink<W> {
    // Writes bytes from the front of the piece, at least one.
    fn take(&mut self, piece: &[u8]) -> Result<usize, Failed>
        ensures some { IfOk result (λ n. (0 < n) × (n ≤ length piece.now)) }
        ensures cause { HasCause self.old self.new result }
    {
        for _call in 0..CALLS {
            match write_some(&mut self.writer, piece) {
                Ok(count) => return Ok(count),
                Err(error) => {
                    if !count_error(&mut self.faults, &error) {
                        return Err(Failed);
                    }
                }
            }
        }
        Err(Failed)
    }

    fn flush(&mut self) -> Result<(), Failed>
        ensures cause { HasCause self.old self.new result }
    {
        for _call in 0..CALLS {
            match self.writer.flush() {
                Ok(()) => return Ok(()),
                Err(error) => {
                    if !count_error(&mut self.faults, &error) {
                        return Err(Failed);
                    }
                }
            }
        }
        Err(Failed)
    }
}

impl<W: Write> Sink for StdSink<W> {
    ghost written = { λ _. None };

    ghost faults = { λ faults. faults };

    fn write(&mut self, piece: &[u8]) -> Result<usize, Failed> {
        let count = self.take(piece)?;
        self.flush()?;
        Ok(count)
    }
}
