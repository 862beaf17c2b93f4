//! Sources and sinks over readers and writers of std.

use graph_model::Text;
use io_edge::{ReadEnd, StdSink, StdSource, read_all, write_all};
use std::alloc::Global;
use std::io::{ErrorKind, Read, Result as IoResult, Write};
use std::test::Fail;

// Is interrupted so many times before each call.
#[derive(Drop)]
struct Signalled<T> {
    inner: T,
    times: u32,
    left: u32,
}

fn interrupted<T>(inner: T, times: u32) -> Signalled<T> {
    Signalled {
        inner,
        times,
        left: times,
    }
}

impl<T> Signalled<T> {
    // Whether this call goes through.
    fn goes_through(&mut self) -> bool {
        if self.left > 0 {
            self.left -= 1;
            return false;
        }
        self.left = self.times;
        true
    }
}

impl<R: Read> Read for Signalled<R> {
    fn read(&mut self, buf: &mut [u8]) -> IoResult<usize> {
        if self.goes_through() {
            self.inner.read(buf)
        } else {
            Err(ErrorKind::Interrupted.into())
        }
    }
}

impl<W: Write> Write for Signalled<W> {
    fn write(&mut self, buf: &[u8]) -> IoResult<usize> {
        if self.goes_through() {
            self.inner.write(buf)
        } else {
            Err(ErrorKind::Interrupted.into())
        }
    }

    fn flush(&mut self) -> IoResult<()> {
        self.inner.flush()
    }
}

// What is read of seven bytes, where each read is interrupted so many times.
fn read_seven(alloc: Global, times: u32) -> Result<Text, ReadEnd> {
    let bytes: &[u8] = b"seven!\n";
    let mut source = StdSource::new(interrupted(bytes, times));
    read_all(alloc, &mut source, 7)
}

#[test]
fn reader_of_std(rt: HostRuntime) -> Result<(), Fail> {
    for times in [0, 1, 64] {
        match read_seven(rt.alloc(), times) {
            Ok(text) => assert_eq!(rt; text.as_slice(), b"seven!\n".as_slice()),
            Err(_) => assert!(rt; false, "{times}"),
        }
    }
    assert!(rt; matches!(read_seven(rt.alloc(), 65), Err(ReadEnd::Fault)));
    Ok(())
}

// Takes few bytes a call, and counts how often it is flushed. The first flushes are interrupted.
#[derive(Drop)]
struct Taker {
    held: Vec<u8>,
    per_call: usize,
    flushes: u32,
    interruptions: u32,
}

impl Write for Taker {
    fn write(&mut self, buf: &[u8]) -> IoResult<usize> {
        let count = buf.len().min(self.per_call);
        self.held.extend_from_slice(&buf[..count])?;
        Ok(count)
    }

    fn flush(&mut self) -> IoResult<()> {
        self.flushes = self.flushes.saturating_add(1);
        if self.flushes <= self.interruptions {
            return Err(ErrorKind::Interrupted.into());
        }
        Ok(())
    }
}

#[test]
fn writer_of_std(rt: HostRuntime) -> Result<(), Fail> {
    let cases = [
        (2, 0, true, "seven!", 3),
        (6, 64, true, "seven!", 1),
        (6, 65, false, "", 0),
        // A write of no bytes is a fault.
        (0, 0, false, "", 0),
    ];
    for (per_call, times, goes, held, flushes) in cases {
        let mut taker = Taker {
            held: Vec::new(rt.alloc()),
            per_call,
            flushes: 0,
            interruptions: 0,
        };
        let mut sink = StdSink::new(interrupted(&mut taker, times));
        let result = write_all(&mut sink, b"seven!");
        assert_eq!(rt; result.is_ok(), goes, "{times}");
        drop(sink);
        assert_eq!(rt; taker.held.as_slice(), held.as_bytes());
        assert_eq!(rt; taker.flushes, flushes);
    }
    Ok(())
}

// A flush that is interrupted is tried again by itself: what was written is not written again.
#[test]
fn flush_of_std(rt: HostRuntime) -> Result<(), Fail> {
    for (interruptions, goes, flushes) in [(1, true, 2), (64, true, 65), (65, false, 65)] {
        let mut taker = Taker {
            held: Vec::new(rt.alloc()),
            per_call: 6,
            flushes: 0,
            interruptions,
        };
        let mut sink = StdSink::new(&mut taker);
        let result = write_all(&mut sink, b"seven!");
        assert_eq!(rt; result.is_ok(), goes, "{interruptions}");
        drop(sink);
        assert_eq!(rt; taker.held.as_slice(), b"seven!".as_slice());
        assert_eq!(rt; taker.flushes, flushes);
    }
    Ok(())
}
