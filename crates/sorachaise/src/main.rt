//! The program: it runs the command that its words stand for, on standard input and output.
#![tactic(auto)]

ghost use Rattle.std.specs.Prelude.{◌≡◌, IfOk, length};

use graph_model::NoProbe;
use graph_runner::{End, run_command};
use io_edge::{StdSink, StdSource};
use std::alloc::{AllocError, Global};
use std::env;
use std::io::{ErrorKind, Write};
use std::process::ExitCode;
use std::rt::Env;
use std::sync::Wait;
use std::thread::Threads;

// One probe for each worker that a run may have.
const PROBES: usize = 64;

const OUT_OF_MEMORY: u8 = 8;

// The words behind the program's name. A command line that is no text has none, which stand for no command.
fn words_of(rt: &HostRuntime) -> Result<Vec<String>, AllocError> {
    let mut words = Vec::new(rt.alloc());
    match env::args(rt) {
        Ok(args) => {
            for word in args.skip(1) {
                words.push(word)?;
            }
            Ok(words)
        }
        Err(error) if error.kind() == ErrorKind::OutOfMemory => Err(AllocError),
        Err(_) => Ok(words),
    }
}

fn probes_of(alloc: Global) -> Result<Vec<NoProbe>, AllocError>
    ensures { IfOk result (λ probes. length probes.items ≡ 64) }
{
    vec![in alloc; NoProbe; PROBES]
}

// The end of the command, or want of memory before it. Threads are started by `rt`, which is the host too.
fn end_of<R: Threads + Wait + Sync>(
    rt: &R,
    host: &HostRuntime,
) -> Result<End<NoProbe>, AllocError> {
    let words = words_of(host)?;
    let probes = probes_of(host.alloc())?;
    let mut source = StdSource::new(host.stdin());
    let mut sink = StdSink::new(host.stdout());
    Ok(run_command(
        rt,
        host.alloc(),
        words.as_slice(),
        &mut source,
        &mut sink,
        probes,
    ))
}

fn main(rt: HostRuntime) -> ExitCode {
    let mut errors = rt.stderr();
    match end_of(&rt, &rt) {
        Ok(end) if end.status != OUT_OF_MEMORY => {
            let _ = errors.write_all(end.message.as_slice());
            ExitCode::from(end.status)
        }
        _ => {
            let _ = errors.write_all(b"out of memory\n");
            ExitCode::from(OUT_OF_MEMORY)
        }
    }
}
