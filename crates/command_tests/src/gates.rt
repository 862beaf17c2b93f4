//! Gates that show that two workers compute at the same time: who computes first waits until another one computes.

use crate::command::{WHOLE, answer_with};
use graph_model::{Key, Probe, Text};
use std::alloc::{AllocError, Global};
use std::hint::spin_loop;
use std::process::Abort;
use std::sync::Wait;
use std::sync::atomic::{AtomicU64, Ordering};
use std::test::Fail;
use std::thread;
use std::thread::Threads;

// How often a gate is looked at. A gate that stays shut for so long fails its test.
const LIMIT: u32 = 10_000_000;

// The keys that the gate is for, what was noted of them, and whether the limit was reached.
#[derive(Drop)]
struct Gate {
    lowest: u64,
    highest: u64,
    // The first key of these that was noted, and one more; or 0.
    first: AtomicU64,
    // Whether another key of these was noted.
    opened: AtomicU64,
    late: AtomicU64,
}

fn gate_of(lowest: u64, highest: u64) -> Gate {
    Gate {
        lowest,
        highest,
        first: AtomicU64::new(0),
        opened: AtomicU64::new(0),
        late: AtomicU64::new(0),
    }
}

impl Gate {
    // Waits until another key is noted.
    fn hold(&self) {
        for _ in 0..LIMIT {
            if self.opened.load(Ordering::SeqCst) == 1 {
                return;
            }
            thread::yield_now();
            spin_loop();
        }
        self.late.store(1, Ordering::SeqCst);
    }

    fn pass(&self, key: u64) {
        if key < self.lowest || key > self.highest {
            return;
        }
        let mark = key.wrapping_add(1);
        match self
            .first
            .compare_exchange(0, mark, Ordering::SeqCst, Ordering::SeqCst)
        {
            Ok(_) => self.hold(),
            Err(first) => {
                if first != mark {
                    self.opened.store(1, Ordering::SeqCst);
                }
            }
        }
    }

    fn is_late(&self) -> bool {
        self.late.load(Ordering::SeqCst) == 1
    }

    fn is_open(&self) -> bool {
        self.opened.load(Ordering::SeqCst) == 1
    }
}

// Holds the first note of a key of its gate.
#[derive(Drop)]
struct GateProbe<'a> {
    gate: &'a Gate,
}

impl<'a> Probe for GateProbe<'a> {
    ghost use Rattle.std.specs.Prelude.{None, ◌^◌};

    ghost notes = { λ _. None };

    ghost spare = { λ _. 2 ^ 32 };

    fn reserve(&mut self, _n: u32) -> Result<(), AllocError> {
        Ok(())
    }

    fn note(&mut self, key: Key, _life: u32) {
        self.gate.pass(key.0);
    }
}

fn probes_at<'a>(alloc: Global, gate: &'a Gate) -> Result<Vec<GateProbe<'a>>, AllocError> {
    let mut probes = Vec::new(alloc);
    for _ in 0..64 {
        probes.push(GateProbe { gate })?;
    }
    Ok(probes)
}

// Three strikes at three points on three kinds of target.
const STRUCK: &str =
    r#"{"version":1,"sink":4,"tasks":[{"key":1,"formula":"5"},{"key":2,"formula":"$0+1","inputs":[1]},{"key":3,"formula":"$0*2","inputs":[1]},{"key":4,"formula":"$0-$1","inputs":[2,3]}],"faults":[{"task":1,"life":1,"point":"computed","target":"notify","word":0},{"task":4,"life":1,"point":"ready","target":"descriptor"},{"task":2,"life":1,"point":"notified","target":"block"}]}"#;

// Four tiles of three vertices.
const MATRIX: &str = "3 2\n- 4 7\n- - 1\n- - -\n";

// Runs the text's graph with probes that hold the first of these keys, and compares what is written.
fn overlaps<R: Threads + Wait + Sync + Abort>(
    rt: &R,
    alloc: Global,
    gate: &Gate,
    line: &str,
    text: &str,
    written: &str,
) -> Result<(), Fail> {
    let probes = probes_at(alloc, gate)?;
    let text = Text::from_slice(alloc, text.as_bytes())?;
    let end = answer_with(rt, alloc, line, text, WHOLE, WHOLE, probes)?;
    assert!(rt; end.is(0, "", written), "{line}");
    assert!(rt; gate.is_open(), "{line}");
    assert!(rt; !gate.is_late(), "{line}");
    Ok(())
}

#[test]
fn two_tasks_at_once(rt: HostRuntime) -> Result<(), Fail> {
    for line in ["run --workers 2", "run", "run --workers 64"] {
        overlaps(&rt, rt.alloc(), &gate_of(2, 3), line, STRUCK, "value -4\n")?;
    }
    Ok(())
}

// The keys 0 to 3 load the four tiles.
#[test]
fn two_tiles_at_once(rt: HostRuntime) -> Result<(), Fail> {
    for line in ["paths --workers 2", "paths"] {
        overlaps(
            &rt,
            rt.alloc(),
            &gate_of(0, 3),
            line,
            MATRIX,
            "0 4 5\n- 0 1\n- - 0\n",
        )?;
    }
    Ok(())
}
