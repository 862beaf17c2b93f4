//! Large inputs, at the limits and one above.

use crate::command::{WHOLE, answer_of, answer_on, compare};
use graph_model::{Cause, Key, Record, Text};
use std::alloc::{AllocError, Global};
use std::test::Fail;

// A graph file that grows task by task.
#[derive(Drop)]
struct Draft {
    text: String,
    tasks: u32,
}

impl Draft {
    fn new(alloc: Global, sink: u64) -> Result<Draft, AllocError> {
        Ok(Draft {
            text: format!(in alloc; "{{\"version\":1,\"sink\":{sink},\"tasks\":[")?,
            tasks: 0,
        })
    }

    fn add(
        &mut self,
        alloc: Global,
        key: u64,
        formula: &str,
        inputs: &[u64],
    ) -> Result<(), AllocError> {
        if self.tasks > 0 {
            self.text.push(',')?;
        }
        self.tasks = self.tasks.wrapping_add(1);
        self.text.push_str(format!(in alloc;
            "{{\"key\":{key},\"formula\":\"{formula}\",\"inputs\":["
        )?.as_str())?;
        for (place, input) in inputs.iter().enumerate() {
            if place > 0 {
                self.text.push(',')?;
            }
            self.text.push_str(input.to_string(alloc)?.as_str())?;
        }
        self.text.push_str("]}")
    }

    fn finish(self) -> Result<String, AllocError> {
        self.finish_struck("")
    }

    // The faults are given as they stand in a file, with commas between them.
    fn finish_struck(self, faults: &str) -> Result<String, AllocError> {
        let Draft { mut text, tasks: _ } = self;
        text.push_str("],\"faults\":[")?;
        text.push_str(faults)?;
        text.push_str("]}")?;
        Ok(text)
    }
}

// Adds up so many inputs in order.
fn sum_formula(alloc: Global, count: u32) -> Result<String, AllocError> {
    let mut text = String::from_str(alloc, "$0")?;
    for i in 1..count {
        text.push_str(format!(in alloc; "+${i}")?.as_str())?;
    }
    Ok(text)
}

// A first task, and a second one that has it so many times as an input.
fn many_inputs(alloc: Global, count: usize) -> Result<String, AllocError> {
    let mut draft = Draft::new(alloc, 2)?;
    draft.add(alloc, 1, "1", &[])?;
    draft.add(alloc, 2, "$0+$39", vec![in alloc; 1u64; count]?.as_slice())?;
    draft.finish()
}

// One task that so many others read; it is the sink.
fn many_readers(alloc: Global, count: u64) -> Result<String, AllocError> {
    let mut draft = Draft::new(alloc, 1)?;
    draft.add(alloc, 1, "3", &[])?;
    for i in 0..count {
        draft.add(alloc, i.wrapping_add(2), "$0", &[1])?;
    }
    draft.finish()
}

// A task that 640 others read, whose values are summed in two steps.
fn draft_of_sums(alloc: Global) -> Result<Draft, AllocError> {
    let mut draft = Draft::new(alloc, 658)?;
    draft.add(alloc, 1, "1", &[])?;
    for key in 2..642 {
        draft.add(alloc, key, "$0+1", &[1])?;
    }
    let forty = sum_formula(alloc, 40)?;
    for i in 1..17u64 {
        let inputs: Vec<u64> = (40 * i - 38..40 * i + 2).collect(alloc)?;
        draft.add(alloc, 641 + i, forty.as_str(), inputs.as_slice())?;
    }
    let inputs: Vec<u64> = (642..658).collect(alloc)?;
    draft.add(
        alloc,
        658,
        sum_formula(alloc, 16)?.as_str(),
        inputs.as_slice(),
    )?;
    Ok(draft)
}

fn tree_of_sums(alloc: Global) -> Result<String, AllocError> {
    draft_of_sums(alloc)?.finish()
}

// The same with the descriptor struck of each of the 640, where it is ready.
fn struck_sums(alloc: Global) -> Result<String, AllocError> {
    let mut faults = String::new(alloc);
    for key in 2..642u32 {
        let comma = if key == 2 { "" } else { "," };
        let fault = format!(in alloc;
            "{comma}{{\"task\":{key},\"life\":1,\"point\":\"ready\",\"target\":\"descriptor\"}}"
        )?;
        faults.push_str(fault.as_str())?;
    }
    draft_of_sums(alloc)?.finish_struck(faults.as_str())
}

// As many tasks as a file may have, each but the first with the one before as its input.
fn chain(alloc: Global) -> Result<String, AllocError> {
    let mut draft = Draft::new(alloc, 16384)?;
    draft.add(alloc, 1, "1", &[])?;
    for key in 2..16385u64 {
        draft.add(alloc, key, "$0+1", &[key - 1])?;
    }
    draft.finish()
}

// One task with a sum of 2,000 terms, and one with brackets 64 deep.
fn long_formula(alloc: Global) -> Result<String, AllocError> {
    let mut formula = String::from_str(alloc, "1")?;
    for _ in 0..1999 {
        formula.push_str("+1")?;
    }
    let mut draft = Draft::new(alloc, 1)?;
    draft.add(alloc, 1, formula.as_str(), &[])?;
    draft.finish()
}

fn deep_formula(alloc: Global) -> Result<String, AllocError> {
    let mut formula = String::new(alloc);
    for _ in 0..64 {
        formula.push_str("(1-")?;
    }
    formula.push('1')?;
    for _ in 0..64 {
        formula.push(')')?;
    }
    let mut draft = Draft::new(alloc, 1)?;
    draft.add(alloc, 1, formula.as_str(), &[])?;
    draft.finish()
}

// One task whose formula is so many spaces.
fn blank_formula(alloc: Global, count: usize) -> Result<String, AllocError> {
    let mut formula = String::new(alloc);
    for _ in 0..count {
        formula.push(' ')?;
    }
    let mut draft = Draft::new(alloc, 1)?;
    draft.add(alloc, 1, formula.as_str(), &[])?;
    draft.finish()
}

// So many tasks without a key.
fn empty_tasks(alloc: Global, count: u32) -> Result<String, AllocError> {
    let mut text = String::from_str(alloc, "{\"version\":1,\"sink\":1,\"tasks\":[{}")?;
    for _ in 1..count {
        text.push_str(",{}")?;
    }
    text.push_str("]}")?;
    Ok(text)
}

#[test]
fn limits_of_graphs(rt: HostRuntime) -> Result<(), Fail> {
    let alloc = rt.alloc();
    let cases = [
        (many_inputs(alloc, 40)?, 0, "", "value 2\n"),
        (many_inputs(alloc, 41)?, 6, "task 2 has 41 predecessors", ""),
        (many_readers(alloc, 639)?, 0, "", "value 3\n"),
        (
            many_readers(alloc, 640)?,
            6,
            "task 1 has 641 successors",
            "",
        ),
        (tree_of_sums(alloc)?, 0, "", "value 1280\n"),
        (chain(alloc)?, 0, "", "value 16384\n"),
        (long_formula(alloc)?, 0, "", "value 2000\n"),
        (deep_formula(alloc)?, 0, "", "value 1\n"),
        (
            blank_formula(alloc, 4096)?,
            5,
            "formula of task 1: ends too early",
            "",
        ),
        (
            blank_formula(alloc, 4097)?,
            5,
            "formula of task 1: longer than 4096 bytes",
            "",
        ),
        (
            empty_tasks(alloc, 16384)?,
            5,
            "bad shape at /tasks/0/key",
            "",
        ),
        (empty_tasks(alloc, 16385)?, 5, "more than 16384 tasks", ""),
    ];
    for (text, status, message, written) in cases {
        compare(&rt, alloc, ("run", text.as_str(), status, message, written))?;
    }
    Ok(())
}

// So many tasks, each but the first with the one before as all of its 40 inputs.
fn thick_chain(alloc: Global, count: u64) -> Result<String, AllocError> {
    let mut draft = Draft::new(alloc, count)?;
    draft.add(alloc, 1, "1", &[])?;
    for key in 2..count.saturating_add(1) {
        let inputs = vec![in alloc; key.saturating_sub(1); 40]?;
        draft.add(alloc, key, "$0+1", inputs.as_slice())?;
    }
    draft.finish()
}

#[test]
fn runs_by_workers(rt: HostRuntime) -> Result<(), Fail> {
    let alloc = rt.alloc();
    let sums = tree_of_sums(alloc)?;
    for line in [
        "run",
        "replay",
        "replay --workers 2",
        "replay --workers 2 --schedule 0,1",
        "replay --workers 2 --schedule 0,0,1,1,1",
    ] {
        compare(&rt, alloc, (line, sums.as_str(), 0, "", "value 1280\n"))?;
    }
    // It takes more than a million turns, and has them where none are asked for.
    let thick = thick_chain(alloc, 4600)?;
    compare(
        &rt,
        alloc,
        ("replay", thick.as_str(), 0, "", "value 4600\n"),
    )?;
    let short = answer_of(
        &rt,
        alloc,
        "replay --turns 1000000",
        Text::from_slice(alloc, thick.as_bytes())?,
        WHOLE,
        WHOLE,
    )?;
    assert_eq!(rt; short.status, 10);
    Ok(())
}

// One life more than there are strikes is enough, and just the struck tasks are replaced.
#[test]
fn a_strike_on_each_reader(rt: HostRuntime) -> Result<(), Fail> {
    let alloc = rt.alloc();
    let text = struck_sums(alloc)?;
    for line in ["run --lives 641", "replay --lives 641"] {
        let end = answer_on(&rt, alloc, line, text.as_str().as_bytes())?;
        assert!(rt; end.is(0, "", "value 1280\n"), "{line}");
        let replaced = end
            .records
            .iter()
            .filter(|record| matches!(record, Record::Replaced { .. }));
        assert_eq!(rt; replaced.count(), 640, "{line}");
        for key in 2..642u64 {
            let wanted = Record::Replaced {
                key: Key(key),
                life: 1,
                cause: Cause::Descriptor,
            };
            let told = end.records.iter().filter(|record| **record == wanted);
            assert_eq!(rt; told.count(), 1, "{line} {key}");
        }
    }
    Ok(())
}

#[test]
fn longest_inputs(rt: HostRuntime) -> Result<(), Fail> {
    let alloc = rt.alloc();
    let cases = [
        (67_108_865, 9, "input is longer than 67108864 bytes"),
        (67_108_864, 5, "not JSON"),
    ];
    for (length, status, message) in cases {
        let spaces = Text::from_vec(vec![in alloc; b' '; length]?);
        let end = answer_of(&rt, alloc, "run", spaces, WHOLE, WHOLE)?;
        assert!(rt; end.is(status, message, ""), "{length}");
    }
    Ok(())
}
