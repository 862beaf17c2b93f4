//! Every plan of one strike, or of the same strike three times, on a small graph, with few lives and two schedules.
use crate::answers::{NO_BYTES, answer_of, sum_of};
use std::alloc::{AllocError, Global};
use std::sync::Wait;
use std::thread::Threads;

const POINTS: [&str; 4] = ["explored", "ready", "computed", "notified"];

const TARGETS: [&str; 3] = ["descriptor", "notify", "block"];

const SCHEDULES: [&str; 2] = ["0", "0,1,1"];

// How many runs gave a value, how many spent a life, how many did neither, and a sum of all their answers.
#[derive(Drop)]
struct Tally {
    values: u32,
    spent: u32,
    others: u32,
    sum: u64,
}

impl Tally {
    fn count(&mut self, answer: &[u8]) {
        match answer.first() {
            Some(b'0') => self.values = self.values.wrapping_add(1),
            Some(b'7') => self.spent = self.spent.wrapping_add(1),
            _ => self.others = self.others.wrapping_add(1),
        }
        self.sum = sum_of(self.sum, answer);
    }
}

// The text with the strike so often in its empty plan, which is its first empty list.
fn struck(alloc: Global, text: &str, strike: &str, times: usize) -> Result<String, AllocError> {
    let (before, behind) = text.split_once("[]").unwrap_or((text, ""));
    let mut whole = String::from_str(alloc, before)?;
    whole.push_str("[")?;
    for i in 0..times {
        if i > 0 {
            whole.push_str(",")?;
        }
        whole.push_str(strike)?;
    }
    whole.push_str("]")?;
    whole.push_str(behind)?;
    Ok(whole)
}

// All runs under one plan.
fn run_plan<R: Threads + Wait + Sync>(
    rt: &R,
    alloc: Global,
    text: &str,
    tally: &mut Tally,
) -> Result<(), AllocError> {
    for lives in 1..4 {
        for schedule in SCHEDULES {
            let words = format!(in alloc;
                "replay --workers 2 --turns 1000000 --lives {lives} --schedule {schedule} --records"
            )?;
            let answer = answer_of(rt, alloc, words.as_str(), text)?;
            tally.count(answer.as_slice());
        }
    }
    Ok(())
}

/// What all runs came to in which one of these tasks, given by their keys with commas between, is struck.
pub(crate) fn storm_of<R: Threads + Wait + Sync>(
    rt: &R,
    alloc: Global,
    keys: &str,
    text: &str,
) -> Result<Vec<u8>, AllocError> {
    let mut tally = Tally {
        values: 0,
        spent: 0,
        others: 0,
        sum: NO_BYTES,
    };
    for key in keys.split(',') {
        for point in POINTS {
            for target in TARGETS {
                let strike = format!(in alloc;
                    "{{\"life\":1,\"point\":\"{point}\",\"target\":\"{target}\",\"task\":{key}}}"
                )?;
                for times in [1, 3] {
                    let text = struck(alloc, text, strike.as_str(), times)?;
                    run_plan(rt, alloc, text.as_str(), &mut tally)?;
                }
            }
        }
    }
    let Tally {
        values,
        spent,
        others,
        sum,
    } = tally;
    let line = format!(in alloc; "{values} values {spent} spent {others} others {sum}\n")?;
    Ok(line.into_bytes())
}
