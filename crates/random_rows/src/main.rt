//! Runs the command of each line of the input, and prints what came of it. A line has the words, a tab and a graph
//! file. Of what is written the number of lines, a sum of all bytes and the first line are printed. Where the words
//! are `storm` and keys, the graph runs with each of these tasks struck; where they are `workers` and numbers, it
//! runs by so many threads each; and the runs are counted.
#![tactic(auto)]

mod answers;
mod crowds;
mod storm;

use crate::answers::answer_of;
use crate::crowds::crowds_of;
use crate::storm::storm_of;
use std::alloc::{AllocError, Global};
use std::io;
use std::io::Write;
use std::sync::Wait;
use std::thread::Threads;

// What the line of the words comes to.
fn line_of<R: Threads + Wait + Sync>(
    rt: &R,
    alloc: Global,
    words: &str,
    text: &str,
) -> Result<Vec<u8>, AllocError> {
    match words.split_once(' ') {
        Some(("storm", keys)) => storm_of(rt, alloc, keys, text),
        Some(("workers", counts)) => crowds_of(rt, alloc, counts, text),
        _ => answer_of(rt, alloc, words, text),
    }
}

fn main(rt: HostRuntime) -> io::Result<()> {
    let alloc = rt.alloc();
    let input = io::read_to_string(alloc, rt.stdin())?;
    let mut output = rt.stdout();
    for line in input.lines() {
        if let Some((words, text)) = line.split_once('\t') {
            let answer = line_of(&rt, alloc, words, text)?;
            output.write_all(answer.as_slice())?;
        }
    }
    Ok(())
}
