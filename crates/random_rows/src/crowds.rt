//! One graph by several numbers of threads.
use crate::answers::answer_of;
use std::alloc::{AllocError, Global};
use std::sync::Wait;
use std::thread::Threads;

/// How many runs gave the first one's answer, and that answer; the others' answers behind it.
pub(crate) fn crowds_of<R: Threads + Wait + Sync>(
    rt: &R,
    alloc: Global,
    counts: &str,
    text: &str,
) -> Result<Vec<u8>, AllocError> {
    let mut first = Vec::new(alloc);
    let mut others = Vec::new(alloc);
    let mut alike = 0u32;
    for count in counts.split(',') {
        let words = format!(in alloc; "run --workers {count}")?;
        let answer = answer_of(rt, alloc, words.as_str(), text)?;
        if alike == 0 {
            first = answer;
            alike = 1;
        } else if answer.as_slice() == first.as_slice() {
            alike = alike.wrapping_add(1);
        } else {
            others.extend_from_slice(answer.as_slice())?;
        }
    }
    let mut line = format!(in alloc; "{alike} times ")?.into_bytes();
    line.extend_from_slice(first.as_slice())?;
    line.extend_from_slice(others.as_slice())?;
    Ok(line)
}
