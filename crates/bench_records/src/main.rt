//! The time that a report of many records takes. The first word is how many, the second how often.
#![tactic(auto)]

use graph_model::{Key, Record};
use run_records::report;
use std::alloc::{AllocError, Global};
use std::env;
use std::time::Instant;

// Numbers that look random, the same at each run.
fn next_number(x: u64) -> u64 {
    let x = x ^ x.wrapping_shl(13);
    let x = x ^ (x >> 7);
    x ^ x.wrapping_shl(17)
}

fn record_of(x: u64) -> Record {
    let key = Key((x >> 20) & 0xffff);
    let life = 1;
    let place = ((x >> 8) & 31) as u32;
    match x & 7 {
        0 => Record::Created { key },
        1 | 2 | 3 | 4 => Record::Spent { key, life, place },
        5 => Record::Computed { key, life },
        6 => Record::Written {
            key,
            life,
            block: place,
            version: 1,
        },
        _ => Record::Closed {
            key,
            life,
            word: place & 15,
        },
    }
}

fn made(alloc: Global, count: u32) -> Result<Vec<Record>, AllocError> {
    let mut list = Vec::new(alloc);
    let mut x: u64 = 88172645463325252;
    for _ in 0..count {
        x = next_number(x);
        list.push(record_of(x))?;
    }
    Ok(list)
}

fn sum_of(bytes: &[u8]) -> u64 {
    let mut sum: u64 = 0;
    for byte in bytes {
        sum = sum.wrapping_mul(31).wrapping_add(*byte as u64);
    }
    sum
}

fn number_in(word: Option<String>, default: u32) -> u32 {
    match word {
        Some(word) => word.parse::<u32>().unwrap_or(default),
        None => default,
    }
}

fn main(rt: HostRuntime) -> std::io::Result<()> {
    let alloc = rt.alloc();
    let mut words = env::args(&rt)?;
    let _ = words.next();
    let count = number_in(words.next(), 1_000_000);
    let rounds = number_in(words.next(), 1);
    let list = made(alloc, count)?;
    let mut least = u128::MAX;
    let mut length = 0;
    let mut sum = 0;
    for _ in 0..rounds {
        let start = Instant::now(&rt)?;
        let text = report(alloc, &[7], list.as_slice(), true)?;
        let spent = start.elapsed(&rt)?;
        least = least.min(spent.as_millis());
        length = text.len();
        sum = sum_of(text.as_slice());
    }
    println!(rt; "{count} records, {length} bytes, sum {sum}")?;
    eprintln!(rt; "{least}")
}
