ghost use Rattle.std.specs.Prelude.{◌≡◌, ◌+◌, ◌-◌, ◌^◌, ◌<◌, ◌≤◌, ◌⊎◌, ◌↔◌, [], min, Some, Contains, IsErr, IsTrue, IfOk, OnOk, MatchResult, length, take};
ghost use Rattle.io_edge.specs.Bytes.{Reads, Writes};
ghost use Rattle.io_edge.specs.Causes.{HasCause};

use super::edge::{Failed, Sink, Source};
use graph_model::{Keys, Text};
use std::alloc::AllocError;
use std::marker::Model;

// Whether a call of this number fails.
fn is_listed(fails: &Keys, call: u64) -> bool
    ensures { IsTrue result ↔ Contains fails.now call }
{
    fails.as_slice().contains(&call)
}

// Puts bytes from the front of `left` at the front of `buf`, at most `most`.
fn give(left: &[u8], buf: &mut [u8], most: usize) -> usize
    ensures count { result ≡ min (min (length left.now) (length buf.old)) most }
    ensures bytes { take result buf.new ≡ take result left.now }
{
    let count = left.len().min(buf.len()).min(most);
    buf[..count].copy_from_slice(&left[..count]);
    count
}

/// Bytes in memory. Chosen calls fail.
#[derive(Debug, Drop)]
pub struct MemSource {
    bytes: Text,
    start: usize,
    per_call: usize,
    fails: Keys,
    calls: u64,
    faults: u64,
}

impl Model for MemSource {
    ghost use Rattle.std.specs.Prelude.{◌<◌, ◌≤◌, length, drop};
    ghost use Rattle.io_edge.specs.Memory.{Feed};

    ghost Value = { Feed };

    ghost view = { λ s. record { left = drop s.start s.bytes; per_call = s.per_call; fails = s.fails; calls = s.calls; faults = s.faults } };

    ghost invariant = { λ s. (s.start ≤ length s.bytes) × (0 < s.per_call) };
}

impl MemSource {
    /// Gives the bytes, at most `per_call` in one call. The calls with these numbers fail, the first being 1.
    pub fn new(bytes: Text, per_call: usize, fails: Keys) -> MemSource
        requires { 0 < per_call }
        ensures { result ≡ record { left = bytes; per_call = per_call; fails = fails; calls = 0; faults = 0 } }
    {
        MemSource {
            bytes,
            start: 0,
            per_call,
            fails,
            calls: 0,
            faults: 0,
        }
    }
}

impl Source for MemSource {
    ghost left = { λ s. Some s.left };

    ghost faults = { λ s. s.faults };

    fn read(&mut self, buf: &mut [u8]) -> Result<usize, Failed>
        requires { 0 < length buf.old }
        ensures bytes { Reads (Some self.old.left) (Some self.new.left) buf.new result }
        ensures cause { HasCause self.old.faults self.new.faults result }

        // It fails exactly at the calls that are listed.
        ensures calls { self.new.calls ≡ min (self.old.calls + 1) (2 ^ 64 - 1) }
        ensures fails { IsErr result ↔ Contains self.old.fails self.new.calls }
        ensures counted { OnOk result (self.new.faults ≡ self.old.faults) }
        ensures few { IfOk result (λ n. n ≤ self.old.per_call) }
        ensures same { (self.new.fails ≡ self.old.fails) × (self.new.per_call ≡ self.old.per_call) }
    {
        self.calls = self.calls.saturating_add(1);
        if is_listed(&self.fails, self.calls) {
            self.faults = self.faults.saturating_add(1);
            return Err(Failed);
        }
        let (_, left) = self.bytes.as_slice().split_at(self.start);
        let count = give(left, buf, self.per_call);
        self.start += count;
        Ok(count)
    }
}

/// Keeps in memory what is written. Chosen calls fail.
#[derive(Debug, Drop)]
pub struct MemSink {
    held: Vec<u8>,
    spare: usize,
    per_call: usize,
    fails: Keys,
    calls: u64,
    faults: u64,
}

impl Model for MemSink {
    ghost use Rattle.std.specs.Prelude.{◌<◌, ◌≤◌, ◌+◌, vec_len, vec_capacity};
    ghost use Rattle.io_edge.specs.Memory.{Store};

    ghost Value = { Store };

    ghost view = { λ s. record { held = s.held.items; spare = s.spare; per_call = s.per_call; fails = s.fails; calls = s.calls; faults = s.faults } };

    ghost invariant = { λ s. (vec_len s.held + s.spare ≤ vec_capacity s.held) × (0 < s.per_call) };
}

impl MemSink {
    /// Takes at most `per_call` bytes in one call. The calls with these numbers fail, the first being 1.
    pub fn new(room: Text, per_call: usize, fails: Keys) -> MemSink
        requires empty { room ≡ [] }
        requires per_call { 0 < per_call }
        ensures { result ≡ record { held = []; spare = 0; per_call = per_call; fails = fails; calls = 0; faults = 0 } }
    {
        MemSink {
            held: room.into_vec(),
            spare: 0,
            per_call,
            fails,
            calls: 0,
            faults: 0,
        }
    }

    /// Makes room for `n` further bytes. Where memory is refused, the room that was there stays.
    pub fn reserve(&mut self, n: usize) -> Result<(), AllocError>
        ensures room { OnOk result (n ≤ self.new.spare) }
        ensures kept { self.old.spare ≤ self.new.spare }
        ensures same { self.new ≡ record self.old { spare = self.new.spare } }
    {
        self.held.reserve(n)?;
        self.spare = self.spare.max(n);
        Ok(())
    }

    /// What was written.
    pub fn as_slice(&self) -> &[u8]
        ensures { result.now ≡ self.now.held }
    {
        self.held.as_slice()
    }
}

impl Sink for MemSink {
    ghost written = { λ s. Some s.held };

    ghost faults = { λ s. s.faults };

    fn write(&mut self, piece: &[u8]) -> Result<usize, Failed>
        requires { 0 < length piece.now }
        ensures bytes { Writes (Some self.old.held) (Some self.new.held) piece.now result }
        ensures cause { HasCause self.old.faults self.new.faults result }

        // It fails exactly at the calls that are listed, and where there is no room.
        ensures calls { self.new.calls ≡ min (self.old.calls + 1) (2 ^ 64 - 1) }
        ensures fails { IsErr result ↔ (Contains self.old.fails self.new.calls ⊎ (self.old.spare ≡ 0)) }
        ensures counted { OnOk result (self.new.faults ≡ self.old.faults) }
        ensures few { IfOk result (λ n. n ≤ self.old.per_call) }
        ensures same { (self.new.fails ≡ self.old.fails) × (self.new.per_call ≡ self.old.per_call) }
        // The room falls by what is written.
        ensures room { MatchResult result (λ n. self.new.spare + n ≡ self.old.spare) (λ _. self.new.spare ≡ self.old.spare) }
    {
        self.calls = self.calls.saturating_add(1);
        if is_listed(&self.fails, self.calls) || self.spare == 0 {
            self.faults = self.faults.saturating_add(1);
            return Err(Failed);
        }
        let count = piece.len().min(self.per_call).min(self.spare);
        let _ = self.held.extend_from_slice(&piece[..count]);
        self.spare -= count;
        Ok(count)
    }
}
