//! The words of a table by name, each with its place and the number that it holds.
use crate::kinds::Touched;
use crate::plain::PlainTable;
use core_state::{Course, Job, PORTS_PER_WORD};

impl<C: Course> PlainTable<C> {
    ghost use Rattle.std.specs.Prelude.{◌≡◌, ◌≤◌, ◌<◌, ◌/◌, ◌^◌, length, slice_index};
    ghost use Rattle.core_state.specs.Words.{pending as pending_spot, stop, key, posted, descriptor, notify, recovery, turn};
    ghost use Rattle.core_state.specs.Guards.{CanRegister, KnowsRow};
    ghost use Rattle.core_state.specs.Counts.{in_hand, known_key};
    ghost use Rattle.core_steps.specs.Table.{IsSound, IsWordAt, view_at};

    pub(crate) fn pending_word(&self) -> Touched
        ensures word { IsWordAt self.now pending_spot result }
        ensures few { result.found < 2 ^ 63 }
        ensures sound { IsSound C.setting self.now }
    {
        let _ = self.rows();
        self.touched(0)
    }

    /// How many stacks, spare credits and posted jobs there are.
    pub fn pending(&self) -> u64
        ensures word { result ≡ slice_index self.now.words 0 }
        ensures few { result < 2 ^ 63 }
        ensures within { 0 < length self.now.words }
        ensures sound { IsSound C.setting self.now }
    {
        self.pending_word().found
    }

    pub(crate) fn stop_word(&self) -> Touched
        ensures word { IsWordAt self.now stop result }
        ensures sound { IsSound C.setting self.now }
    {
        let _ = self.rows();
        self.touched(1)
    }

    pub(crate) fn key_word(&self, row: u32) -> Touched
        requires { row < C.setting.shape.rows }
        ensures word { IsWordAt self.now (key row) result }
        ensures sound { IsSound C.setting self.now }
    {
        let places = self.places();
        self.touched(places.key(row))
    }

    pub(crate) fn descriptor_word(&self, row: u32) -> Touched
        requires { row < C.setting.shape.rows }
        ensures word { IsWordAt self.now (descriptor row) result }
        ensures sound { IsSound C.setting self.now }
    {
        let places = self.places();
        self.touched(places.descriptor(row))
    }

    // A notify word of a row's task.
    pub(crate) fn notify_word(&self, worker: usize, row: u32, word: u32) -> Touched
        requires row { row < C.setting.shape.rows }
        requires word { word < C.setting.graph.notify_words (known_key row (view_at self.now worker)) }
        ensures word { IsWordAt self.now (notify row word) result }
        ensures sound { IsSound C.setting self.now }
    {
        let _ = worker;
        let places = self.places();
        self.touched(places.notify(row, word))
    }

    // The notify word in which a port is to be registered.
    pub(crate) fn port_word(&self, worker: usize, row: u32, port: u32) -> Touched
        requires worker { worker < length self.now.views }
        requires can { CanRegister C.setting (view_at self.now worker) row (known_key row (view_at self.now worker)) port }
        ensures word { IsWordAt self.now (notify row (port / 40)) result }
        ensures sound { IsSound C.setting self.now }
    {
        let _ = worker;
        let places = self.places();
        self.touched(places.notify(row, port / PORTS_PER_WORD))
    }

    pub(crate) fn recovery_word(&self, row: u32) -> Touched
        requires { row < C.setting.shape.rows }
        ensures word { IsWordAt self.now (recovery row) result }
        ensures sound { IsSound C.setting self.now }
    {
        let places = self.places();
        self.touched(places.recovery(row))
    }

    // The word of a posted job in a row that the worker knows.
    pub(crate) fn job_word(&self, worker: usize, row: u32, job: Job) -> Touched
        requires worker { worker < length self.now.views }
        requires can { KnowsRow C.setting (view_at self.now worker) row (known_key row (view_at self.now worker)) }
        ensures word { IsWordAt self.now (posted job row) result }
        ensures few { result.found ≤ 65535 }
        ensures sound { IsSound C.setting self.now }
    {
        let _ = worker;
        let places = self.places();
        self.touched(places.job(row, job))
    }

    pub(crate) fn turn_word(&self, block: u32) -> Touched
        requires { block < C.setting.shape.blocks }
        ensures word { IsWordAt self.now (turn block) result }
        ensures sound { IsSound C.setting self.now }
    {
        let places = self.places();
        self.touched(places.turn(block))
    }

    // The turn word of a block in hand.
    pub(crate) fn hand_word(&self, worker: usize, block: u32) -> Touched
        requires worker { worker < length self.now.views }
        requires hand { 0 < in_hand block (view_at self.now worker) }
        ensures word { IsWordAt self.now (turn block) result }
        ensures low { block < self.now.shape.blocks }
        ensures sound { IsSound C.setting self.now }
    {
        let _ = worker;
        let places = self.places();
        self.touched(places.turn(block))
    }

    // The key of a row that the worker knows.
    pub(crate) fn known_key(&self, worker: usize, row: u32) -> u64
        requires worker { worker < length self.now.views }
        requires can { KnowsRow C.setting (view_at self.now worker) row (known_key row (view_at self.now worker)) }
        ensures key { result ≡ known_key row (view_at self.now worker) }
        ensures sound { IsSound C.setting self.now }
    {
        let _ = worker;
        self.key_word(row).found - 1
    }
}
