ghost use Rattle.std.specs.Prelude.{None, Some, [], length, take, ℕ, ◌+◌, ◌<◌, ◌≡◌, ◌≤◌, false, true};
ghost use Rattle.compute_notify.specs.Eventing.{calls_after, compute_event, prepared, writing_event};
ghost use Rattle.compute_notify.specs.Items.{Goes, Stands, computed_after, item_lines, is_spent};
ghost use Rattle.compute_notify.specs.Resting.{FallsGood, LetsFall, after_rest, item_rest};
ghost use Rattle.compute_notify.specs.Rooms.{AfterScratch, FitsScratch, HasRoom, IsReady};
ghost use Rattle.compute_notify.specs.Running.{Makes, Runs, SameKernel};
ghost use Rattle.compute_notify.specs.Stepping.{HasStepped};
ghost use Rattle.compute_notify.specs.Striking.{strike_event, strike_left};
ghost use Rattle.compute_notify.specs.Working.{AfterHand, FitsTop};
ghost use Rattle.core_state.specs.Counts.{known_key};
ghost use Rattle.core_state.specs.Effects.{after_computed};
ghost use Rattle.block_store.specs.Turned.{IsTaken, ReadsNext, read_of};
ghost use Rattle.core_steps.specs.Seat.{IsSameTable, IsStep};
ghost use Rattle.graph_model.specs.Notes.{noted};
ghost use Rattle.core_state.specs.Events.{Event as event};

use crate::close::Close;
use crate::duty::Duty;
use crate::item::{After, Came, Item};
use crate::look::Look;
use crate::run::Terms;
use crate::scratch::Scratch;
use crate::strikes::{Next, make_strike, next_strike};
use block_store::{Read, end_read, end_write};
use core_state::{BlockCells, ROOT, Rooted};
use core_steps::Steps;
use graph_model::{Cause, Inputs, Kernel, Key, Place, Point, TaskGraph};

/// Reading the inputs, computing and writing.
#[derive(Clone, Copy, Debug)]
pub(crate) struct Compute {
    duty: Duty,
    phase: Phase,
}

/// What comes next.
#[derive(Clone, Copy, Debug)]
pub(crate) enum Phase {
    /// The strikes of the point, so many of which are made or passed over, and the look at the descriptor.
    Ready { made: u32 },
    /// The input of this number, or the kernel where all are read.
    Reading { input: u32 },
    /// The output stands in the scratch.
    Writing,
}

/// What a turn of a computing came to. It is small, since most turns only go on.
#[derive(Clone, Copy, Debug)]
pub(crate) enum Computed {
    /// The computing goes on.
    On { phase: Phase },
    /// The block of this input is bad, whose writer is to be looked at.
    Bad { input: u32, cause: Cause },
    /// The value is written, and the notify words are closed next.
    Written,
    /// A later life does the rest.
    Left,
    /// The descriptor shows a mark on this life.
    Marked { life: u32 },
}

impl Compute {
    pub(crate) fn of(duty: Duty) -> Compute
        ensures { result ≡ record { duty = duty; phase = Phase.Ready 0 } }
    {
        Compute {
            duty,
            phase: Phase::Ready { made: 0 },
        }
    }

    // The computing that goes on.
    #[inline(always)]
    pub(crate) fn on(self, phase: Phase) -> Compute
        ensures { result ≡ record self { phase = phase } }
    {
        Compute { phase, ..self }
    }

    /// What a turn left and brought.
    pub(crate) fn after(&self, told: Computed, lives: u32) -> After
        ensures { result ≡ computed_after self.now lives told }
    {
        let Duty { row, key, life: _ } = self.duty;
        match told {
            Computed::On { phase } => After::stays(Item::Compute {
                compute: self.on(phase),
            }),
            Computed::Bad { input, cause } => After::stays(Item::Look {
                look: Look::of(self.duty, cause, input),
            }),
            Computed::Written => After::stays(Item::Close {
                close: Close::of(self.duty),
            }),
            Computed::Left => After::leaves(),
            Computed::Marked { life } => {
                let shown = Duty { row, key, life };
                After::gone(Came::recover(shown, Cause::Descriptor, false, lives))
            }
        }
    }

    /// Changes the computing, if its turn left it.
    #[inline(always)]
    pub(crate) fn keep(&mut self, told: &Computed) -> bool
        ensures kept { result ≡ true → (lives : ℕ) → computed_after self.old lives told.now ≡ record { left = Some (Item.Compute self.new); came = Came.Nothing } }
        ensures same { result ≡ false → self.new ≡ self.old }
    {
        match *told {
            Computed::On { phase } => {
                self.phase = phase;
                true
            }
            _ => false,
        }
    }

    /// One step: a strike's or a load at the beginning, half of a reading for each input, and half of the writing.
    /// The kernel is called in the turn after the last reading.
    #[inline(never)]
    pub(crate) fn turn<T: Steps, G: TaskGraph, Ke: Kernel>(
        self,
        steps: &mut T,
        terms: &Terms<'_, G>,
        hand: &mut Option<BlockCells>,
        scratch: &mut Scratch,
        kernel: &mut Ke,
    ) -> Computed
        requires runs { Runs (G.graph terms.now.graph.now) terms.now.plan.now terms.now.lives (T.setting steps.old) }
        requires stands { Stands (G.graph terms.now.graph.now) (T.setting steps.old) (T.view steps.old) (Item.Compute self) }
        requires outcome { Makes (G.graph terms.now.graph.now) (Ke.outcome kernel.old) (Ke.fits kernel.old) (T.setting steps.old) }
        requires top { FitsTop (T.setting steps.old) (T.view steps.old) hand.old (Item.Compute self) }
        requires scratch { FitsScratch (T.setting steps.old) (G.graph terms.now.graph.now) scratch.old (Item.Compute self) }
        requires calls { 1 ≤ Ke.spare kernel.old }
        requires room { 2 ≤ T.KeyWords.spare steps.old }
        ensures goes { Goes (G.graph terms.now.graph.now) (T.setting steps.old) (T.view steps.old) (T.view steps.new) (item_lines (T.setting steps.old).graph (Item.Compute self)) (computed_after self terms.now.lives result) }
        ensures spent { is_spent (computed_after self terms.now.lives result).came ≡ false }
        ensures top { AfterHand (T.setting steps.old) (T.view steps.new) hand.new (computed_after self terms.now.lives result) }
        ensures scratch { AfterScratch (T.setting steps.old) (G.graph terms.now.graph.now) scratch.new (computed_after self terms.now.lives result) }
        ensures calls { Ke.calls kernel.new ≡ calls_after (T.setting steps.old).graph self (Ke.calls kernel.old) }
        ensures kernel { SameKernel (Ke.outcome kernel.old) (Ke.outcome kernel.new) (Ke.fits kernel.old) (Ke.fits kernel.new) }
        ensures kernel_room { Ke.spare kernel.old ≤ Ke.spare kernel.new + 1 }
        ensures step { HasStepped T.setting T.view T.KeyWords.made T.KeyWords.spare T.KeyWords.last T.shown T.happened T.lender T.others (prepared (T.setting steps.old).graph self) (compute_event (T.setting steps.old) (T.view steps.old) terms.now.plan.now hand.old hand.new self) steps.old steps.new }
        ensures rest { LetsFall (T.setting steps.old) terms.now.plan.now (compute_event (T.setting steps.old) (T.view steps.old) terms.now.plan.now hand.old hand.new self) (T.shown steps.new).1 (item_rest (T.setting steps.old) terms.now.plan.now hand.old (Item.Compute self)) (after_rest (T.setting steps.old) terms.now.plan.now hand.new (computed_after self terms.now.lives result)) }
        ensures good { FallsGood (T.setting steps.old) hand.old (Item.Compute self) (item_rest (T.setting steps.old) terms.now.plan.now hand.old (Item.Compute self)) (after_rest (T.setting steps.old) terms.now.plan.now hand.new (computed_after self terms.now.lives result)) }
    {
        match self.phase {
            Phase::Ready { made } => self.ready(steps, terms, hand, scratch, made),
            Phase::Reading { input } => {
                if Rooted::of(terms.graph).is_input(self.duty.key, input) {
                    self.read(steps, terms, hand, scratch, input)
                } else {
                    self.compute(steps, terms, scratch, kernel);
                    self.write(steps, terms, hand, scratch)
                }
            }
            Phase::Writing => self.write(steps, terms, hand, scratch),
        }
    }

    fn ready<T: Steps, G: TaskGraph>(
        self,
        steps: &mut T,
        terms: &Terms<'_, G>,
        hand: &mut Option<BlockCells>,
        scratch: &mut Scratch,
        made: u32,
    ) -> Computed
        requires runs { Runs (G.graph terms.now.graph.now) terms.now.plan.now terms.now.lives (T.setting steps.old) }
        requires stands { Stands (G.graph terms.now.graph.now) (T.setting steps.old) (T.view steps.old) (Item.Compute self) }
        requires phase { self.phase ≡ Phase.Ready made }
        requires top { FitsTop (T.setting steps.old) (T.view steps.old) hand.old (Item.Compute self) }
        requires scratch { HasRoom (G.graph terms.now.graph.now) scratch.old }
        requires room { 1 ≤ T.KeyWords.spare steps.old }
        ensures goes { Goes (G.graph terms.now.graph.now) (T.setting steps.old) (T.view steps.old) (T.view steps.new) (item_lines (T.setting steps.old).graph (Item.Compute self)) (computed_after self terms.now.lives result) }
        ensures spent { is_spent (computed_after self terms.now.lives result).came ≡ false }
        ensures top { AfterHand (T.setting steps.old) (T.view steps.new) hand.new (computed_after self terms.now.lives result) }
        ensures scratch { AfterScratch (T.setting steps.old) (G.graph terms.now.graph.now) scratch.new (computed_after self terms.now.lives result) }
        ensures step { HasStepped T.setting T.view T.KeyWords.made T.KeyWords.spare T.KeyWords.last T.shown T.happened T.lender T.others (λ v. v) (compute_event (T.setting steps.old) (T.view steps.old) terms.now.plan.now hand.old hand.new self) steps.old steps.new }
        ensures rest { LetsFall (T.setting steps.old) terms.now.plan.now (compute_event (T.setting steps.old) (T.view steps.old) terms.now.plan.now hand.old hand.new self) (T.shown steps.new).1 (item_rest (T.setting steps.old) terms.now.plan.now hand.old (Item.Compute self)) (after_rest (T.setting steps.old) terms.now.plan.now hand.new (computed_after self terms.now.lives result)) }
    {
        let words = Rooted::of(terms.graph).notify_words(self.duty.key);
        match next_strike(terms.plan, words, Point::Ready, self.duty, made) {
            Some(next) => self.strike(steps, terms, next, hand),
            None => self.load(steps, terms, scratch),
        }
    }

    fn strike<T: Steps, G: TaskGraph>(
        self,
        steps: &mut T,
        terms: &Terms<'_, G>,
        next: Next,
        hand: &mut Option<BlockCells>,
    ) -> Computed
        requires runs { Runs (G.graph terms.now.graph.now) terms.now.plan.now terms.now.lives (T.setting steps.old) }
        requires stands { Stands (G.graph terms.now.graph.now) (T.setting steps.old) (T.view steps.old) (Item.Compute self) }
        requires top { FitsTop (T.setting steps.old) (T.view steps.old) hand.old (Item.Compute self) }
        requires next { strike_left (T.setting steps.old).graph terms.now.plan.now (Item.Compute self) ≡ Some next }
        requires room { 1 ≤ T.KeyWords.spare steps.old }
        ensures goes { Goes (G.graph terms.now.graph.now) (T.setting steps.old) (T.view steps.old) (T.view steps.new) (item_lines (T.setting steps.old).graph (Item.Compute self)) (computed_after self terms.now.lives result) }
        ensures spent { is_spent (computed_after self terms.now.lives result).came ≡ false }
        ensures ready { IsReady (computed_after self terms.now.lives result) }
        ensures top { AfterHand (T.setting steps.old) (T.view steps.new) hand.new (computed_after self terms.now.lives result) }
        ensures step { HasStepped T.setting T.view T.KeyWords.made T.KeyWords.spare T.KeyWords.last T.shown T.happened T.lender T.others (λ v. v) (strike_event (T.setting steps.old) (T.view steps.old) self.duty next.target hand.old hand.new) steps.old steps.new }
        ensures rest { LetsFall (T.setting steps.old) terms.now.plan.now (strike_event (T.setting steps.old) (T.view steps.old) self.duty next.target hand.old hand.new) (T.shown steps.new).1 (item_rest (T.setting steps.old) terms.now.plan.now hand.old (Item.Compute self)) (after_rest (T.setting steps.old) terms.now.plan.now hand.new (computed_after self terms.now.lives result)) }
    {
        let graph = Rooted::of(terms.graph);
        if make_strike(steps, &graph, self.duty, next.target, hand) {
            Computed::On {
                phase: Phase::Ready { made: next.made },
            }
        } else {
            Computed::On { phase: self.phase }
        }
    }

    // A later life has done the rest, or will.
    fn load<T: Steps, G: TaskGraph>(
        self,
        steps: &mut T,
        terms: &Terms<'_, G>,
        scratch: &mut Scratch,
    ) -> Computed
        requires runs { Runs (G.graph terms.now.graph.now) terms.now.plan.now terms.now.lives (T.setting steps.old) }
        requires stands { Stands (G.graph terms.now.graph.now) (T.setting steps.old) (T.view steps.old) (Item.Compute self) }
        requires phase { (made : ℕ) × (self.phase ≡ Phase.Ready made) }
        requires none { strike_left (T.setting steps.old).graph terms.now.plan.now (Item.Compute self) ≡ None }
        requires hand { (T.view steps.old).hands ≡ [] }
        requires scratch { HasRoom (G.graph terms.now.graph.now) scratch.old }
        requires room { 1 ≤ T.KeyWords.spare steps.old }
        ensures goes { Goes (G.graph terms.now.graph.now) (T.setting steps.old) (T.view steps.old) (T.view steps.new) (item_lines (T.setting steps.old).graph (Item.Compute self)) (computed_after self terms.now.lives result) }
        ensures spent { is_spent (computed_after self terms.now.lives result).came ≡ false }
        ensures hand { (T.view steps.new).hands ≡ [] }
        ensures scratch { AfterScratch (T.setting steps.old) (G.graph terms.now.graph.now) scratch.new (computed_after self terms.now.lives result) }
        ensures step { HasStepped T.setting T.view T.KeyWords.made T.KeyWords.spare T.KeyWords.last T.shown T.happened T.lender T.others (λ v. v) (event.load_descriptor self.duty.row (known_key self.duty.row (T.view steps.old))) steps.old steps.new }
        ensures rest { LetsFall (T.setting steps.old) terms.now.plan.now (event.load_descriptor self.duty.row (known_key self.duty.row (T.view steps.old))) (T.shown steps.new).1 (item_rest (T.setting steps.old) terms.now.plan.now None (Item.Compute self)) (after_rest (T.setting steps.old) terms.now.plan.now None (computed_after self terms.now.lives result)) }
    {
        let Duty { row, key: _, life } = self.duty;
        let word = steps.load_descriptor(row);
        if word.struck {
            Computed::Marked { life: word.life }
        } else if word.life != life {
            Computed::Left
        } else {
            scratch.inputs.clear();
            Computed::On {
                phase: Phase::Reading { input: 0 },
            }
        }
    }

    fn read<T: Steps, G: TaskGraph>(
        self,
        steps: &mut T,
        terms: &Terms<'_, G>,
        hand: &mut Option<BlockCells>,
        scratch: &mut Scratch,
        input: u32,
    ) -> Computed
        requires runs { Runs (G.graph terms.now.graph.now) terms.now.plan.now terms.now.lives (T.setting steps.old) }
        requires stands { Stands (G.graph terms.now.graph.now) (T.setting steps.old) (T.view steps.old) (Item.Compute self) }
        requires phase { self.phase ≡ Phase.Reading input }
        requires input { input < (T.setting steps.old).graph.inputs self.duty.key.0 }
        requires top { FitsTop (T.setting steps.old) (T.view steps.old) hand.old (Item.Compute self) }
        requires scratch { FitsScratch (T.setting steps.old) (G.graph terms.now.graph.now) scratch.old (Item.Compute self) }
        requires room { 1 ≤ T.KeyWords.spare steps.old }
        ensures goes { Goes (G.graph terms.now.graph.now) (T.setting steps.old) (T.view steps.old) (T.view steps.new) (item_lines (T.setting steps.old).graph (Item.Compute self)) (computed_after self terms.now.lives result) }
        ensures spent { is_spent (computed_after self terms.now.lives result).came ≡ false }
        ensures top { AfterHand (T.setting steps.old) (T.view steps.new) hand.new (computed_after self terms.now.lives result) }
        ensures scratch { AfterScratch (T.setting steps.old) (G.graph terms.now.graph.now) scratch.new (computed_after self terms.now.lives result) }
        ensures step { HasStepped T.setting T.view T.KeyWords.made T.KeyWords.spare T.KeyWords.last T.shown T.happened T.lender T.others (λ v. v) (compute_event (T.setting steps.old) (T.view steps.old) terms.now.plan.now hand.old hand.new self) steps.old steps.new }
        ensures rest { LetsFall (T.setting steps.old) terms.now.plan.now (compute_event (T.setting steps.old) (T.view steps.old) terms.now.plan.now hand.old hand.new self) (T.shown steps.new).1 (item_rest (T.setting steps.old) terms.now.plan.now hand.old (Item.Compute self)) (after_rest (T.setting steps.old) terms.now.plan.now hand.new (computed_after self terms.now.lives result)) }
        ensures good { FallsGood (T.setting steps.old) hand.old (Item.Compute self) (item_rest (T.setting steps.old) terms.now.plan.now hand.old (Item.Compute self)) (after_rest (T.setting steps.old) terms.now.plan.now hand.new (computed_after self terms.now.lives result)) }
    {
        let graph = Rooted::of(terms.graph);
        let place = graph.block(graph.pred(self.duty.key, input).key);
        let len = graph.cells(place.block);
        let Some(taken) = hand.take() else {
            *hand = steps.take_turn(place.block);
            return Computed::On {
                phase: Phase::Reading { input },
            };
        };
        match end_input(steps, place, taken, scratch, len) {
            Read::Good => {
                scratch.keep(len);
                Computed::On {
                    phase: Phase::Reading { input: input + 1 },
                }
            }
            Read::Bad { found } => {
                let cause = Cause::Block {
                    block: place.block,
                    version: place.version,
                    found,
                };
                Computed::Bad { input, cause }
            }
            Read::Busy => unreachable!(),
        }
    }

    // Calls the kernel, and notes it. The root's result is its input. This is no step.
    fn compute<T: Steps, G: TaskGraph, Ke: Kernel>(
        self,
        steps: &mut T,
        terms: &Terms<'_, G>,
        scratch: &mut Scratch,
        kernel: &mut Ke,
    )
        requires runs { Runs (G.graph terms.now.graph.now) terms.now.plan.now terms.now.lives (T.setting steps.old) }
        requires stands { Stands (G.graph terms.now.graph.now) (T.setting steps.old) (T.view steps.old) (Item.Compute self) }
        requires outcome { Makes (G.graph terms.now.graph.now) (Ke.outcome kernel.old) (Ke.fits kernel.old) (T.setting steps.old) }
        requires phase { self.phase ≡ Phase.Reading ((T.setting steps.old).graph.inputs self.duty.key.0) }
        requires scratch { FitsScratch (T.setting steps.old) (G.graph terms.now.graph.now) scratch.old (Item.Compute self) }
        requires calls { 1 ≤ Ke.spare kernel.old }
        requires room { 2 ≤ T.KeyWords.spare steps.old }
        ensures view { T.view steps.new ≡ after_computed self.duty.key.0 self.duty.life (T.view steps.old) }
        ensures made { T.KeyWords.made steps.new ≡ T.KeyWords.made steps.old }
        ensures shown { T.shown steps.new ≡ T.shown steps.old }
        ensures last { T.KeyWords.last steps.new ≡ T.KeyWords.last steps.old }
        ensures table { IsSameTable T.setting T.view T.lender T.others steps.old steps.new }
        ensures room { T.KeyWords.spare steps.old ≤ T.KeyWords.spare steps.new + 1 }
        ensures output { FitsScratch (T.setting steps.old) (G.graph terms.now.graph.now) scratch.new (Item.Compute (record self { phase = Phase.Writing })) }
        ensures calls { Ke.calls kernel.new ≡ calls_after (T.setting steps.old).graph self (Ke.calls kernel.old) }
        ensures kernel { SameKernel (Ke.outcome kernel.old) (Ke.outcome kernel.new) (Ke.fits kernel.old) (Ke.fits kernel.new) }
        ensures kernel_room { Ke.spare kernel.old ≤ Ke.spare kernel.new + 1 }
    {
        let Duty { row: _, key, life } = self.duty;
        let graph = Rooted::of(terms.graph);
        if key == ROOT {
            scratch.pass_on();
        } else {
            let len = graph.cells(graph.block(key).block);
            make(kernel, key, life, scratch, len);
        }
        steps.computed(key, life);
    }

    // Half of the writing; the result was made, and stands in the scratch.
    fn write<T: Steps, G: TaskGraph>(
        self,
        steps: &mut T,
        terms: &Terms<'_, G>,
        hand: &mut Option<BlockCells>,
        scratch: &Scratch,
    ) -> Computed
        requires runs { Runs (G.graph terms.now.graph.now) terms.now.plan.now terms.now.lives (T.setting steps.old) }
        requires stands { Stands (G.graph terms.now.graph.now) (T.setting steps.old) (T.view steps.old) (Item.Compute (record self { phase = Phase.Writing })) }
        requires top { FitsTop (T.setting steps.old) (T.view steps.old) hand.old (Item.Compute (record self { phase = Phase.Writing })) }
        requires scratch { FitsScratch (T.setting steps.old) (G.graph terms.now.graph.now) scratch.now (Item.Compute (record self { phase = Phase.Writing })) }
        requires room { 1 ≤ T.KeyWords.spare steps.old }
        ensures goes { Goes (G.graph terms.now.graph.now) (T.setting steps.old) (T.view steps.old) (T.view steps.new) (item_lines (T.setting steps.old).graph (Item.Compute (record self { phase = Phase.Writing }))) (computed_after self terms.now.lives result) }
        ensures spent { is_spent (computed_after self terms.now.lives result).came ≡ false }
        ensures top { AfterHand (T.setting steps.old) (T.view steps.new) hand.new (computed_after self terms.now.lives result) }
        ensures scratch { AfterScratch (T.setting steps.old) (G.graph terms.now.graph.now) scratch.now (computed_after self terms.now.lives result) }
        ensures step { HasStepped T.setting T.view T.KeyWords.made T.KeyWords.spare T.KeyWords.last T.shown T.happened T.lender T.others (λ v. v) (writing_event (T.setting steps.old) hand.old hand.new self.duty) steps.old steps.new }
        ensures room { T.KeyWords.spare steps.old ≤ T.KeyWords.spare steps.new + 1 }
        ensures rest { LetsFall (T.setting steps.old) terms.now.plan.now (writing_event (T.setting steps.old) hand.old hand.new self.duty) (T.shown steps.new).1 (item_rest (T.setting steps.old) terms.now.plan.now hand.old (Item.Compute (record self { phase = Phase.Writing }))) (after_rest (T.setting steps.old) terms.now.plan.now hand.new (computed_after self terms.now.lives result)) }
    {
        let Duty { row: _, key, life } = self.duty;
        let graph = Rooted::of(terms.graph);
        let place = graph.block(key);
        let Some(taken) = hand.take() else {
            *hand = steps.take_turn(place.block);
            return Computed::On {
                phase: Phase::Writing,
            };
        };
        let from = &scratch.cells[..graph.cells(place.block)];
        end_write(steps, key, life, place.block, place.version, taken, from);
        Computed::Written
    }
}

// Half of the reading of an input, into the scratch.
fn end_input<T: Steps>(
    steps: &mut T,
    place: Place,
    taken: BlockCells,
    scratch: &mut Scratch,
    len: usize,
) -> Read
    requires taken { IsTaken (T.setting steps.old) (T.view steps.old) place.block taken }
    requires reads { ReadsNext (T.setting steps.old) (T.view steps.old) place.block place.version }
    requires cells { len ≡ (T.setting steps.old).graph.cells place.block }
    requires inside { len ≤ length scratch.old.cells.items }
    requires room { 1 ≤ T.KeyWords.spare steps.old }
    ensures told { result ≡ read_of place.version taken }
    ensures value { result ≡ Read.Good → 0 < place.version → take len scratch.new.cells.items ≡ (T.setting steps.old).graph.value ((T.setting steps.old).graph.writer place.block place.version) }
    ensures inputs { scratch.new.inputs ≡ scratch.old.inputs }
    ensures length { length scratch.new.cells.items ≡ length scratch.old.cells.items }
    ensures step { IsStep T.setting T.view T.KeyWords.made T.KeyWords.last T.shown T.happened T.lender T.others (event.give_read place.block taken) steps.old steps.new }
    ensures room { T.KeyWords.spare steps.old ≤ T.KeyWords.spare steps.new + 1 }
{
    end_cells(steps, place, taken, &mut scratch.cells, len)
}

fn end_cells<T: Steps>(
    steps: &mut T,
    place: Place,
    taken: BlockCells,
    cells: &mut [i64],
    len: usize,
) -> Read
    requires taken { IsTaken (T.setting steps.old) (T.view steps.old) place.block taken }
    requires reads { ReadsNext (T.setting steps.old) (T.view steps.old) place.block place.version }
    requires cells { len ≡ (T.setting steps.old).graph.cells place.block }
    requires inside { len ≤ length cells.old }
    requires room { 1 ≤ T.KeyWords.spare steps.old }
    ensures told { result ≡ read_of place.version taken }
    ensures value { result ≡ Read.Good → 0 < place.version → take len cells.new ≡ (T.setting steps.old).graph.value ((T.setting steps.old).graph.writer place.block place.version) }
    ensures length { length cells.new ≡ length cells.old }
    ensures step { IsStep T.setting T.view T.KeyWords.made T.KeyWords.last T.shown T.happened T.lender T.others (event.give_read place.block taken) steps.old steps.new }
    ensures room { T.KeyWords.spare steps.old ≤ T.KeyWords.spare steps.new + 1 }
{
    let into = &mut cells[..len];
    end_read(steps, place.block, place.version, taken, into)
}

// The kernel's call, into the scratch.
fn make<Ke: Kernel>(kernel: &mut Ke, key: Key, life: u32, scratch: &mut Scratch, len: usize)
    requires room { 1 ≤ Ke.spare kernel.old }
    requires fits { Ke.fits kernel.old key.0 scratch.old.inputs.lists }
    requires cells { len ≡ length (Ke.outcome kernel.old key.0 scratch.old.inputs.lists) }
    requires inside { len ≤ length scratch.old.cells.items }
    ensures outcome { take len scratch.new.cells.items ≡ Ke.outcome kernel.old key.0 scratch.old.inputs.lists }
    ensures inputs { scratch.new.inputs ≡ scratch.old.inputs }
    ensures length { length scratch.new.cells.items ≡ length scratch.old.cells.items }
    ensures noted { Ke.calls kernel.new ≡ noted (Ke.calls kernel.old) (key.0, life) }
    ensures kernel { SameKernel (Ke.outcome kernel.old) (Ke.outcome kernel.new) (Ke.fits kernel.old) (Ke.fits kernel.new) }
    ensures kernel_room { Ke.spare kernel.old ≤ Ke.spare kernel.new + 1 }
{
    call(kernel, key, life, &scratch.inputs, &mut scratch.cells, len);
}

fn call<Ke: Kernel>(
    kernel: &mut Ke,
    key: Key,
    life: u32,
    inputs: &Inputs,
    cells: &mut [i64],
    len: usize,
)
    requires room { 1 ≤ Ke.spare kernel.old }
    requires fits { Ke.fits kernel.old key.0 inputs.now.lists }
    requires cells { len ≡ length (Ke.outcome kernel.old key.0 inputs.now.lists) }
    requires inside { len ≤ length cells.old }
    ensures outcome { take len cells.new ≡ Ke.outcome kernel.old key.0 inputs.now.lists }
    ensures length { length cells.new ≡ length cells.old }
    ensures noted { Ke.calls kernel.new ≡ noted (Ke.calls kernel.old) (key.0, life) }
    ensures kernel { SameKernel (Ke.outcome kernel.old) (Ke.outcome kernel.new) (Ke.fits kernel.old) (Ke.fits kernel.new) }
    ensures kernel_room { Ke.spare kernel.old ≤ Ke.spare kernel.new + 1 }
{
    kernel.compute(key, life, inputs, &mut cells[..len]);
}
