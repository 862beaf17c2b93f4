//! The laws of a closed core. Those of the tasks' records speak of the list `records`, which has no record of the root; those of the root of the list of its replacements.
ghost use Rattle.std.specs.Prelude.{◌≡◌, ◌<◌, ℕ, ℤ, List, Some};
ghost use Rattle.core_state.specs.Counts.{count, items};
ghost use Rattle.core_state.specs.Tests.{is_any_replaced, is_any_struck, is_of, is_suspect_for};
ghost use Rattle.core_state.specs.Laws.{CausesShown, ComputedOnce, FaultFree, IsGrounded, LawfulRecords, LivesNamed, Planned, Played, ReplacedOnce, SixLaws, SpentByEdge, SpentOnce};
ghost use Rattle.core_state.specs.declared.views.View.{View};
ghost use Rattle.graph_model.specs.declared.record.Cause.{Cause};
ghost use Rattle.core_steps.specs.Table.{IsClosing, view_in};
ghost use Rattle.core_laws.specs.Lists.{AreOfTasks, RootReplaced, RootShown, SuspectShown};

use core_state::Course;
use core_steps::Closed;

/// With nothing pending the root was written. Whatever is pending, its cells are the serial value of the
/// sink where it was written.
pub fn quiet<C: Course>(closed: &Closed<C>)
    ensures written { closed.now.pending ≡ 0 → closed.now.root ≡ Some (C.setting.graph.value C.setting.graph.sink) }
    ensures value { (x : List ℤ) → closed.now.root ≡ Some x → x ≡ C.setting.graph.value C.setting.graph.sink }
{
    let _ = closed;
}

/// What is recorded at most once, and with what before it: places that were spent, results that were
/// made and written, words that were closed, lives that were replaced. Lives are counted from 1.
pub fn once<C: Course>(closed: &Closed<C>)
    ensures tasks { AreOfTasks C.setting.graph closed.now.records.items }
    ensures lives { (k : ℕ) → count (is_of k 0) closed.now.records.items ≡ 0 }
    ensures spent { SpentOnce C.setting.graph (λ p. count p closed.now.records.items) }
    ensures computed { ComputedOnce C.setting.graph (λ p. count p closed.now.records.items) }
    ensures replaced { ReplacedOnce C.setting.graph (λ p. count p closed.now.records.items) }
    ensures root { RootReplaced C.setting.graph closed.now.root_replaced.items }
{
    let _ = closed;
}

/// Why there are records: each replacement has a cause that records show, each later life a
/// replacement before it, each task a row and a way from the root, each place that was spent a word
/// that was closed.
pub fn causes<C: Course>(closed: &Closed<C>)
    ensures shown { ∥ CausesShown C.setting.graph (λ p. count p closed.now.records.items) (IsGrounded C.setting.graph closed.now.records.items) ∥₁ }
    ensures lives { ∥ LivesNamed C.setting.graph (λ p. count p closed.now.records.items) ∥₁ }
    ensures edges { SpentByEdge C.setting.graph (λ p. count p closed.now.records.items) }
    ensures root { ∥ RootShown C.setting.graph closed.now.records.items closed.now.root_replaced.items ∥₁ }
{
    let _ = closed;
}

/// With nothing pending, and where no strike landed, each task that the root needs was computed once,
/// in its first life, and nothing was replaced.
pub fn no_fault<C: Course>(closed: &Closed<C>)
    ensures tasks { closed.now.pending ≡ 0 → ∥ FaultFree C.setting.graph (λ p. count p closed.now.records.items) ∥₁ }
    ensures root { count is_any_struck closed.now.records.items ≡ 0 → count is_any_replaced closed.now.root_replaced.items ≡ 0 }
{
    let _ = closed;
}

/// The laws of records together: six of them always, and all seven with nothing pending.
pub fn lawful<C: Course>(closed: &Closed<C>)
    ensures six { ∥ SixLaws C.setting.graph closed.now.records.items ∥₁ }
    ensures all { closed.now.pending ≡ 0 → ∥ LawfulRecords C.setting.graph closed.now.records.items ∥₁ }
{
    let _ = closed;
}

/// No more strikes landed than the plan has. With nothing pending the records play the plan: what was
/// planned at a point that was passed was made, and had its effect.
pub fn played<C: Course>(closed: &Closed<C>)
    ensures planned { Planned C.setting.graph C.setting.plan (λ p. count p closed.now.records.items) }
    ensures played { closed.now.pending ≡ 0 → Played C.setting.graph C.setting.plan (λ p. count p closed.now.records.items) }
{
    let _ = closed;
}

/// Why a life is suspected in one of the views with which the table was closed.
pub fn suspected<C: Course>(closed: &Closed<C>)
    ensures { (vs : List View) (i k l : ℕ) (c : Cause) → IsClosing C.setting vs closed.now.words.items closed.now.blocks.items closed.now.records.items closed.now.root_replaced.items → 0 < items (is_suspect_for k l c) (view_in vs i) → SuspectShown C.setting closed.now.records.items closed.now.root_replaced.items k l c }
{
    let _ = closed;
}
