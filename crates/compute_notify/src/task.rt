//! The work of one job, with all that was met on the way.
ghost use Rattle.std.specs.Prelude.{List, None, OnOk, Some, [], false, length, not, true, vec_capacity, ◌++◌, ◌+◌, ◌≡◌, ◌≢◌, ◌≤◌};
ghost use Rattle.compute_notify.specs.Eventing.{item_calls, item_event, item_hints, item_prepared, steps_on};
ghost use Rattle.compute_notify.specs.Items.{Goes, ItemSpends, Stands, computed_after, explored_after, is_over, is_spent, item_lines, job_item, notified_after, stays_often};
ghost use Rattle.compute_notify.specs.Resting.{FallsGood, LeavesAbove, LetsFall, LooksAgain, after_rest, item_rest};
ghost use Rattle.compute_notify.specs.Rooms.{AfterScratch, FitsScratch};
ghost use Rattle.compute_notify.specs.Running.{Makes, Runs, SameKernel};
ghost use Rattle.compute_notify.specs.Stepping.{HasStepped};
ghost use Rattle.compute_notify.specs.Tasks.{AllMayBeOver, FindsNext, HasFewLeft, HasSpace, HasTurned, Holds, IsNew, IsNext, MayBeOver, NewCalls, SameTask, TaskScratch, TaskTells, after_items, but_last, came_items, ends_run, items_rest, last_item, some_count, some_list, task_items, task_rest, task_turn};
ghost use Rattle.compute_notify.specs.Working.{AfterHand, FitsTop};
ghost use Rattle.core_state.specs.Asked.{InEachGraphOf};
ghost use Rattle.core_state.specs.Graph.{Setting};
ghost use Rattle.core_state.specs.declared.views.View.{View};
ghost use Rattle.graph_model.specs.Graph.{Graph};
ghost use Rattle.recovery.specs.Memory.{Remembers};

use crate::compute::{Compute, Computed};
use crate::explore::{Explore, Explored};
use crate::item::{After, Came, Item};
use crate::notify::{Notified, Notify};
use crate::paying::{give_up, pay};
use crate::replacing::replace;
use crate::run::{Run, Terms};
use crate::scratch::Scratch;
use core_state::{BlockCells, Job};
use core_steps::{Hints, Steps};
use graph_model::{Kernel, Key, TaskGraph};
use recovery::Turn;
use std::alloc::{AllocError, Global};

/// How many items a turn may add.
const ROOM: usize = 4;

/// For how many items more a full list grows: an exploring needs no more than these, so its list is made once.
const GROWTH: usize = 7;

/// The work of a job, with all that was met on the way. Each stack ends with its credit, and the last
/// item is turned.
#[derive(Debug, Drop)]
pub struct Task {
    // The item with which the job begins, until the first turn.
    begins: Option<Item>,
    items: Vec<Item>,
    // The block that the last item took.
    hand: Option<BlockCells>,
}

// Puts one thing behind the others, if there is one.
#[inline(always)]
fn put<X>(list: &mut Vec<X>, item: Option<X>)
where
    X: Drop,
    requires { length list.old.items + some_count item ≤ vec_capacity list.old }
    ensures items { list.new.items ≡ list.old.items ++ some_list item }
    ensures capacity { vec_capacity list.new ≡ vec_capacity list.old }
{
    match item {
        Some(item) => list.push_reserved(item),
        None => {}
    }
}

// Puts three things behind the others, each if it is there.
#[inline(always)]
fn put_three<X>(list: &mut Vec<X>, first: Option<X>, second: Option<X>, third: Option<X>)
where
    X: Drop,
    requires { length list.old.items + some_count first + some_count second + some_count third ≤ vec_capacity list.old }
    ensures items { list.new.items ≡ list.old.items ++ some_list first ++ some_list second ++ some_list third }
    ensures capacity { vec_capacity list.new ≡ vec_capacity list.old }
{
    put(list, first);
    put(list, second);
    put(list, third);
}

// How many items are left of an item, with what came above it.
#[inline(always)]
fn count_of(after: &After) -> usize
    ensures { result ≡ length (after_items after.now) }
{
    let left: usize = if after.left.is_some() { 1 } else { 0 };
    let came: usize = match &after.came {
        Came::Nothing
        | Came::Spent {
            key: _,
            life: _,
            cause: _,
        } => 0,
        Came::Above { item: _ } => 1,
        Came::Stack { item: _ } => 2,
    };
    left + came
}

// Whether an item has nothing left to do, and gives nothing back.
#[inline(always)]
fn is_over<G: TaskGraph>(item: &Item, terms: &Terms<'_, G>) -> bool
    requires { MayBeOver (G.graph terms.now.graph.now) item.now }
    ensures { InEachGraphOf (G.graph terms.now.graph.now) (λ r. result ≡ is_over r terms.now.plan.now item.now) }
{
    match item {
        Item::Close { close } => close.is_over(terms),
        Item::Notify { notify } => notify.is_over(),
        Item::Recover { recover } => recover.is_over(),
        Item::Credit
        | Item::Explore { explore: _ }
        | Item::Compute { compute: _ }
        | Item::Look { look: _ }
        | Item::Owe { owe: _ } => false,
    }
}

// The last item.
#[inline(always)]
fn last(items: &Vec<Item>) -> &Item
    requires { items.now.items ≢ [] }
    ensures { result.now ≡ last_item items.now.items }
{
    &items[items.len() - 1]
}

// Takes the last item away. It stands apart, so that the turns that find it unfinished pay nothing for it.
#[inline(never)]
fn drop_last(items: &mut Vec<Item>)
    ensures items { items.new.items ≡ but_last items.old.items }
    ensures capacity { vec_capacity items.new ≡ vec_capacity items.old }
{
    items.pop();
}

// Takes from the end what has nothing left to do; whether an item is left then.
#[inline(always)]
fn next<G: TaskGraph>(items: &mut Vec<Item>, terms: &Terms<'_, G>) -> bool
    requires { AllMayBeOver (G.graph terms.now.graph.now) items.old.items }
    ensures next { InEachGraphOf (G.graph terms.now.graph.now) (λ r. FindsNext r terms.now.plan.now items.old.items items.new.items result) }
    ensures capacity { vec_capacity items.new ≡ vec_capacity items.old }
{
    while !items.is_empty() {
        if !is_over(last(items), terms) {
            return true;
        }
        drop_last(items);
    }
    false
}

// What the turn of an item comes to for its task, of which this many items are left then.
#[inline(always)]
fn told_of(came: &Came, left: usize) -> Turn
    ensures { result ≡ task_turn came.now left }
{
    match *came {
        Came::Spent { key, life, cause } => Turn::LivesSpent { key, life, cause },
        Came::Nothing | Came::Above { item: _ } | Came::Stack { item: _ } => {
            if left == 0 { Turn::Done } else { Turn::Going }
        }
    }
}

// Puts what is left of an item, and what came above it. Each is copied once, from where the turn left it.
#[inline(always)]
fn put_after(items: &mut Vec<Item>, after: &After)
    requires { length items.old.items + 3 ≤ vec_capacity items.old }
    ensures { items.new.items ≡ items.old.items ++ after_items after.now }
{
    match &after.left {
        None => match &after.came {
            Came::Nothing
            | Came::Spent {
                key: _,
                life: _,
                cause: _,
            } => {}
            Came::Above { item } => items.push_reserved(*item),
            Came::Stack { item } => put_three(items, Some(Item::Credit), Some(*item), None),
        },
        Some(left) => match &after.came {
            Came::Nothing
            | Came::Spent {
                key: _,
                life: _,
                cause: _,
            } => items.push_reserved(*left),
            Came::Above { item } => put_three(items, Some(*left), Some(*item), None),
            Came::Stack { item } => {
                put_three(items, Some(*left), Some(Item::Credit), Some(*item))
            }
        },
    }
}

// Puts what the turn of the last item left and brought in its place, and tells what the turn comes to for the task.
#[inline(always)]
fn settle(items: &mut Vec<Item>, after: &After) -> Turn
    requires some { items.old.items ≢ [] }
    requires room { length items.old.items + 2 ≤ vec_capacity items.old }
    ensures items { items.new.items ≡ but_last items.old.items ++ after_items after.now }
    ensures told { result ≡ task_turn after.now.came (length items.new.items) }
{
    items.pop();
    let left = items.len() + count_of(after);
    put_after(items, after);
    told_of(&after.came, left)
}

// What a turn of the last item, an exploring, came to where something came of it.
#[inline(never)]
fn settle_explored(items: &mut Vec<Item>, explore: &Explore, told: Explored, lives: u32) -> Turn
    requires some { items.old.items ≢ [] }
    requires room { length items.old.items + 2 ≤ vec_capacity items.old }
    ensures items { items.new.items ≡ but_last items.old.items ++ after_items (explored_after explore.now lives told) }
    ensures told { result ≡ task_turn (explored_after explore.now lives told).came (length items.new.items) }
{
    settle(items, &explore.after(told, lives))
}

// The same of a computing.
#[inline(never)]
fn settle_computed(items: &mut Vec<Item>, compute: &Compute, told: Computed, lives: u32) -> Turn
    requires some { items.old.items ≢ [] }
    requires room { length items.old.items + 2 ≤ vec_capacity items.old }
    ensures items { items.new.items ≡ but_last items.old.items ++ after_items (computed_after compute.now lives told) }
    ensures told { result ≡ task_turn (computed_after compute.now lives told).came (length items.new.items) }
{
    settle(items, &compute.after(told, lives))
}

// The same of a notification.
#[inline(never)]
fn settle_notified(items: &mut Vec<Item>, notify: &Notify, told: Notified, lives: u32) -> Turn
    requires some { items.old.items ≢ [] }
    requires left { notify.now.ports ≢ 0 }
    requires room { length items.old.items + 2 ≤ vec_capacity items.old }
    ensures items { items.new.items ≡ but_last items.old.items ++ after_items (notified_after notify.now lives told) }
    ensures told { result ≡ task_turn (notified_after notify.now lives told).came (length items.new.items) }
{
    settle(items, &notify.after(told, lives))
}

// An exploring that only goes on is changed where it lies.
#[inline(always)]
fn keep_explored(items: &mut Vec<Item>, explore: &Explore, told: Explored, lives: u32) -> Turn
    requires some { items.old.items ≢ [] }
    requires last { last_item items.old.items ≡ Item.Explore explore.now }
    requires room { length items.old.items + 2 ≤ vec_capacity items.old }
    ensures items { items.new.items ≡ but_last items.old.items ++ after_items (explored_after explore.now lives told) }
    ensures told { result ≡ task_turn (explored_after explore.now lives told).came (length items.new.items) }
{
    let last = items.len() - 1;
    if items[last].keep_explored(&told) {
        Turn::Going
    } else {
        settle_explored(items, explore, told, lives)
    }
}

// So is a computing.
#[inline(always)]
fn keep_computed(items: &mut Vec<Item>, compute: &Compute, told: Computed, lives: u32) -> Turn
    requires some { items.old.items ≢ [] }
    requires last { last_item items.old.items ≡ Item.Compute compute.now }
    requires room { length items.old.items + 2 ≤ vec_capacity items.old }
    ensures items { items.new.items ≡ but_last items.old.items ++ after_items (computed_after compute.now lives told) }
    ensures told { result ≡ task_turn (computed_after compute.now lives told).came (length items.new.items) }
{
    let last = items.len() - 1;
    if items[last].keep_computed(&told) {
        Turn::Going
    } else {
        settle_computed(items, compute, told, lives)
    }
}

// So is a notification.
#[inline(always)]
fn keep_notified(items: &mut Vec<Item>, notify: &Notify, told: Notified, lives: u32) -> Turn
    requires some { items.old.items ≢ [] }
    requires last { last_item items.old.items ≡ Item.Notify notify.now }
    requires left { notify.now.ports ≢ 0 }
    requires room { length items.old.items + 2 ≤ vec_capacity items.old }
    ensures items { items.new.items ≡ but_last items.old.items ++ after_items (notified_after notify.now lives told) }
    ensures told { result ≡ task_turn (notified_after notify.now lives told).came (length items.new.items) }
{
    let last = items.len() - 1;
    if items[last].keep_notified(&told) {
        Turn::Going
    } else {
        settle_notified(items, notify, told, lives)
    }
}

// The turn of an item that is not changed where it lies, by its kind.
fn turn_item<T: Steps, G: TaskGraph, Ke: Kernel>(
    item: &Item,
    steps: &mut T,
    terms: &Terms<'_, G>,
    hand: &mut Option<BlockCells>,
    scratch: &mut Scratch,
    kernel: &mut Ke,
    hints: &mut Hints,
) -> After
    requires runs { Runs (G.graph terms.now.graph.now) terms.now.plan.now terms.now.lives (T.setting steps.old) }
    requires stands { Stands (G.graph terms.now.graph.now) (T.setting steps.old) (T.view steps.old) (item.now) }
    requires outcome { Makes (G.graph terms.now.graph.now) (Ke.outcome kernel.old) (Ke.fits kernel.old) (T.setting steps.old) }
    requires left { is_over (T.setting steps.old).graph terms.now.plan.now item.now ≡ false }
    requires other { stays_often item.now ≡ false }
    requires top { FitsTop (T.setting steps.old) (T.view steps.old) hand.old item.now }
    requires scratch { FitsScratch (T.setting steps.old) (G.graph terms.now.graph.now) scratch.old item.now }
    requires calls { 1 ≤ Ke.spare kernel.old }
    requires hints { length hints.old ≤ 2 }
    requires room { 2 ≤ T.KeyWords.spare steps.old }
    ensures goes { Goes (G.graph terms.now.graph.now) (T.setting steps.old) (T.view steps.old) (T.view steps.new) (item_lines (T.setting steps.old).graph (item.now)) result }
    ensures top { AfterHand (T.setting steps.old) (T.view steps.new) hand.new result }
    ensures scratch { AfterScratch (T.setting steps.old) (G.graph terms.now.graph.now) scratch.new result }
    ensures hints { hints.new ≡ item_hints item.now hints.old }
    ensures calls { Ke.calls kernel.new ≡ item_calls (T.setting steps.old).graph item.now (Ke.calls kernel.old) }
    ensures kernel { SameKernel (Ke.outcome kernel.old) (Ke.outcome kernel.new) (Ke.fits kernel.old) (Ke.fits kernel.new) }
    ensures kernel_room { Ke.spare kernel.old ≤ Ke.spare kernel.new + 1 }
    ensures spent { is_spent result.came ≡ not (steps_on item.now) }
    ensures cause { ItemSpends (T.setting steps.old) item.now result.came }
    ensures ends { item.now ≡ Item.Credit → after_items result ≡ [] }
    ensures still { steps_on item.now ≡ false → steps.new ≡ steps.old }
    ensures knows { Remembers (T.view steps.old) (T.view steps.new) }
    ensures step { steps_on item.now ≡ true → HasStepped T.setting T.view T.KeyWords.made T.KeyWords.spare T.KeyWords.last T.shown T.happened T.lender T.others (item_prepared (T.setting steps.old).graph item.now) (item_event (T.setting steps.old) (T.view steps.old) terms.now.plan.now hand.old hand.new item.now) steps.old steps.new }
    ensures rest { steps_on item.now ≡ true → LetsFall (T.setting steps.old) terms.now.plan.now (item_event (T.setting steps.old) (T.view steps.old) terms.now.plan.now hand.old hand.new item.now) (T.shown steps.new).1 (item_rest (T.setting steps.old) terms.now.plan.now hand.old item.now) (after_rest (T.setting steps.old) terms.now.plan.now hand.new result) }
    ensures good { FallsGood (T.setting steps.old) hand.old item.now (item_rest (T.setting steps.old) terms.now.plan.now hand.old item.now) (after_rest (T.setting steps.old) terms.now.plan.now hand.new result) }
    ensures again { LooksAgain (T.setting steps.old).graph terms.now.plan.now (T.shown steps.new).1 item.now (after_items result) }
{
    match *item {
        Item::Credit => give_up(steps, terms),
        Item::Explore { explore: _ } | Item::Compute { compute: _ } | Item::Notify { notify: _ } =>
            unreachable!(),
        Item::Close { close } => close.turn(steps, terms, hand),
        Item::Look { look } => look.turn(steps, terms),
        Item::Owe { owe } => pay(owe, steps, terms, hints),
        Item::Recover { recover } => replace(recover, steps, terms, hints),
    }
}

impl Task {
    fn of(alloc: Global, item: Item) -> Task
        ensures { IsNew result item }
    {
        Task {
            begins: Some(item),
            items: Vec::new(alloc),
            hand: None,
        }
    }

    /// The exploring of a life of a task, which is known by its row.
    pub fn explore(alloc: Global, row: u32, key: Key, life: u32) -> Task
        ensures new { IsNew result (job_item (record { row = row; key = key; life = life }) Job.Explore) }
        ensures rest { HasFewLeft result key life }
    {
        Task::of(alloc, Item::of_job(row, key, Job::Explore, life))
    }

    /// The computing of a life of a task, which is known by its row.
    pub fn compute(alloc: Global, row: u32, key: Key, life: u32) -> Task
        ensures new { IsNew result (job_item (record { row = row; key = key; life = life }) Job.Compute) }
        ensures rest { HasFewLeft result key life }
    {
        Task::of(alloc, Item::of_job(row, key, Job::Compute, life))
    }

    /// Whether a block is in hand, which one turn took and a later one gives back.
    pub fn has_block(&self) -> bool
        ensures none { result ≡ false → (g : Graph) (e : Setting) (v : View) → Holds g e v self.now → v.hands ≡ [] }
        ensures some { result ≡ true → (g : Graph) (e : Setting) (v : View) → Holds g e v self.now → v.hands ≢ [] }
    {
        self.hand.is_some()
    }

    /// Makes room for what a turn adds. A refusal leaves the task as it was.
    pub fn reserve(&mut self) -> Result<(), AllocError>
        ensures room { OnOk result (length self.new.items.items + 4 ≤ vec_capacity self.new.items) }
        ensures same { SameTask self.old self.new }
    {
        if ROOM <= self.items.capacity() - self.items.len() {
            return Ok(());
        }
        self.items.reserve(GROWTH)
    }

    // Begins the job's stack with its credit. It stands apart, so that the turns that follow pay nothing for it.
    #[cold]
    #[inline(never)]
    fn begin_stack(&mut self)
        requires { HasSpace self.old }
        ensures items { self.new.items.items ≡ task_items self.old }
        ensures begun { self.new.begins ≡ None }
        ensures hand { self.new.hand ≡ self.old.hand }
        ensures room { length self.new.items.items + 2 ≤ vec_capacity self.new.items }
    {
        if let Some(item) = self.begins.take() {
            put_three(&mut self.items, Some(Item::Credit), Some(item), None);
        }
    }

    // Begins the job's stack with its credit, if it has not begun.
    #[inline(always)]
    fn begin(&mut self)
        requires { HasSpace self.old }
        ensures items { self.new.items.items ≡ task_items self.old }
        ensures begun { self.new.begins ≡ None }
        ensures hand { self.new.hand ≡ self.old.hand }
        ensures room { length self.new.items.items + 2 ≤ vec_capacity self.new.items }
    {
        match &self.begins {
            Some(_) => self.begin_stack(),
            None => {}
        }
    }

    // Turns the last item, which goes; what it leaves is put in its place.
    #[inline(never)]
    fn turn_other<T: Steps, G: TaskGraph, Ke: Kernel>(
        &mut self,
        steps: &mut T,
        run: &mut Run<'_, G, Ke>,
    ) -> Turn
        requires runs { Runs (G.graph run.old.graph.now) run.old.plan.now run.old.lives (T.setting steps.old) }
        requires stands { Stands (G.graph run.old.graph.now) (T.setting steps.old) (T.view steps.old) (last_item self.old.items.items) }
        requires outcome { Makes (G.graph run.old.graph.now) (Ke.outcome run.old.kernel.now) (Ke.fits run.old.kernel.now) (T.setting steps.old) }
        requires left { is_over (T.setting steps.old).graph run.old.plan.now (last_item self.old.items.items) ≡ false }
        requires top { FitsTop (T.setting steps.old) (T.view steps.old) self.old.hand (last_item self.old.items.items) }
        requires scratch { FitsScratch (T.setting steps.old) (G.graph run.old.graph.now) run.old.scratch.now (last_item self.old.items.items) }
        requires some { self.old.items.items ≢ [] }
        requires other { stays_often (last_item self.old.items.items) ≡ false }
        requires begun { self.old.begins ≡ None }
        requires space { length self.old.items.items + 2 ≤ vec_capacity self.old.items }
        requires calls { 1 ≤ Ke.spare run.old.kernel.now }
        requires hints { length run.old.hints.now ≤ 2 }
        requires room { 2 ≤ T.KeyWords.spare steps.old }
        ensures turned { HasTurned (G.graph run.old.graph.now) (T.setting steps.old) (T.view steps.old) (T.view steps.new) (last_item self.old.items.items) (but_last self.old.items.items) self.new run.new.scratch.now result }
        ensures calls { Ke.calls run.new.kernel.now ≡ item_calls (T.setting steps.old).graph (last_item self.old.items.items) (Ke.calls run.old.kernel.now) }
        ensures kernel { SameKernel (Ke.outcome run.old.kernel.now) (Ke.outcome run.new.kernel.now) (Ke.fits run.old.kernel.now) (Ke.fits run.new.kernel.now) }
        ensures kernel_room { Ke.spare run.old.kernel.now ≤ Ke.spare run.new.kernel.now + 1 }
        ensures hints { run.new.hints.now ≡ item_hints (last_item self.old.items.items) run.old.hints.now }
        ensures spent { ends_run result ≡ not (steps_on (last_item self.old.items.items)) }
        ensures ends { last_item self.old.items.items ≡ Item.Credit → self.new.items.items ≡ but_last self.old.items.items }
        ensures still { steps_on (last_item self.old.items.items) ≡ false → steps.new ≡ steps.old }
        ensures knows { Remembers (T.view steps.old) (T.view steps.new) }
        ensures step { steps_on (last_item self.old.items.items) ≡ true → HasStepped T.setting T.view T.KeyWords.made T.KeyWords.spare T.KeyWords.last T.shown T.happened T.lender T.others (item_prepared (T.setting steps.old).graph (last_item self.old.items.items)) (item_event (T.setting steps.old) (T.view steps.old) run.old.plan.now self.old.hand self.new.hand (last_item self.old.items.items)) steps.old steps.new }
        ensures rest { steps_on (last_item self.old.items.items) ≡ true → (left : List Item) → self.new.items.items ≡ but_last self.old.items.items ++ left → LetsFall (T.setting steps.old) run.old.plan.now (item_event (T.setting steps.old) (T.view steps.old) run.old.plan.now self.old.hand self.new.hand (last_item self.old.items.items)) (T.shown steps.new).1 (item_rest (T.setting steps.old) run.old.plan.now self.old.hand (last_item self.old.items.items)) (items_rest (T.setting steps.old) run.old.plan.now self.new.hand left) }
        ensures good { (left : List Item) → self.new.items.items ≡ but_last self.old.items.items ++ left → FallsGood (T.setting steps.old) self.old.hand (last_item self.old.items.items) (item_rest (T.setting steps.old) run.old.plan.now self.old.hand (last_item self.old.items.items)) (items_rest (T.setting steps.old) run.old.plan.now self.new.hand left) }
        ensures again { LeavesAbove (T.setting steps.old).graph run.old.plan.now (T.shown steps.new).1 (last_item self.old.items.items) (but_last self.old.items.items) self.new.items.items }
        ensures same_graph { run.new.graph.now ≡ run.old.graph.now }
        ensures same_plan { run.new.plan.now ≡ run.old.plan.now }
        ensures same_lives { run.new.lives ≡ run.old.lives }
        ensures same_kernel { run.new.kernel.ghost_name ≡ run.old.kernel.ghost_name }
        ensures same_scratch { run.new.scratch.ghost_name ≡ run.old.scratch.ghost_name }
        ensures same_hints { run.new.hints.ghost_name ≡ run.old.hints.ghost_name }
    {
        let terms = Terms {
            graph: run.graph,
            plan: run.plan,
            lives: run.lives,
        };
        let after = turn_item(
            last(&self.items),
            steps,
            &terms,
            &mut self.hand,
            run.scratch,
            run.kernel,
            run.hints,
        );
        settle(&mut self.items, &after)
    }

    // Turns the last item. One that only goes on is changed where it lies.
    #[inline(always)]
    fn turn_next<T: Steps, G: TaskGraph, Ke: Kernel>(
        &mut self,
        steps: &mut T,
        run: &mut Run<'_, G, Ke>,
    ) -> Turn
        requires runs { Runs (G.graph run.old.graph.now) run.old.plan.now run.old.lives (T.setting steps.old) }
        requires stands { Stands (G.graph run.old.graph.now) (T.setting steps.old) (T.view steps.old) (last_item self.old.items.items) }
        requires outcome { Makes (G.graph run.old.graph.now) (Ke.outcome run.old.kernel.now) (Ke.fits run.old.kernel.now) (T.setting steps.old) }
        requires left { is_over (T.setting steps.old).graph run.old.plan.now (last_item self.old.items.items) ≡ false }
        requires top { FitsTop (T.setting steps.old) (T.view steps.old) self.old.hand (last_item self.old.items.items) }
        requires scratch { FitsScratch (T.setting steps.old) (G.graph run.old.graph.now) run.old.scratch.now (last_item self.old.items.items) }
        requires some { self.old.items.items ≢ [] }
        requires begun { self.old.begins ≡ None }
        requires space { length self.old.items.items + 2 ≤ vec_capacity self.old.items }
        requires calls { 1 ≤ Ke.spare run.old.kernel.now }
        requires hints { length run.old.hints.now ≤ 2 }
        requires room { 2 ≤ T.KeyWords.spare steps.old }
        ensures turned { HasTurned (G.graph run.old.graph.now) (T.setting steps.old) (T.view steps.old) (T.view steps.new) (last_item self.old.items.items) (but_last self.old.items.items) self.new run.new.scratch.now result }
        ensures calls { Ke.calls run.new.kernel.now ≡ item_calls (T.setting steps.old).graph (last_item self.old.items.items) (Ke.calls run.old.kernel.now) }
        ensures kernel { SameKernel (Ke.outcome run.old.kernel.now) (Ke.outcome run.new.kernel.now) (Ke.fits run.old.kernel.now) (Ke.fits run.new.kernel.now) }
        ensures kernel_room { Ke.spare run.old.kernel.now ≤ Ke.spare run.new.kernel.now + 1 }
        ensures hints { run.new.hints.now ≡ item_hints (last_item self.old.items.items) run.old.hints.now }
        ensures spent { ends_run result ≡ not (steps_on (last_item self.old.items.items)) }
        ensures ends { last_item self.old.items.items ≡ Item.Credit → self.new.items.items ≡ but_last self.old.items.items }
        ensures still { steps_on (last_item self.old.items.items) ≡ false → steps.new ≡ steps.old }
        ensures knows { Remembers (T.view steps.old) (T.view steps.new) }
        ensures step { steps_on (last_item self.old.items.items) ≡ true → HasStepped T.setting T.view T.KeyWords.made T.KeyWords.spare T.KeyWords.last T.shown T.happened T.lender T.others (item_prepared (T.setting steps.old).graph (last_item self.old.items.items)) (item_event (T.setting steps.old) (T.view steps.old) run.old.plan.now self.old.hand self.new.hand (last_item self.old.items.items)) steps.old steps.new }
        ensures rest { steps_on (last_item self.old.items.items) ≡ true → (left : List Item) → self.new.items.items ≡ but_last self.old.items.items ++ left → LetsFall (T.setting steps.old) run.old.plan.now (item_event (T.setting steps.old) (T.view steps.old) run.old.plan.now self.old.hand self.new.hand (last_item self.old.items.items)) (T.shown steps.new).1 (item_rest (T.setting steps.old) run.old.plan.now self.old.hand (last_item self.old.items.items)) (items_rest (T.setting steps.old) run.old.plan.now self.new.hand left) }
        ensures good { (left : List Item) → self.new.items.items ≡ but_last self.old.items.items ++ left → FallsGood (T.setting steps.old) self.old.hand (last_item self.old.items.items) (item_rest (T.setting steps.old) run.old.plan.now self.old.hand (last_item self.old.items.items)) (items_rest (T.setting steps.old) run.old.plan.now self.new.hand left) }
        ensures again { LeavesAbove (T.setting steps.old).graph run.old.plan.now (T.shown steps.new).1 (last_item self.old.items.items) (but_last self.old.items.items) self.new.items.items }
        ensures same_graph { run.new.graph.now ≡ run.old.graph.now }
        ensures same_plan { run.new.plan.now ≡ run.old.plan.now }
        ensures same_lives { run.new.lives ≡ run.old.lives }
        ensures same_kernel { run.new.kernel.ghost_name ≡ run.old.kernel.ghost_name }
        ensures same_scratch { run.new.scratch.ghost_name ≡ run.old.scratch.ghost_name }
        ensures same_hints { run.new.hints.ghost_name ≡ run.old.hints.ghost_name }
    {
        let terms = Terms {
            graph: run.graph,
            plan: run.plan,
            lives: run.lives,
        };
        match last(&self.items) {
            Item::Explore { explore } => {
                let explore = *explore;
                let told = explore.turn(steps, &terms, &mut self.hand);
                keep_explored(&mut self.items, &explore, told, run.lives)
            }
            Item::Compute { compute } => {
                let compute = *compute;
                let told = compute.turn(steps, &terms, &mut self.hand, run.scratch, run.kernel);
                keep_computed(&mut self.items, &compute, told, run.lives)
            }
            Item::Notify { notify } => {
                let notify = *notify;
                let told = notify.turn(steps, &terms);
                keep_notified(&mut self.items, &notify, told, run.lives)
            }
            _ => self.turn_other(steps, run),
        }
    }

    /// One step of the last item that has something left to do; no step where the life that it replaces is the
    /// greatest. Items that are over go before.
    pub fn turn<T: Steps, G: TaskGraph, Ke: Kernel>(
        &mut self,
        steps: &mut T,
        run: &mut Run<'_, G, Ke>,
    ) -> Turn
        requires holds { Holds (G.graph run.old.graph.now) (T.setting steps.old) (T.view steps.old) self.old }
        requires some { task_items self.old ≢ [] }
        requires scratch { TaskScratch (T.setting steps.old) (G.graph run.old.graph.now) run.old.scratch.now self.old }
        requires runs { Runs (G.graph run.old.graph.now) run.old.plan.now run.old.lives (T.setting steps.old) }
        requires outcome { Makes (G.graph run.old.graph.now) (Ke.outcome run.old.kernel.now) (Ke.fits run.old.kernel.now) (T.setting steps.old) }
        requires space { HasSpace self.old }
        requires calls { 1 ≤ Ke.spare run.old.kernel.now }
        requires hints { length run.old.hints.now ≤ 2 }
        requires room { 2 ≤ T.KeyWords.spare steps.old }
        ensures holds { Holds (G.graph run.old.graph.now) (T.setting steps.old) (T.view steps.new) self.new }
        ensures tells { TaskTells (T.setting steps.old) (T.view steps.new) self.new result }
        ensures scratch { TaskScratch (T.setting steps.old) (G.graph run.old.graph.now) run.new.scratch.now self.new }
        ensures calls { NewCalls (Ke.calls run.old.kernel.now) (Ke.calls run.new.kernel.now) (T.view steps.old) (T.view steps.new) }
        ensures kernel { SameKernel (Ke.outcome run.old.kernel.now) (Ke.outcome run.new.kernel.now) (Ke.fits run.old.kernel.now) (Ke.fits run.new.kernel.now) }
        ensures kernel_room { Ke.spare run.old.kernel.now ≤ Ke.spare run.new.kernel.now + 1 }
        ensures hints { (left : List Item) (x : Item) → IsNext (T.setting steps.old).graph run.old.plan.now (task_items self.old) left (Some x) → run.new.hints.now ≡ item_hints x run.old.hints.now }
        ensures still { ends_run result ≡ true → steps.new ≡ steps.old }
        ensures step { (left : List Item) (x : Item) → IsNext (T.setting steps.old).graph run.old.plan.now (task_items self.old) left (Some x) → ends_run result ≡ false → HasStepped T.setting T.view T.KeyWords.made T.KeyWords.spare T.KeyWords.last T.shown T.happened T.lender T.others (item_prepared (T.setting steps.old).graph x) (item_event (T.setting steps.old) (T.view steps.old) run.old.plan.now self.old.hand self.new.hand x) steps.old steps.new }
        ensures rest { (left : List Item) (x : Item) → IsNext (T.setting steps.old).graph run.old.plan.now (task_items self.old) left (Some x) → ends_run result ≡ false → LetsFall (T.setting steps.old) run.old.plan.now (item_event (T.setting steps.old) (T.view steps.old) run.old.plan.now self.old.hand self.new.hand x) (T.shown steps.new).1 (task_rest (T.setting steps.old) run.old.plan.now self.old) (task_rest (T.setting steps.old) run.old.plan.now self.new) }
        ensures good { (left : List Item) (x : Item) → IsNext (T.setting steps.old).graph run.old.plan.now (task_items self.old) left (Some x) → FallsGood (T.setting steps.old) self.old.hand x (task_rest (T.setting steps.old) run.old.plan.now self.old) (task_rest (T.setting steps.old) run.old.plan.now self.new) }
        ensures again { (left : List Item) (x : Item) → IsNext (T.setting steps.old).graph run.old.plan.now (task_items self.old) left (Some x) → LeavesAbove (T.setting steps.old).graph run.old.plan.now (T.shown steps.new).1 x left (task_items self.new) }
        ensures same_graph { run.new.graph.now ≡ run.old.graph.now }
        ensures same_plan { run.new.plan.now ≡ run.old.plan.now }
        ensures same_lives { run.new.lives ≡ run.old.lives }
        ensures same_kernel { run.new.kernel.ghost_name ≡ run.old.kernel.ghost_name }
        ensures same_scratch { run.new.scratch.ghost_name ≡ run.old.scratch.ghost_name }
        ensures same_hints { run.new.hints.ghost_name ≡ run.old.hints.ghost_name }
    {
        self.begin();
        let terms = Terms {
            graph: run.graph,
            plan: run.plan,
            lives: run.lives,
        };
        if next(&mut self.items, &terms) {
            self.turn_next(steps, run)
        } else {
            Turn::Done
        }
    }
}
