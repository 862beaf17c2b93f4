//! The work of one thread.
ghost use Rattle.std.specs.Prelude.{◌≡◌, IfNone, IfSome, List, Option, true};
ghost use Rattle.compute_notify.specs.Running.{Makes, Runs, SameKernel};
ghost use Rattle.graph_model.specs.Graph.{Graph};
ghost use Rattle.graph_model.specs.Notes.{Note};
ghost use Rattle.recovery.specs.Memory.{SameResults};
ghost use Rattle.task_table.specs.Passes.{lender_of};
ghost use Rattle.worker_pool.specs.Calling.{HasCalled};
ghost use Rattle.worker_pool.specs.Pooling.{IsRun};
ghost use Rattle.worker_pool.specs.Threads.{EndsWell, IsReady, IsServed, StationHolds};
ghost use Rattle.worker_pool.specs.Working.{KeepsTable, NamesTasks, is_idle};

use crate::crew::Crew;
use crate::slot::{Ending, Slot, Station};
use crate::worker::Terms;
use core_state::Course;
use core_steps::Steps;
use graph_model::{Kernel, TaskGraph};
use key_table::KeyWords;
use std::alloc::Global;
use std::sync::Wait;
use task_table::{TableSeat, TaskTable};

// A turn of a worker without work: a look at the row of a hint, or at what is pending where it finds none.
fn looked<T: Steps, R: Wait>(
    rt: &R,
    steps: &mut T,
    crew: &Crew,
    station: &mut Station,
) -> Option<Ending>
    requires idle { is_idle station.old.worker.work ≡ true }
    ensures holds { (g : Graph) → NamesTasks g (T.setting steps.old) → StationHolds g (T.setting steps.old) (T.view steps.old) station.old → StationHolds g (T.setting steps.old) (T.view steps.new) station.new }
    ensures ends { IfSome result (λ x. (g : Graph) → StationHolds g (T.setting steps.old) (T.view steps.old) station.old → EndsWell (T.setting steps.old) (T.view steps.new) x) }
    ensures results { SameResults (T.view steps.old) (T.view steps.new) }
    ensures table { KeepsTable T.setting T.lender T.others steps.old steps.new }
{
    let number = station.number;
    let Some(row) = station.hint(crew) else {
        if steps.load_pending() == 0 {
            return Some(Ending::Over);
        }
        station.rest.wait(rt, crew, number);
        return None;
    };
    station.rest.end(crew, number);
    if row < steps.rows() {
        station.worker.look(steps, row);
    }
    None
}

// Stops the table for all workers.
fn stopped<T: Steps>(steps: &mut T, ending: Ending) -> Ending
    requires ends { EndsWell (T.setting steps.old) (T.view steps.old) ending }
    ensures same { result ≡ ending }
    ensures ends { EndsWell (T.setting steps.old) (T.view steps.new) result }
    ensures results { SameResults (T.view steps.old) (T.view steps.new) }
    ensures table { KeepsTable T.setting T.lender T.others steps.old steps.new }
{
    steps.stop();
    ending
}

// A turn of a worker that has a task or a hint in service.
fn turned<T: Steps, G: TaskGraph, Ke: Kernel>(
    alloc: Global,
    steps: &mut T,
    terms: &Terms<'_, G>,
    crew: &Crew,
    station: &mut Station,
    kernel: &mut Ke,
) -> Option<Ending>
    requires holds { StationHolds (G.graph terms.now.graph.now) (T.setting steps.old) (T.view steps.old) station.old }
    requires runs { Runs (G.graph terms.now.graph.now) terms.now.plan.now terms.now.lives (T.setting steps.old) }
    requires outcome { Makes (G.graph terms.now.graph.now) (Ke.outcome kernel.old) (Ke.fits kernel.old) (T.setting steps.old) }
    ensures holds { IfNone result (StationHolds (G.graph terms.now.graph.now) (T.setting steps.old) (T.view steps.new) station.new) }
    ensures ends { IfSome result (λ x. EndsWell (T.setting steps.old) (T.view steps.new) x) }
    ensures calls { (before : Option (List Note)) → HasCalled before (Ke.calls kernel.old) (T.view steps.old) → HasCalled before (Ke.calls kernel.new) (T.view steps.new) }
    ensures kernel { SameKernel (Ke.outcome kernel.old) (Ke.outcome kernel.new) (Ke.fits kernel.old) (Ke.fits kernel.new) }
    ensures table { KeepsTable T.setting T.lender T.others steps.old steps.new }
{
    match station
        .worker
        .turn(alloc, steps, terms, kernel, &mut station.posted)
    {
        Ok(None) => {
            station.share(crew);
            None
        }
        Ok(Some(spent)) => {
            // A block in hand is brought home first: the life is told again.
            if station.worker.has_block() {
                return None;
            }
            Some(stopped(steps, Ending::Spent { spent }))
        }
        Err(_) => Some(stopped(steps, Ending::Refused)),
    }
}

// One turn of a worker.
fn round<T: Steps, G: TaskGraph, Ke: Kernel, R: Wait>(
    rt: &R,
    alloc: Global,
    steps: &mut T,
    terms: &Terms<'_, G>,
    crew: &Crew,
    station: &mut Station,
    kernel: &mut Ke,
) -> Option<Ending>
    requires names { NamesTasks (G.graph terms.now.graph.now) (T.setting steps.old) }
    requires holds { StationHolds (G.graph terms.now.graph.now) (T.setting steps.old) (T.view steps.old) station.old }
    requires runs { Runs (G.graph terms.now.graph.now) terms.now.plan.now terms.now.lives (T.setting steps.old) }
    requires outcome { Makes (G.graph terms.now.graph.now) (Ke.outcome kernel.old) (Ke.fits kernel.old) (T.setting steps.old) }
    ensures holds { IfNone result (StationHolds (G.graph terms.now.graph.now) (T.setting steps.old) (T.view steps.new) station.new) }
    ensures ends { IfSome result (λ x. EndsWell (T.setting steps.old) (T.view steps.new) x) }
    ensures calls { (before : Option (List Note)) → HasCalled before (Ke.calls kernel.old) (T.view steps.old) → HasCalled before (Ke.calls kernel.new) (T.view steps.new) }
    ensures kernel { SameKernel (Ke.outcome kernel.old) (Ke.outcome kernel.new) (Ke.fits kernel.old) (Ke.fits kernel.new) }
    ensures table { KeepsTable T.setting T.lender T.others steps.old steps.new }
{
    if station.worker.is_idle() {
        return looked(rt, steps, crew, station);
    }
    turned(alloc, steps, terms, crew, station, kernel)
}

// Turns a worker until it ends. Before each turn it looks at stop, and is stopped once no block is in its hand.
fn work<C: Course, G: TaskGraph, Ke: Kernel, R: Wait>(
    rt: &R,
    alloc: Global,
    seat: &mut TableSeat<'_, C>,
    terms: &Terms<'_, G>,
    crew: &Crew,
    station: &mut Station,
    kernel: &mut Ke,
) -> Ending
    requires run { IsRun (G.graph terms.now.graph.now) C.setting }
    requires holds { StationHolds (G.graph terms.now.graph.now) C.setting seat.old.pass.view station.old }
    requires runs { Runs (G.graph terms.now.graph.now) terms.now.plan.now terms.now.lives C.setting }
    requires outcome { Makes (G.graph terms.now.graph.now) (Ke.outcome kernel.old) (Ke.fits kernel.old) C.setting }
    ensures ends { EndsWell C.setting seat.new.pass.view result }
    ensures calls { (before : Option (List Note)) → HasCalled before (Ke.calls kernel.old) seat.old.pass.view → HasCalled before (Ke.calls kernel.new) seat.new.pass.view }
    ensures kernel { SameKernel (Ke.outcome kernel.old) (Ke.outcome kernel.new) (Ke.fits kernel.old) (Ke.fits kernel.new) }
    ensures seat { lender_of seat.new.pass ≡ lender_of seat.old.pass }
{
    for _ in rt.forever() {
        if seat.sees_stop() && !station.worker.has_block() {
            return Ending::Stopped;
        }
        match round(rt, alloc, seat, terms, crew, station, kernel) {
            Some(ending) => return ending,
            None => {}
        }
    }
    unreachable!()
}

/// Turns the worker of a slot until it ends. Then all others are woken, which may have to end too.
pub(crate) fn serve<C: Course, G: TaskGraph, Ke: Kernel, R: Wait>(
    rt: &R,
    alloc: Global,
    table: &TaskTable<C>,
    terms: &Terms<'_, G>,
    crew: &Crew,
    slot: &mut Slot<C, Ke>,
)
    requires run { IsRun (G.graph terms.now.graph.now) C.setting }
    requires runs { Runs (G.graph terms.now.graph.now) terms.now.plan.now terms.now.lives C.setting }
    requires ready { IsReady (G.graph terms.now.graph.now) C.setting table.now Ke.outcome Ke.fits slot.old }
    ensures served { IsServed C.setting table.now Ke.outcome Ke.fits Ke.calls slot.old slot.new }
{
    let Some(pass) = slot.pass.take() else {
        return;
    };
    let mut seat = table.seat(pass);
    slot.ending = work(
        rt,
        alloc,
        &mut seat,
        terms,
        crew,
        &mut slot.station,
        &mut slot.kernel,
    );
    slot.pass = Some(seat.leave());
    crew.wake_all();
}
