//! Pairs and strikes of three numbers, worked out by a program of another language.

use crate::{generated, needed, worth};
use formula_text::Formula;
use graph_model::{FaultPlan, Key, Point, Strike, Target};
use raw_graph::{RawGraph, RawTask};
use std::alloc::Global;
use std::test::Fail;

const NOTIFY: Target = Target::Notify { word: 0 };

// What is known of a number: its sink's value, how far back tasks 65 to 69 and tasks 8188 to 8192 look, and the strikes at either end.
#[derive(Drop)]
struct Known {
    number: u32,
    value: i64,
    first_pairs: [(u64, u64); 5],
    last_pairs: [(u64, u64); 5],
    first_strikes: [(u64, Point, Target); 5],
    last_strikes: [(u64, Point, Target); 6],
}

fn of_zero() -> Known {
    Known {
        number: 0,
        value: 8256,
        first_pairs: [(64, 9), (18, 53), (46, 28), (57, 8), (33, 28)],
        last_pairs: [(29, 13), (42, 10), (5, 25), (61, 55), (47, 13)],
        first_strikes: [
            (1043, Point::Ready, Target::Block),
            (1550, Point::Ready, Target::Block),
            (1206, Point::Computed, NOTIFY),
            (5644, Point::Computed, Target::Block),
            (6585, Point::Ready, NOTIFY),
        ],
        last_strikes: [
            (5640, Point::Notified, Target::Descriptor),
            (7731, Point::Explored, Target::Block),
            (2780, Point::Notified, Target::Descriptor),
            (6913, Point::Notified, Target::Block),
            (6023, Point::Explored, NOTIFY),
            (10064, Point::Computed, Target::Block),
        ],
    }
}

fn of_seven() -> Known {
    Known {
        number: 7,
        value: 8263,
        first_pairs: [(31, 64), (50, 18), (42, 4), (41, 21), (28, 55)],
        last_pairs: [(9, 27), (42, 40), (36, 15), (1, 29), (20, 10)],
        first_strikes: [
            (8093, Point::Explored, Target::Descriptor),
            (7426, Point::Computed, Target::Descriptor),
            (5681, Point::Notified, NOTIFY),
            (4869, Point::Computed, NOTIFY),
            (6552, Point::Ready, Target::Descriptor),
        ],
        last_strikes: [
            (2685, Point::Computed, Target::Descriptor),
            (4738, Point::Ready, Target::Descriptor),
            (6358, Point::Computed, NOTIFY),
            (7661, Point::Notified, Target::Block),
            (1552, Point::Computed, Target::Descriptor),
            (10064, Point::Computed, Target::Block),
        ],
    }
}

fn of_greatest() -> Known {
    Known {
        number: 4294967295,
        value: 4294975551,
        first_pairs: [(64, 45), (17, 12), (63, 64), (57, 41), (64, 1)],
        last_pairs: [(6, 41), (21, 14), (24, 47), (25, 48), (14, 5)],
        first_strikes: [
            (991, Point::Computed, Target::Descriptor),
            (5181, Point::Ready, Target::Block),
            (3162, Point::Explored, Target::Block),
            (3455, Point::Notified, NOTIFY),
            (4218, Point::Notified, NOTIFY),
        ],
        last_strikes: [
            (3020, Point::Explored, Target::Descriptor),
            (4010, Point::Computed, NOTIFY),
            (552, Point::Explored, Target::Descriptor),
            (6940, Point::Notified, NOTIFY),
            (1879, Point::Ready, NOTIFY),
            (10064, Point::Computed, Target::Block),
        ],
    }
}

// Whether the formula of a later task has this text.
fn reads(alloc: Global, formula: &Formula, d: u64, e: u64) -> Result<bool, Fail> {
    let wanted = format!(in alloc; "$0+$1-$2+1+{d}-{e}")?;
    let written = formula.write(alloc)?;
    Ok(written.as_slice() == wanted.as_str().as_bytes())
}

// Whether a task looks back one place, d places and e places.
fn looks_back(alloc: Global, task: &RawTask, key: u64, d: u64, e: u64) -> Result<bool, Fail> {
    let inputs = [
        key.wrapping_sub(1),
        key.wrapping_sub(d),
        key.wrapping_sub(e),
    ];
    if task.key != Key(key) || task.inputs.as_slice() != inputs.as_slice() {
        return Ok(false);
    }
    reads(alloc, &task.formula, d, e)
}

// Whether the tasks from a key on look back so.
fn have_pairs(
    alloc: Global,
    graph: &RawGraph,
    first: u64,
    pairs: &[(u64, u64)],
) -> Result<bool, Fail> {
    let mut key = first;
    for (d, e) in pairs {
        let Some(task) = graph.tasks.get(key.wrapping_sub(1) as usize) else {
            return Ok(false);
        };
        if !looks_back(alloc, task, key, *d, *e)? {
            return Ok(false);
        }
        key = key.wrapping_add(1);
    }
    Ok(true)
}

// Whether the strikes of a plan from a place on are these.
fn have_strikes(plan: &FaultPlan, first: u32, strikes: &[(u64, Point, Target)]) -> bool {
    let mut place = first;
    for (key, point, target) in strikes {
        let wanted = Strike {
            key: Key(*key),
            life: 1,
            point: *point,
            target: *target,
        };
        if place >= plan.len() || plan.get(place) != wanted {
            return false;
        }
        place = place.wrapping_add(1);
    }
    true
}

#[test]
fn three_numbers(rt: HostRuntime) -> Result<(), Fail> {
    let alloc = rt.alloc();
    for known in [of_zero(), of_seven(), of_greatest()] {
        let (graph, plan) = generated(alloc, known.number)?;
        assert_eq!(rt; worth(known.number), known.value);
        assert_eq!(rt; graph.sink, Key(20000));
        assert_eq!(rt; graph.tasks.len(), 8257);
        assert_eq!(rt; needed(), 8257);
        assert!(rt; have_pairs(alloc, &graph, 65, &known.first_pairs)?);
        assert!(rt; have_pairs(alloc, &graph, 8188, &known.last_pairs)?);
        assert_eq!(rt; plan.len(), 1025);
        assert!(rt; have_strikes(&plan, 0, &known.first_strikes));
        assert!(rt; have_strikes(&plan, 1019, &known.last_strikes));
    }
    Ok(())
}
