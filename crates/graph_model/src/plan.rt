ghost use Rattle.std.specs.Prelude.{◌≡◌, ◌+◌, ◌<◌, ◌≤◌, ◌^◌, ◌==◌, ℕ, List, [], ◌∷◌, ◌++◌, IfSome, None, filter, if◌then◌else◌, length, map, option_map, slice_get, take};
ghost use Rattle.std.specs.List.{insert};
ghost use Rattle.std.specs.List.Sorted.{IsNonDecreasingBy, IsPartitionPoint};
ghost use Rattle.graph_model.specs.Plans.{hits, code, code_in, strike_code, HasTaskKeys, IsIndex, point_number};

use super::key::Key;
use std::marker::Model;

/// The points that a worker passes in the life of a task.
#[derive(Clone, Copy, Debug, PartialEq, Eq)]
pub enum Point {
    Explored,
    Ready,
    Computed,
    Notified,
}

/// What a strike hits.
#[derive(Clone, Copy, Debug, PartialEq, Eq)]
pub enum Target {
    Descriptor,
    Notify { word: u32 },
    Block,
}

/// A fault to be made when a task passes a point in one of its lives.
#[derive(Clone, Copy, Debug, PartialEq, Eq)]
pub struct Strike {
    pub key: Key,
    pub life: u32,
    pub point: Point,
    pub target: Target,
}

/// The most strikes of a plan.
pub const MOST_STRIKES: usize = 4096;

/// The faults of a run, in order.
#[derive(Debug, Drop)]
pub struct FaultPlan {
    strikes: Vec<Strike>,
    // The places of the strikes, by what they wait for and then as in the plan. What stands behind them is not used.
    order: [u16; MOST_STRIKES],
}

impl Model for FaultPlan {
    ghost use Rattle.std.specs.Prelude.{List, ◌≤◌, length, take};
    ghost use Rattle.graph_model.specs.declared.plan.Strike.{Strike};

    ghost Value = { List Strike };

    ghost use Rattle.graph_model.specs.Plans.{HasTaskKeys, IsIndex};

    ghost view = { λ p. p.strikes.items };

    ghost invariant = { λ p. (length p.strikes.items ≤ 4096) × HasTaskKeys p.strikes.items × IsIndex p.strikes.items (length p.strikes.items) (take (length p.strikes.items) p.order) };
}

fn number_of(point: Point) -> u8
    ensures { result ≡ point_number point }
{
    match point {
        Point::Explored => 0,
        Point::Ready => 1,
        Point::Computed => 2,
        Point::Notified => 3,
    }
}

// A number that orders strikes by what they wait for.
fn code_of(key: Key, life: u32, point: Point) -> u128
    ensures code { result ≡ code key life point }
    ensures small { result < 2 ^ 98 }
{
    (u128::from(key.0) * 4294967296 + u128::from(life)) * 4 + u128::from(number_of(point))
}

// The number of the strike at a place.
fn code_at(strikes: &[Strike], place: u16) -> u128
    ensures code { result ≡ code_in strikes.now place }
    ensures small { result < 2 ^ 98 }
    ensures life { IfSome (slice_get strikes.now place) (λ strike. strike.life < 2 ^ 32) }
{
    match strikes.get(place as usize) {
        Some(strike) => code_of(strike.key, strike.life, strike.point),
        None => 0,
    }
}

// How many of these places come before a number.
fn places_before(places: &[u16], strikes: &[Strike], code: u128) -> usize
    requires { IsNonDecreasingBy (code_in strikes.now) places.now }
    ensures inside { result ≤ length places.now }
    ensures point { IsPartitionPoint (λ place. code_in strikes.now place < code) (λ place. code ≤ code_in strikes.now place) places.now result }
{
    places.partition_point(|place| code_at(strikes, *place) < code)
}

// Moves the last place back, before those that stand at `at` and behind.
fn put_last_at(places: &mut [u16], at: usize)
    requires { at < length places.old }
    ensures { (first : List ℕ) (last : ℕ) → places.old ≡ first ++ last ∷ [] → places.new ≡ insert first at last }
{
    places[at..].rotate_right(1);
}

// Adds the next place to the index of the places below it.
fn add_place(order: &mut [u16], strikes: &[Strike], place: u16)
    requires room { place < length order.old }
    requires strike { place < length strikes.now }
    requires index { IsIndex strikes.now place (take place order.old) }
    ensures { IsIndex strikes.now (place + 1) (take (place + 1) order.new) }
{
    let count = place as usize;
    let at = places_before(&order[..count], strikes, code_at(strikes, place) + 1);
    order[count] = place;
    put_last_at(&mut order[..count + 1], at);
}

// The target of the strike at a place, if it has this number.
fn target_of(strikes: &[Strike], place: u16, code: u128) -> Option<Target>
    ensures { result ≡ (if code_in strikes.now place == code then option_map (λ strike. strike.target) (slice_get strikes.now place) else None) }
{
    if code_at(strikes, place) != code {
        return None;
    }
    strikes.get(place as usize).map(|strike| strike.target)
}

// The target of the i-th strike that has a number.
fn target_at(strikes: &[Strike], places: &[u16], code: u128, i: u32) -> Option<Target>
    requires length { length places.now ≤ 4096 }
    requires index { IsIndex strikes.now (length strikes.now) places.now }
    ensures { result ≡ slice_get (map (λ strike. strike.target) (filter (λ strike. strike_code strike == code) strikes.now)) i }
{
    let first = places_before(places, strikes, code);
    match places.get(first + i as usize) {
        Some(place) => target_of(strikes, *place, code),
        None => None,
    }
}

impl FaultPlan {
    /// Puts the strikes in order, without memory.
    pub fn of(strikes: Vec<Strike>) -> FaultPlan
        requires few { length strikes.items ≤ 4096 }
        requires keys { HasTaskKeys strikes.items }
        ensures { result ≡ strikes.items }
    {
        let mut order = [0u16; MOST_STRIKES];
        let waiting = strikes.as_slice();
        for place in 0..waiting.len() as u16 {
            add_place(&mut order, waiting, place);
        }
        FaultPlan { strikes, order }
    }

    /// How many strikes there are.
    pub fn len(&self) -> u32
        ensures count { result ≡ length self.now }
        ensures few { length self.now ≤ 4096 }
        ensures keys { HasTaskKeys self.now }
    {
        self.strikes.len() as u32
    }

    /// The i-th strike.
    pub fn get(&self, i: u32) -> Strike
        requires { i < length self.now }
        ensures { slice_get self.now i ≡ Some result }
    {
        self.strikes[i as usize]
    }

    /// The target of the i-th strike that waits for these three.
    pub fn strikes_at(&self, point: Point, key: Key, life: u32, i: u32) -> Option<Target>
        ensures { result ≡ slice_get (hits point key life self.now) i }
    {
        let places = &self.order[..self.strikes.len()];
        let code = code_of(key, life, point);
        target_at(self.strikes.as_slice(), places, code, i)
    }
}
