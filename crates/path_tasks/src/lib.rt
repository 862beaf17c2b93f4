//! The tasks of blocked Floyd-Warshall over b tiles a side, 1 to 16. Nothing is listed: each edge is computed from the task.
//!
//! Round 0 loads each tile. Round t from 1 to b has the pivot tile (t - 1, t - 1): it is closed, then the tiles of its row
//! and its column take it, then the rest take these. Each round overwrites the tile's block, so a tile also waits for those
//! that read its last version. After round b each row of tiles is gathered, and the sink gathers the rows.
#![tactic(auto)]

ghost use Rattle.std.specs.Prelude.{◌≡◌, ◌<◌, ◌≤◌, ℕ};
ghost use Rattle.path_tasks.specs.Tasks.{skip, place_without, InKeyOrder, IsTask, OrderAscends, OrderIsReaders, OverwritesLast, PlaceInRange, PortInRange, PredIsSucc, RankFalls, SuccIsPred, input_count_of, inputs, part, pred_count_of, pred_of, rank_of, reader_at, reader_column, reader_row, readers, read_place, source_column, source_row, succ_count_of, succ_of, wait_at, wait_column, wait_row, waits};

mod keys;

pub use keys::{key_of, task_of, task_total};

/// The most tiles a side.
pub const WIDEST: u32 = 16;

/// What a tile is in its round. Round 0 loads, and round t from 1 has the pivot (t - 1, t - 1).
#[derive(Clone, Copy)]
pub enum Part {
    Load,
    Pivot,
    Row,
    Column,
    Rest,
}

/// A task, which writes one version of one block.
#[derive(Clone, Copy)]
pub enum Task {
    /// A round, and the tile's row and column.
    Tile(u32, u32, u32),
    /// A row of tiles, side by side.
    Gather(u32),
    /// The whole matrix.
    Sink,
}

/// One end of an edge: a task with a place or a port of it.
#[derive(Clone, Copy)]
pub struct End {
    pub task: Task,
    pub at: u32,
}

/// The laws of the graph over b tiles a side.
pub fn laws(b: u32)
    ensures ranks { RankFalls b }
    ensures ports { PortInRange b }
    ensures places { PlaceInRange b }
    ensures there { PredIsSucc b }
    ensures back { SuccIsPred b }
    ensures versions { OverwritesLast b }
    ensures order { InKeyOrder b }
    ensures readers { OrderIsReaders b }
    ensures ascending { OrderAscends b }
{}

/// How many predecessors a task has.
pub fn pred_count(b: u32, task: Task) -> u32
    requires from_one { 1 ≤ b }
    requires to_widest { b ≤ WIDEST }
    requires known { IsTask b task }
    ensures { result ≡ pred_count_of b task }
{
    match task {
        Task::Tile(t, i, j) => {
            if t == 0 {
                0
            } else {
                inputs(part_of(t, i, j)) + readers(b, part_of(t - 1, i, j))
            }
        }
        Task::Gather(_) => b,
        Task::Sink => b,
    }
}

/// The predecessor at place n, and the port of this edge.
pub fn pred(b: u32, task: Task, n: u32) -> End
    requires from_one { 1 ≤ b }
    requires to_widest { b ≤ WIDEST }
    requires known { IsTask b task }
    requires place { n < pred_count_of b task }
    ensures { result ≡ pred_of b task n }
{
    match task {
        Task::Tile(t, i, j) => tile_pred(b, t, i, j, n),
        Task::Gather(i) => End {
            task: Task::Tile(b, i, n),
            at: readers(b, part_of(b, i, n)),
        },
        Task::Sink => End {
            task: Task::Gather(n),
            at: 0,
        },
    }
}

/// How many of them are data predecessors, which come first.
pub fn input_count(b: u32, task: Task) -> u32
    requires known { IsTask b task }
    ensures { result ≡ input_count_of b task }
{
    match task {
        Task::Tile(t, i, j) => inputs(part_of(t, i, j)),
        Task::Gather(_) => b,
        Task::Sink => b,
    }
}

/// How many successors a task has.
pub fn succ_count(b: u32, task: Task) -> u32
    requires from_one { 1 ≤ b }
    requires to_widest { b ≤ WIDEST }
    requires known { IsTask b task }
    ensures { result ≡ succ_count_of b task }
{
    match task {
        Task::Tile(t, i, j) => {
            let p = part_of(t, i, j);
            readers(b, p) + if t < b { waits(p) } else { 1 }
        }
        Task::Gather(_) => 1,
        Task::Sink => 0,
    }
}

/// The successor at port n, and the place of this edge.
pub fn succ(b: u32, task: Task, n: u32) -> End
    requires from_one { 1 ≤ b }
    requires to_widest { b ≤ WIDEST }
    requires known { IsTask b task }
    requires port { n < succ_count_of b task }
    ensures { result ≡ succ_of b task n }
{
    match task {
        Task::Tile(t, i, j) => tile_succ(b, t, i, j, n),
        Task::Gather(i) => End {
            task: Task::Sink,
            at: i,
        },
        Task::Sink => End {
            task: Task::Sink,
            at: 0,
        },
    }
}

/// A number that falls along each edge to a predecessor.
pub fn rank(b: u32, task: Task) -> u32
    requires from_one { 1 ≤ b }
    requires to_widest { b ≤ WIDEST }
    requires known { IsTask b task }
    ensures { result ≡ rank_of b task }
{
    match task {
        Task::Tile(t, i, j) => match part_of(t, i, j) {
            Part::Load => 0,
            Part::Pivot => 3 * t - 2,
            Part::Row => 3 * t - 1,
            Part::Column => 3 * t - 1,
            Part::Rest => 3 * t,
        },
        Task::Gather(_) => 3 * b + 1,
        Task::Sink => 3 * b + 2,
    }
}

fn tile_pred(b: u32, t: u32, i: u32, j: u32, n: u32) -> End
    requires from_one { 1 ≤ b }
    requires to_widest { b ≤ WIDEST }
    requires known { IsTask b (Task.Tile t i j) }
    requires place { n < pred_count_of b (Task.Tile t i j) }
    ensures { result ≡ pred_of b (Task.Tile t i j) n }
{
    let r = t - 1;
    let p = part_of(t, i, j);
    let q = part_of(r, i, j);
    if n == 0 {
        End {
            task: Task::Tile(r, i, j),
            at: readers(b, q) + wait_at(r.saturating_sub(1), q, i, j, i, j),
        }
    } else if n < inputs(p) {
        let x = source_row(r, p, i, n);
        let y = source_column(r, p, j, n);
        End {
            task: Task::Tile(t, x, y),
            at: reader_at(b, r, part_of(t, x, y), i, j),
        }
    } else {
        let x = reader_row(b, r - 1, q, i, n - inputs(p));
        let y = reader_column(b, r - 1, q, j, n - inputs(p));
        let s = part_of(r, x, y);
        End {
            task: Task::Tile(r, x, y),
            at: readers(b, s) + wait_at(r - 1, s, x, y, i, j),
        }
    }
}

fn tile_succ(b: u32, t: u32, i: u32, j: u32, n: u32) -> End
    requires from_one { 1 ≤ b }
    requires to_widest { b ≤ WIDEST }
    requires known { IsTask b (Task.Tile t i j) }
    requires port { n < succ_count_of b (Task.Tile t i j) }
    ensures { result ≡ succ_of b (Task.Tile t i j) n }
{
    let r = t.saturating_sub(1);
    let p = part_of(t, i, j);
    let near = readers(b, p);
    if n < near {
        End {
            task: Task::Tile(t, reader_row(b, r, p, i, n), reader_column(b, r, p, j, n)),
            at: read_place(p),
        }
    } else if t < b {
        let x = wait_row(r, p, i, n - near);
        let y = wait_column(r, p, i, j, n - near);
        if x == i && y == j {
            End {
                task: Task::Tile(t + 1, x, y),
                at: 0,
            }
        } else {
            End {
                task: Task::Tile(t + 1, x, y),
                at: inputs(part_of(t + 1, x, y)) + reader_at(b, r, part_of(t, x, y), i, j),
            }
        }
    } else {
        End {
            task: Task::Gather(i),
            at: j,
        }
    }
}

/// What tile (i, j) is in round t.
pub fn part_of(t: u32, i: u32, j: u32) -> Part
    ensures { result ≡ part t i j }
{
    if t == 0 {
        Part::Load
    } else if i == t - 1 {
        if j == t - 1 { Part::Pivot } else { Part::Row }
    } else if j == t - 1 {
        Part::Column
    } else {
        Part::Rest
    }
}

fn inputs(p: Part) -> u32
    ensures { result ≡ inputs p }
{
    match p {
        Part::Load => 0,
        Part::Pivot => 1,
        Part::Row => 2,
        Part::Column => 2,
        Part::Rest => 3,
    }
}

fn readers(b: u32, p: Part) -> u32
    requires from_one { 1 ≤ b }
    requires to_widest { b ≤ WIDEST }
    ensures { result ≡ readers b p }
{
    match p {
        Part::Load => 0,
        Part::Pivot => 2 * (b - 1),
        Part::Row => b - 1,
        Part::Column => b - 1,
        Part::Rest => 0,
    }
}

fn skip(r: u32, n: u32) -> u32
    requires { n < 1000 }
    ensures { result ≡ skip r n }
{
    if n < r { n } else { n + 1 }
}

fn place_without(r: u32, x: u32) -> u32
    ensures { result ≡ place_without r x }
{
    if x < r { x } else { x.saturating_sub(1) }
}

fn reader_row(b: u32, r: u32, p: Part, i: u32, n: u32) -> u32
    requires from_one { 1 ≤ b }
    requires to_widest { b ≤ WIDEST }
    requires round { r < b }
    requires port { n < readers b p }
    ensures { result ≡ reader_row b r p i n }
{
    match p {
        Part::Pivot => {
            if n < r {
                n
            } else if n < r + (b - 1) {
                r
            } else {
                n + 2 - b
            }
        }
        Part::Row => skip(r, n),
        _ => i,
    }
}

fn reader_column(b: u32, r: u32, p: Part, j: u32, n: u32) -> u32
    requires from_one { 1 ≤ b }
    requires to_widest { b ≤ WIDEST }
    requires round { r < b }
    requires port { n < readers b p }
    ensures { result ≡ reader_column b r p j n }
{
    match p {
        Part::Pivot => {
            if n < r || n >= r + (b - 1) {
                r
            } else {
                skip(r, n - r)
            }
        }
        Part::Column => skip(r, n),
        _ => j,
    }
}

// The place of the reader (x, y) among the readers.
fn reader_at(b: u32, r: u32, p: Part, x: u32, y: u32) -> u32
    requires two { 2 ≤ b }
    requires to_widest { b ≤ WIDEST }
    requires round { r < b }
    requires row { x < b }
    requires column { y < b }
    ensures { result ≡ reader_at b r p x y }
{
    match p {
        Part::Pivot => {
            if x == r {
                r + place_without(r, y)
            } else if x < r {
                x
            } else {
                x + b - 2
            }
        }
        Part::Row => place_without(r, x),
        Part::Column => place_without(r, y),
        _ => 0,
    }
}

fn read_place(p: Part) -> u32
    ensures { result ≡ read_place p }
{
    match p {
        Part::Load => 0,
        Part::Pivot => 1,
        Part::Row => 2,
        Part::Column => 1,
        Part::Rest => 0,
    }
}

fn source_row(r: u32, p: Part, i: u32, n: u32) -> u32
    ensures { result ≡ source_row r p i n }
{
    match p {
        Part::Rest => if n == 1 { i } else { r },
        _ => r,
    }
}

fn source_column(r: u32, p: Part, j: u32, n: u32) -> u32
    ensures { result ≡ source_column r p j n }
{
    match p {
        Part::Rest => if n == 1 { r } else { j },
        _ => r,
    }
}

fn waits(p: Part) -> u32
    ensures { result ≡ waits p }
{
    match p {
        Part::Load => 1,
        Part::Pivot => 1,
        Part::Row => 2,
        Part::Column => 2,
        Part::Rest => 3,
    }
}

fn wait_row(r: u32, p: Part, i: u32, n: u32) -> u32
    ensures { result ≡ wait_row r p i n }
{
    match p {
        Part::Column => if n == 0 { i.min(r) } else { i.max(r) },
        Part::Rest => {
            if i < r {
                if n < 2 { i } else { r }
            } else if n == 0 {
                r
            } else {
                i
            }
        }
        _ => i,
    }
}

fn wait_column(r: u32, p: Part, i: u32, j: u32, n: u32) -> u32
    ensures { result ≡ wait_column r p i j n }
{
    match p {
        Part::Row => if n == 0 { j.min(r) } else { j.max(r) },
        Part::Rest => {
            if i < r {
                if n == 0 {
                    j.min(r)
                } else if n == 1 {
                    j.max(r)
                } else {
                    j
                }
            } else if n == 0 {
                j
            } else if n == 1 {
                j.min(r)
            } else {
                j.max(r)
            }
        }
        _ => j,
    }
}

// The place of (x, y) among the tiles that wait for (i, j).
fn wait_at(r: u32, p: Part, i: u32, j: u32, x: u32, y: u32) -> u32
    ensures bound { result ≤ 2 }
    ensures value { result ≡ wait_at r p i j x y }
{
    match p {
        Part::Row => if y == j.min(r) { 0 } else { 1 },
        Part::Column => if x == i.min(r) { 0 } else { 1 },
        Part::Rest => {
            let first = if y == j.min(r) { 0 } else { 1 };
            if x != i {
                if i < r { 2 } else { 0 }
            } else if i < r {
                first
            } else {
                1 + first
            }
        }
        _ => 0,
    }
}
