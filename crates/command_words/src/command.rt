/// A command of the program, with what its options say.
#[derive(Debug, Drop, PartialEq)]
pub enum Command {
    Run {
        workers: u32,
        lives: u32,
        records: bool,
    },
    Replay {
        workers: u32,
        lives: u32,
        records: bool,
        /// The workers that take a turn, in their order, over and over.
        schedule: Vec<u32>,
        /// How many turns there may be; none stands for the number that depends on the graph.
        turns: Option<u64>,
    },
    Paths {
        workers: u32,
        lives: u32,
    },
    Drill {
        number: u32,
        workers: u32,
    },
    Check,
    Print,
}
