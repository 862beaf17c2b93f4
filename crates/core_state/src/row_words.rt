//! Where the words of a table stand in the list of its words.
ghost use Rattle.std.specs.Prelude.{◌≤◌, ◌^◌};

use super::job::Job;

/// The rows of a table and the notify words of each row, by which each of its words has a place.
#[derive(Clone, Copy, Debug)]
pub struct RowWords {
    pub rows: u32,
    pub notify_words: u32,
    pub ghost few: { rows ≤ 2 ^ 21 },
}

impl RowWords {
    ghost use Rattle.std.specs.Prelude.{◌≡◌, ◌<◌, ◌*◌, ◌+◌, ℕ};
    ghost use Rattle.core_state.specs.RowWords.{shape_with};
    ghost use Rattle.core_state.specs.Words.{place_of, key as key_word, descriptor as descriptor_word, notify as notify_word, recovery as recovery_word, posted, turn as turn_word};

    // Where the first word of a row stands, if the two before all rows didn't.
    fn start(self, row: u32) -> usize
        requires { row < self.rows }
        ensures start { result ≡ row * (self.notify_words + 5) }
        ensures small { result ≤ 2 ^ 54 }
    {
        row as usize * (self.notify_words as usize + 5)
    }

    /// Where the key word of a row stands.
    pub fn key(self, row: u32) -> usize
        requires { row < self.rows }
        ensures { (blocks : ℕ) → result ≡ place_of (shape_with self blocks) (key_word row) }
    {
        self.start(row) + 2
    }

    /// Where the descriptor of a row stands.
    pub fn descriptor(self, row: u32) -> usize
        requires { row < self.rows }
        ensures { (blocks : ℕ) → result ≡ place_of (shape_with self blocks) (descriptor_word row) }
    {
        self.start(row) + 3
    }

    /// Where a notify word of a row stands.
    pub fn notify(self, row: u32, word: u32) -> usize
        requires row { row < self.rows }
        requires word { word < self.notify_words }
        ensures { (blocks : ℕ) → result ≡ place_of (shape_with self blocks) (notify_word row word) }
    {
        self.start(row) + 4 + word as usize
    }

    /// Where the recovery word of a row stands.
    pub fn recovery(self, row: u32) -> usize
        requires { row < self.rows }
        ensures { (blocks : ℕ) → result ≡ place_of (shape_with self blocks) (recovery_word row) }
    {
        self.start(row) + self.notify_words as usize + 4
    }

    /// Where the word of a row stands in which a job is posted.
    pub fn job(self, row: u32, job: Job) -> usize
        requires { row < self.rows }
        ensures { (blocks : ℕ) → result ≡ place_of (shape_with self blocks) (posted job row) }
    {
        let first = self.start(row) + self.notify_words as usize + 5;
        match job {
            Job::Explore => first,
            Job::Compute => first + 1,
        }
    }

    /// Where the turn word of a block stands.
    pub fn turn(self, block: u32) -> usize
        ensures { (blocks : ℕ) → result ≡ place_of (shape_with self blocks) (turn_word block) }
    {
        self.count(block as usize)
    }

    /// How many words a table has with so many blocks: the place after the last turn word.
    pub fn count(self, blocks: usize) -> usize
        requires { blocks < 2 ^ 32 }
        ensures { result ≡ place_of (shape_with self blocks) (turn_word blocks) }
    {
        self.rows as usize * (self.notify_words as usize + 5) + 2 + blocks
    }
}
