//! The key words of a table, as one caller meets them.
use graph_model::Key;

/// What a claim met: an empty word, which it took, the key itself, or another key.
#[derive(Clone, Copy, Debug, PartialEq, Eq)]
pub enum Claim {
    Made,
    Found,
    Other { key: Key },
}

/// What a look met.
#[derive(Clone, Copy, Debug, PartialEq, Eq)]
pub enum Seen {
    Empty,
    Holds { key: Key },
}

/// Key words, a word for each row, that this caller and others claim. A word is 0, or a key and 1,
/// and once claimed keeps its key. A key's path is the rows from the key modulo their number on,
/// and round the end. The rules that always hold stand as the clause `rules` at each call.
pub trait KeyWords {
    ghost use Rattle.std.specs.Prelude.{◌≡◌, ◌≢◌, ◌≤◌, ◌<◌, ◌+◌, ℕ, List, Option, Some, None};
    ghost use Rattle.key_table.specs.Path.{IsNext, path_row, HasPassed};
    ghost use Rattle.key_table.specs.Rules.{HasRules, IsKept, ClaimTells, SeenTells, claimed_key, Learns, Spends};

    // How many rows there are.
    ghost row_count: { Self → ℕ };

    // The keys that may ever stand in the table.
    ghost keys: { Self → List ℕ };

    // Which of them this caller may claim.
    ghost may: { Self → ℕ → Type 0 };

    // Which of them stand in the table, as this caller can tell without a look.
    ghost stands: { Self → ℕ → Type 0 };

    // The key that this caller knows of a row.
    ghost known: { Self → ℕ → Option ℕ };

    // For how many records there is room.
    ghost spare: { Self → ℕ };

    // How many steps this caller has made.
    ghost made: { Self → ℕ };

    // The row of its last claim or look, and the number that the key word held: 0, or the key and 1.
    ghost last: { Self → ℕ × ℕ };

    // The caller before and after one claim of a key at a row, or one look, which has no key.
    ghost did: { Self → ℕ → Option ℕ → Self → Type 0 };

    /// How many rows there are.
    fn rows(&self) -> u32
        ensures rows { result ≡ row_count self.now }
        ensures some { 1 ≤ result }
        ensures rules { HasRules (row_count self.now) (keys self.now) (may self.now) (stands self.now) (known self.now) };

    /// Takes the row for the key, if its word is empty.
    fn claim(&mut self, row: u32, key: Key) -> Claim
        requires row { row < row_count self.old }
        requires may { may self.old key.0 }
        requires room { 1 ≤ spare self.old }
        requires next { IsNext (known self.old) key.0 (row_count self.old) row }

        ensures tells { ClaimTells result key.0 (last self.new).1 }
        ensures row { (last self.new).0 ≡ row }
        ensures known { known self.new row ≡ Some (claimed_key result key.0) }
        ensures stays { (k : ℕ) → known self.old row ≡ Some k → (last self.new).1 ≡ k + 1 }

        ensures did { did self.old row (Some key.0) self.new }
        ensures made { made self.new ≡ made self.old + 1 }
        ensures room { Spends result (spare self.old) (spare self.new) }
        ensures kept { IsKept row_count keys may stands known self.old self.new }
        ensures rules { HasRules (row_count self.new) (keys self.new) (may self.new) (stands self.new) (known self.new) };

    /// Reads the row's word.
    fn look(&mut self, row: u32) -> Seen
        requires { row < row_count self.old }

        ensures tells { SeenTells result (last self.new).1 }
        ensures row { (last self.new).0 ≡ row }
        ensures known { Learns result (known self.new row) }
        ensures stays { (k : ℕ) → known self.old row ≡ Some k → (last self.new).1 ≡ k + 1 }
        ensures standing { (k : ℕ) → stands self.old k → IsNext (known self.old) k (row_count self.old) row → (last self.new).1 ≢ 0 }

        ensures did { did self.old row None self.new }
        ensures made { made self.new ≡ made self.old + 1 }
        ensures room { spare self.new ≡ spare self.old }
        ensures kept { IsKept row_count keys may stands known self.old self.new }
        ensures rules { HasRules (row_count self.new) (keys self.new) (may self.new) (stands self.new) (known self.new) };
}
