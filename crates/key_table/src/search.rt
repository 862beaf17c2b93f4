//! A search along a key's path, one step a turn.
use crate::words::{Claim, KeyWords, Seen};
use graph_model::Key;
use std::marker::Model;

/// The answer of a turn. Absent comes only from a search that makes nothing.
#[derive(Clone, Copy, Debug, PartialEq, Eq)]
pub enum Sought {
    Going,
    At { row: u32, made: bool },
    Absent,
}

/// A walk along a key's path. All turns of a search are made by the same caller, and none follows
/// At or Absent. Clauses see the key, the number of rows, how many of them it has passed, and
/// whether it makes the row.
#[derive(Clone, Copy, Debug)]
pub struct Search {
    key: Key,
    rows: u32,
    passed: u32,
    row: u32,
    makes: bool,
}

impl Model for Search {
    ghost use Rattle.std.specs.Prelude.{◌≡◌, ◌<◌};
    ghost use Rattle.key_table.specs.Seeking.{Seeking};
    ghost use Rattle.key_table.specs.Path.{path_row};

    ghost Value = { Seeking };

    ghost view = { λ s. record { key = s.key.0; rows = s.rows; passed = s.passed; makes = s.makes } };

    ghost invariant = { λ s. (s.passed < s.rows) × (s.row ≡ path_row s.key.0 s.rows s.passed) };

    ghost inverse = { λ s. record { key = record { 0 = s.key }; rows = s.rows; passed = s.passed; row = path_row s.key s.rows s.passed; makes = s.makes } };

    ghost use Rattle.std.proofs.Common.{ap, sym};

    ghost inverse_ok = { λ a h. ap (λ r. record a { row = r }) (sym h.1) };
}

impl Search {
    ghost use Rattle.std.specs.Prelude.{◌≡◌, ◌≢◌, ◌≤◌, ◌<◌, ◌+◌, ◌↔◌, ℕ, Some, true, false, IsTrue};
    ghost use Rattle.key_table.specs.Path.{HasPassed};
    ghost use Rattle.key_table.specs.Rules.{HasRules, IsKept};
    ghost use Rattle.key_table.specs.Seeking.{next_row, claimed, turned, TurnTells, TurnSpends};

    fn start(key: Key, rows: u32, makes: bool) -> Search
        requires { 1 ≤ rows }
        ensures { result ≡ record { key = key.0; rows = rows; passed = 0; makes = makes } }
    {
        Search {
            key,
            rows,
            passed: 0,
            row: (key.0 % rows as u64) as u32,
            makes,
        }
    }

    /// A search that claims, so that the key has a row in the end. `rows` is the number of rows of
    /// the key words that its turns are given.
    pub fn make(key: Key, rows: u32) -> Search
        requires { 1 ≤ rows }
        ensures { result ≡ record { key = key.0; rows = rows; passed = 0; makes = true } }
    {
        Search::start(key, rows, true)
    }

    /// A search that looks, and makes nothing.
    pub fn find(key: Key, rows: u32) -> Search
        requires { 1 ≤ rows }
        ensures { result ≡ record { key = key.0; rows = rows; passed = 0; makes = false } }
    {
        Search::start(key, rows, false)
    }

    fn is_at_end(&self) -> bool
        ensures end { IsTrue result ↔ (self.now.passed + 1 ≡ self.now.rows) }
        ensures within { self.now.passed < self.now.rows }
    {
        self.passed + 1 == self.rows
    }

    fn row(&self) -> u32
        ensures row { result ≡ next_row self.now }
        ensures within { result < self.now.rows }
        ensures passed { self.now.passed < self.now.rows }
    {
        self.row
    }

    fn advance(&mut self)
        requires { self.old.passed + 1 < self.old.rows }
        ensures { self.new ≡ record self.old { passed = self.old.passed + 1 } }
    {
        self.passed += 1;
        self.row += 1;
        if self.row == self.rows {
            self.row = 0;
        }
    }

    fn key(&self) -> Key
        ensures { result.0 ≡ self.now.key }
    {
        self.key
    }

    fn is_making(&self) -> bool
        ensures { result ≡ self.now.makes }
    {
        self.makes
    }

    /// One claim of a search that makes the row, or one look of another.
    pub fn turn<W: KeyWords>(&mut self, words: &mut W) -> Sought
        requires rows { self.old.rows ≡ W.row_count words.old }
        requires passed { HasPassed (W.known words.old) self.old.key self.old.rows self.old.passed }
        requires may { IsTrue self.old.makes → W.may words.old self.old.key }
        requires room { IsTrue self.old.makes → 1 ≤ W.spare words.old }

        ensures tells { TurnTells result self.old (W.known words.new) (W.last words.new).1 }
        ensures row { (W.last words.new).0 ≡ next_row self.old }
        ensures search { self.new ≡ turned result self.old }
        ensures stays { (k : ℕ) → W.known words.old (next_row self.old) ≡ Some k → (W.last words.new).1 ≡ k + 1 }
        ensures standing { W.stands words.old self.old.key → result ≢ Sought.Absent }

        ensures did { W.did words.old (next_row self.old) (claimed self.old) words.new }
        ensures made { W.made words.new ≡ W.made words.old + 1 }
        ensures room { TurnSpends result (W.spare words.old) (W.spare words.new) }
        ensures kept { IsKept W.row_count W.keys W.may W.stands W.known words.old words.new }
        ensures rules { HasRules (W.row_count words.new) (W.keys words.new) (W.may words.new) (W.stands words.new) (W.known words.new) }
    {
        let row = self.row();
        let key = self.key();
        if self.is_making() {
            match words.claim(row, key) {
                Claim::Made => Sought::At { row, made: true },
                Claim::Found => Sought::At { row, made: false },
                Claim::Other { key: _ } => {
                    self.advance();
                    Sought::Going
                }
            }
        } else {
            match words.look(row) {
                Seen::Empty => Sought::Absent,
                Seen::Holds { key: other } => {
                    if other == key {
                        Sought::At { row, made: false }
                    } else if self.is_at_end() {
                        Sought::Absent
                    } else {
                        self.advance();
                        Sought::Going
                    }
                }
            }
        }
    }
}
