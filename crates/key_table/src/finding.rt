//! Whole searches.
ghost use Rattle.std.specs.Prelude.{◌≡◌, ◌≢◌, ◌≤◌, ◌<◌, ◌+◌, ◌⊎◌, ℕ, Some, None, true, false, IsTrue, MatchBool, IfSome, IfNone};
ghost use Rattle.key_table.specs.Path.{IsMissed};
ghost use Rattle.key_table.specs.Rules.{HasRules, IsKept};
ghost use Rattle.key_table.specs.Seeking.{claimed, TurnSpends, EndTells, FindsAgain};
ghost use Rattle.key_table.specs.Walk.{IsWalk};

use crate::search::{Search, Sought};
use crate::words::KeyWords;
use graph_model::Key;

fn finish<W: KeyWords>(mut search: Search, words: &mut W) -> Sought
    requires start { search.passed ≡ 0 }
    requires some { 1 ≤ search.rows }
    requires rows { search.rows ≡ W.row_count words.old }
    requires may { IsTrue search.makes → W.may words.old search.key }
    requires room { IsTrue search.makes → 1 ≤ W.spare words.old }

    ensures tells { EndTells result search (W.known words.new) (W.last words.new) }
    ensures again { FindsAgain result search.key (W.known words.old) }
    ensures standing { W.stands words.old search.key → result ≢ Sought.Absent }

    ensures walk { IsWalk W.did W.made search.key search.rows (claimed search) words.old words.new }
    ensures room { TurnSpends result (W.spare words.old) (W.spare words.new) }
    ensures kept { IsKept W.row_count W.keys W.may W.stands W.known words.old words.new }
    ensures rules { HasRules (W.row_count words.new) (W.keys words.new) (W.may words.new) (W.stands words.new) (W.known words.new) }
{
    loop {
        match search.turn(words) {
            Sought::Going => {}
            end => return end,
        }
    }
}

/// The row of a key, and whether this call made it. It claims at the rows of the key's path, from
/// the first on.
pub fn find_or_make<W: KeyWords>(words: &mut W, key: Key) -> (u32, bool)
    requires may { W.may words.old key.0 }
    requires room { 1 ≤ W.spare words.old }

    ensures row { result.0 < W.row_count words.old }
    ensures known { W.known words.new result.0 ≡ Some key.0 }
    ensures last { (W.last words.new).0 ≡ result.0 }
    ensures made { MatchBool result.1 ((W.last words.new).1 ≡ 0) ((W.last words.new).1 ≡ key.0 + 1) }
    ensures again { (row : ℕ) → W.known words.old row ≡ Some key.0 → (result.0 ≡ row) × (result.1 ≡ false) }

    ensures walk { IsWalk W.did W.made key.0 (W.row_count words.old) (Some key.0) words.old words.new }
    ensures steps { W.made words.new ≤ W.made words.old + W.row_count words.old }
    ensures room { MatchBool result.1 (W.spare words.old ≤ W.spare words.new + 1) (W.spare words.new ≡ W.spare words.old) }
    ensures kept { IsKept W.row_count W.keys W.may W.stands W.known words.old words.new }
    ensures rules { HasRules (W.row_count words.new) (W.keys words.new) (W.may words.new) (W.stands words.new) (W.known words.new) }
{
    let rows = words.rows();
    match finish(Search::make(key, rows), words) {
        Sought::At { row, made } => (row, made),
        _ => unreachable!(),
    }
}

/// The row of a key, if a look met it. It looks at the rows of the key's path, from the first on.
pub fn find<W: KeyWords>(words: &mut W, key: Key) -> Option<u32>
    ensures row { IfSome result (λ row. row < W.row_count words.old) }
    ensures known { IfSome result (λ row. W.known words.new row ≡ Some key.0) }
    ensures last { IfSome result (λ row. W.last words.new ≡ (row, key.0 + 1)) }
    ensures absent { IfNone result (IsMissed (W.known words.new) key.0 (W.row_count words.old) (W.last words.new)) }
    ensures again { (old : ℕ) → W.known words.old old ≡ Some key.0 → IfSome result (λ row. row ≡ old) }
    ensures standing { W.stands words.old key.0 → result ≢ None }

    ensures walk { IsWalk W.did W.made key.0 (W.row_count words.old) None words.old words.new }
    ensures steps { W.made words.new ≤ W.made words.old + W.row_count words.old }
    ensures room { W.spare words.new ≡ W.spare words.old }
    ensures kept { IsKept W.row_count W.keys W.may W.stands W.known words.old words.new }
    ensures rules { HasRules (W.row_count words.new) (W.keys words.new) (W.may words.new) (W.stands words.new) (W.known words.new) }
{
    let rows = words.rows();
    match finish(Search::find(key, rows), words) {
        Sought::At { row, made: _ } => Some(row),
        _ => None,
    }
}
