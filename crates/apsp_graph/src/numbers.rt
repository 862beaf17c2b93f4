//! Numbers in decimal digits.

ghost use Rattle.std.specs.Prelude.{◌≡◌, ◌≤◌, IfSome};
ghost use Rattle.std.specs.Option.{option_map};
ghost use Rattle.apsp_graph.specs.Numbers.{number_of, capped};

/// Greater numbers are read as this one, which is beyond each limit.
pub const CAP: u64 = 1 << 32;

/// The number that a word writes.
pub fn number(word: &[u8]) -> Option<u64>
    ensures value { result ≡ option_map capped (number_of word.now) }
    ensures capped { IfSome result (λ v. v ≤ 4294967296) }
{
    if word.is_empty() {
        return None;
    }
    let mut value: u64 = 0;
    for b in word {
        if *b < b'0' || *b > b'9' {
            return None;
        }
        value = (value * 10 + u64::from(*b - b'0')).min(CAP);
    }
    Some(value)
}
