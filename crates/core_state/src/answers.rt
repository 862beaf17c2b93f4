//! What the word that a step found answers.
ghost use Rattle.std.specs.Prelude.{◌≡◌, ◌<◌, ◌≤◌, ◌^◌};
ghost use Rattle.core_state.specs.Packed.{IsLife};
ghost use Rattle.core_state.specs.Effects.{place_mask, told_of, registered_of, closing_of, elected_of, hitting_of};

use super::words::{Descriptor, NotifyWord, Recovery, SELF_PLACE};
use graph_model::Key;

/// What spending a place told.
#[derive(Clone, Copy, Debug, PartialEq, Eq)]
pub enum Told {
    Spent { life: u32 },
    Last { life: u32 },
    Already { life: u32 },
    Struck { life: u32 },
}

// The places of a task with so many predecessors, and its self place.
fn all_places(preds: u32) -> u64
    requires { preds ≤ 40 }
    ensures { result ≡ place_mask preds }
{
    Descriptor::bit(SELF_PLACE) + (Descriptor::bit(preds) - 1)
}

impl Told {
    /// What the descriptor's word of a task with so many predecessors answers to the spending of a place.
    pub fn of_word(word: u64, place: u32, preds: u32) -> Self
        requires place { place ≤ 40 }
        requires preds { preds ≤ 40 }
        ensures { result ≡ told_of preds place word }
    {
        let shown = Descriptor::of_word(word);
        let life = shown.life;
        if shown.struck {
            return Told::Struck { life };
        }
        if shown.has(place) {
            return Told::Already { life };
        }
        let all = all_places(preds);
        if (word | Descriptor::bit(place)) & all == all {
            Told::Last { life }
        } else {
            Told::Spent { life }
        }
    }
}

/// What registering a port told.
#[derive(Clone, Copy, Debug, PartialEq, Eq)]
pub enum Registered {
    Waiting { life: u32 },
    Closed { life: u32 },
    Struck { life: u32 },
}

impl Registered {
    /// What a notify word answers to the registering of a port.
    pub fn of_word(word: u64) -> Self
        ensures { result ≡ registered_of word }
    {
        let shown = NotifyWord::of_word(word);
        let life = shown.life;
        if shown.struck {
            Registered::Struck { life }
        } else if shown.closed {
            Registered::Closed { life }
        } else {
            Registered::Waiting { life }
        }
    }
}

/// What closing a word told.
#[derive(Clone, Copy, Debug, PartialEq, Eq)]
pub enum Closing {
    Edges { ports: u64 },
    Stale { life: u32 },
    Struck { life: u32 },
    Moved { word: NotifyWord },
}

impl Closing {
    /// What the word that was found answers to closing a word of that life that was seen before.
    pub fn of_words(life: u32, seen: u64, found: u64) -> Self
        ensures { result ≡ closing_of life seen found }
    {
        let word = NotifyWord::of_word(found);
        if found == seen {
            Closing::Edges { ports: word.ports }
        } else if word.struck {
            Closing::Struck { life: word.life }
        } else if life < word.life {
            Closing::Stale { life: word.life }
        } else {
            Closing::Moved { word }
        }
    }
}

/// What an election told.
#[derive(Clone, Copy, Debug, PartialEq, Eq)]
pub enum Elected {
    Yes,
    Replaced { life: u32 },
    Renewing { life: u32 },
}

impl Elected {
    /// What a recovery word answers to an election for that life.
    pub fn of_word(life: u32, word: u64) -> Self
        requires life { IsLife life }
        requires word { word < 2 ^ 17 }
        ensures { result ≡ elected_of life word }
    {
        let shown = Recovery::of_word(word);
        if word == u64::from(life - 1) * 2 {
            Elected::Yes
        } else if life < shown.life {
            Elected::Replaced { life: shown.life }
        } else {
            Elected::Renewing { life: shown.life }
        }
    }
}

/// What a strike on a word told.
#[derive(Clone, Copy, Debug, PartialEq, Eq)]
pub enum Hitting {
    Landed { life: u32 },
    Missed { life: u32 },
}

impl Hitting {
    /// What a descriptor or a notify word answers to a strike.
    pub fn of_word(word: u64) -> Self
        ensures { result ≡ hitting_of word }
    {
        let shown = Descriptor::of_word(word);
        let life = shown.life;
        if shown.struck {
            Hitting::Missed { life }
        } else {
            Hitting::Landed { life }
        }
    }
}

/// What a claim of a row told.
#[derive(Clone, Copy, Debug, PartialEq, Eq)]
pub enum Claim {
    Made,
    Found,
    Other { key: Key },
}
