//! The words that hold several things: what their bits mean, and the bits again. Nobody else opens such a word.
ghost use Rattle.std.specs.Prelude.{◌≡◌, ℕ, ◌<◌, ◌≤◌, ◌+◌, ◌%◌, ◌^◌, ◌↔◌, ◌==◌, IsTrue};
ghost use Rattle.std.specs.Int.{bit_at};
ghost use Rattle.core_state.specs.Packed.{IsLife, descriptor_of, descriptor_word, notify_of, notify_word, recovery_of, recovery_word};
ghost use Rattle.core_state.specs.Words.{empty_word, descriptor_strike, notify_strike, life_of, standing_life, replacing};

/// How many ports a notify word has.
pub const PORTS_PER_WORD: u32 = 40;

/// The place of a descriptor that exploring itself spends.
pub const SELF_PLACE: u32 = 40;

/// The greatest life that a task may have.
pub const GREATEST_LIFE: u32 = 65_535;

const CLOSED: u64 = 1 << 40;

const MARK: u64 = 1 << 41;

const LIFE: u64 = 1 << 48;

/// The places or ports of even number.
const EVEN: u64 = (CLOSED - 1) / 3;

fn has_bit(word: u64, bit: u32) -> bool
    requires { bit ≤ 41 }
    ensures { result ≡ (bit_at word bit == 1) }
{
    (word >> bit) & 1 == 1
}

fn life_shown(word: u64) -> u32
    ensures { result ≡ life_of word }
{
    (word >> 48) as u32 + 1
}

/// The word of a life: its mark, and its spent places, bit j for place j.
#[derive(Clone, Copy, Debug, PartialEq, Eq)]
pub struct Descriptor {
    pub life: u32,
    pub struck: bool,
    pub spent: u64,
}

impl Descriptor {
    pub fn of_word(word: u64) -> Self
        ensures shown { result ≡ descriptor_of word }
        ensures places { (j : ℕ) → j ≤ 40 → bit_at result.spent j ≡ bit_at word j }
        ensures life { IsLife result.life }
    {
        Descriptor {
            life: life_shown(word),
            struck: has_bit(word, 41),
            spent: word % MARK,
        }
    }

    pub fn word(&self) -> u64
        requires life { IsLife self.now.life }
        requires spent { self.now.spent < 2 ^ 41 }
        ensures bits { result ≡ descriptor_word self.now }
        ensures again { descriptor_of result ≡ self.now }
    {
        let mark = if self.struck { MARK } else { 0 };
        u64::from(self.life - 1) * LIFE + mark + self.spent
    }

    /// Whether a place shows as spent.
    pub fn has(&self, place: u32) -> bool
        requires { place ≤ 40 }
        ensures { result ≡ (bit_at self.now.spent place == 1) }
    {
        has_bit(self.spent, place)
    }

    /// The bit that spends a place.
    pub fn bit(place: u32) -> u64
        requires { place ≤ 40 }
        ensures { result ≡ 2 ^ place }
    {
        1u64 << place
    }

    /// The bits that a strike sets.
    pub fn strike_bits() -> u64
        ensures { result ≡ descriptor_strike }
    {
        MARK + EVEN
    }
}

/// A word that collects the ports of successors until it is closed, bit b for port 40w + b in word w.
#[derive(Clone, Copy, Debug, PartialEq, Eq)]
pub struct NotifyWord {
    pub life: u32,
    pub struck: bool,
    pub closed: bool,
    pub ports: u64,
}

impl NotifyWord {
    pub fn of_word(word: u64) -> Self
        ensures shown { result ≡ notify_of word }
        ensures registered { (b : ℕ) → b < 40 → bit_at result.ports b ≡ bit_at word b }
        ensures life { IsLife result.life }
    {
        NotifyWord {
            life: life_shown(word),
            struck: has_bit(word, 41),
            closed: has_bit(word, 40),
            ports: word % CLOSED,
        }
    }

    pub fn word(&self) -> u64
        requires life { IsLife self.now.life }
        requires ports { self.now.ports < 2 ^ 40 }
        ensures bits { result ≡ notify_word self.now }
        ensures again { notify_of result ≡ self.now }
    {
        let mark = if self.struck { MARK } else { 0 };
        let closed = if self.closed { CLOSED } else { 0 };
        u64::from(self.life - 1) * LIFE + mark + closed + self.ports
    }

    /// The word of a life in which nothing was registered yet.
    pub fn empty(life: u32) -> Self
        ensures life { result.life ≡ life }
        ensures open { result.closed ≡ Rattle.std.specs.Prelude.false }
        ensures unstruck { result.struck ≡ Rattle.std.specs.Prelude.false }
        ensures ports { result.ports ≡ 0 }
    {
        NotifyWord {
            life,
            struck: false,
            closed: false,
            ports: 0,
        }
    }

    /// The bit that registers a port in its word.
    pub fn bit(port: u32) -> u64
        ensures { result ≡ 2 ^ (port % 40) }
    {
        1u64 << (port % PORTS_PER_WORD)
    }

    /// The bit that closes a word.
    pub fn closing_bit() -> u64
        ensures { result ≡ 2 ^ 40 }
    {
        CLOSED
    }

    /// The bits that a strike sets.
    pub fn strike_bits() -> u64
        ensures { result ≡ notify_strike }
    {
        MARK + CLOSED + EVEN
    }
}

/// Whether a life stands or is being replaced.
#[derive(Clone, Copy, Debug, PartialEq, Eq)]
pub struct Recovery {
    pub life: u32,
    pub renewing: bool,
}

impl Recovery {
    pub fn of_word(word: u64) -> Self
        ensures shown { result ≡ recovery_of word }
        ensures life { word < 2 ^ 17 → result.life ≡ standing_life word }
        ensures some_life { IsLife result.life }
    {
        Recovery {
            life: (word / 2 % 65_536) as u32 + 1,
            renewing: word % 2 == 1,
        }
    }

    pub fn word(&self) -> u64
        requires { IsLife self.now.life }
        ensures bits { result ≡ recovery_word self.now }
        ensures again { recovery_of result ≡ self.now }
    {
        u64::from(self.life - 1) * 2 + u64::from(self.renewing)
    }
}
