ghost use Rattle.std.specs.Prelude.{◌≡◌, ◌+◌, ◌<◌, ◌^◌, ℕ};
ghost use Rattle.drill_input.specs.Draws.{moved, given, state, draw};

const FACTOR: u64 = 6364136223846793005;

const SUMMAND: u64 = 1442695040888963407;

/// The draws of a number, one after the other.
#[derive(Drop)]
pub(crate) struct Draws {
    state: u64,
}

impl Draws {
    /// Nothing is drawn yet.
    pub(crate) fn of(number: u32) -> Draws
        ensures { result.state ≡ state number 0 }
    {
        Draws {
            state: u64::from(number),
        }
    }

    /// The next draw.
    pub(crate) fn next(&mut self) -> u64
        ensures state { (number n : ℕ) → self.old.state ≡ state number n → self.new.state ≡ state number (n + 1) }
        ensures draw { (number n : ℕ) → self.old.state ≡ state number n → result ≡ draw number n }
        ensures small { result < 2 ^ 31 }
    {
        self.state = self.state.wrapping_mul(FACTOR).wrapping_add(SUMMAND);
        self.state >> 33
    }
}
