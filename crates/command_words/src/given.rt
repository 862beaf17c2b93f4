ghost use Rattle.std.specs.Prelude.{◌≡◌};
ghost use Rattle.std.specs.Option.{option_map};
ghost use Rattle.command_words.specs.Given.{seen, slot};

use crate::options::Name;

/// What the words behind the first one give: the text of each value. An option without a value has an empty one.
#[derive(Clone, Copy)]
pub struct Given<'a> {
    pub workers: Option<&'a str>,
    pub lives: Option<&'a str>,
    pub records: Option<&'a str>,
    pub schedule: Option<&'a str>,
    pub turns: Option<&'a str>,
    pub number: Option<&'a str>,
}

impl<'a> Given<'a> {
    /// What is given for the option.
    pub fn slot(&self, name: Name) -> Option<&'a str>
        ensures { option_map (λ s. s.now) result ≡ slot name (seen self.now) }
    {
        match name {
            Name::Workers => self.workers,
            Name::Lives => self.lives,
            Name::Records => self.records,
            Name::Schedule => self.schedule,
            Name::Turns => self.turns,
            Name::Number => self.number,
        }
    }
}
