ghost use Rattle.std.specs.Prelude.{◌≡◌, MatchOption};
ghost use Rattle.command_words.specs.Options.{name_of, takes, IsNoCommand};

/// The first word of a command.
#[derive(Clone, Copy, Debug, PartialEq, Eq)]
pub enum Kind {
    Run,
    Replay,
    Paths,
    Drill,
    Check,
    Print,
}

/// What may stand behind the first word: an option, or the one word that belongs to none.
#[derive(Clone, Copy, Debug, PartialEq, Eq)]
pub enum Name {
    Workers,
    Lives,
    Records,
    Schedule,
    Turns,
    Number,
}

/// Whether the command takes the option.
pub fn takes(kind: Kind, name: Name) -> bool
    ensures { result ≡ takes kind name }
{
    match name {
        Name::Workers => match kind {
            Kind::Run | Kind::Replay | Kind::Paths | Kind::Drill => true,
            Kind::Check | Kind::Print => false,
        },
        Name::Lives => match kind {
            Kind::Run | Kind::Replay | Kind::Paths => true,
            Kind::Drill | Kind::Check | Kind::Print => false,
        },
        Name::Records => match kind {
            Kind::Run | Kind::Replay => true,
            Kind::Paths | Kind::Drill | Kind::Check | Kind::Print => false,
        },
        Name::Schedule | Name::Turns => match kind {
            Kind::Replay => true,
            Kind::Run | Kind::Paths | Kind::Drill | Kind::Check | Kind::Print => false,
        },
        Name::Number => match kind {
            Kind::Drill => true,
            Kind::Run | Kind::Replay | Kind::Paths | Kind::Check | Kind::Print => false,
        },
    }
}

/// The command whose first word this is.
pub fn kind_named(word: &str) -> Option<Kind>
    ensures { MatchOption result (IsNoCommand word.now) (λ kind. word.now ≡ name_of kind) }
{
    if word == "run" {
        return Some(Kind::Run);
    }
    if word == "replay" {
        return Some(Kind::Replay);
    }
    if word == "paths" {
        return Some(Kind::Paths);
    }
    if word == "drill" {
        return Some(Kind::Drill);
    }
    if word == "check" {
        return Some(Kind::Check);
    }
    if word == "print" {
        return Some(Kind::Print);
    }
    None
}
