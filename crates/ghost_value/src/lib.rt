//! A value that only clauses read. It has no bytes, and the code that makes one may choose it.
#![tactic(auto)]

ghost use Rattle.std.specs.Prelude.{◌≡◌, [], ◌∷◌, ⊤};
ghost use Rattle.std.specs.Borrow.{ftrue};
ghost use Rattle.ghost_value.specs.Only.{only-prop};

use logbook::{Opening, Rule, Seen, Start};
use std::marker::{Model, PhantomData};

/// The value that follows from what is passed.
pub trait Gives<A, T> {
    ghost value: { A → T };
}

/// A book with no word, whose log may have any entries.
pub struct Any;

impl<T> Rule<T, ()> for Any {
    ghost holds = { λ _ _. ⊤ };

    ghost first = { [] };

    ghost hinted = { λ _ _. ⊤ };

    ghost shows = { λ _. [] };

    ghost keeps = { λ _ _. ftrue };

    ghost moves = { λ _ _ _ _. ⊤ };
}

struct Entry<F> {
    of: PhantomData<F>,
}

impl<A, T, F: Gives<A, T>> Opening<A, T> for Entry<F> {
    ghost log = { λ _ a. F.value a ∷ [] };
}

/// A `T` as clauses see it, kept as the one entry of a log.
#[derive(Drop)]
pub struct Ghost<T> {
    seen: Seen<T, (), Any>,
    ghost only: { (v : T) × (seen.log ≡ v ∷ []) } by { only-prop T.code seen.log },
}

impl<T> Model for Ghost<T> {
    ghost Value = { T };

    ghost coded = { T.code };

    ghost view = { λ g. g.only.0 };
}

impl<T> Ghost<T> {
    pub fn of<A, F: Gives<A, T>>(by: &A) -> Ghost<T>
        ensures { result ≡ F.value by.now }
    {
        let (seen, _) = Seen::open_row::<A, Entry<F>>(by, Start::alone(), 0);
        Ghost { seen }
    }
}
