//! The rule of the table, and how passes are cut and joined.
use atomic_table::{Join, Seat, Shared, Split, TableRule};
use core_state::{BlockCells, Course, View};
use std::marker::PhantomData;

/// The words and blocks of a table, as steps see them.
pub type Words<C> = Shared<Option<BlockCells>, View, (), Law<C>>;

/// The seat of a pass.
pub type Token = Seat<Option<BlockCells>, View>;

/// The core's invariant over words, blocks at home and all views.
pub struct Law<C: Course> {
    course: PhantomData<C>,
}

impl<C: Course> TableRule<Option<BlockCells>, View, ()> for Law<C> {
    ghost use Rattle.task_table.specs.Kept.{Kept, first_view};

    ghost holds = { λ _. Kept C.setting };

    ghost first = { λ _. first_view C.setting };
}

/// A new pass gets one part, and knows what the other knows.
pub struct OnePart;

impl Split<View> for OnePart {
    ghost use Rattle.core_state.specs.Views.{less_one, newcomer};

    ghost left = { less_one };

    ghost right = { newcomer };
}

impl Join<View> for OnePart {
    ghost use Rattle.core_state.specs.Views.{blank, joined};

    ghost both = { joined };

    ghost spent = { blank };
}
