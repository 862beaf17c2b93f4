//! The state of the scheduler's core: words, views, and what one step does to them.
#![tactic(auto)]

mod answers;
mod block;
mod course;
mod job;
mod layout;
mod rooted;
mod row_words;
mod views;
mod words;

pub use answers::{Claim, Closing, Elected, Hitting, Registered, Told};
pub use block::BlockCells;
pub use course::Course;
pub use job::Job;
pub use layout::Layout;
pub use rooted::{ROOT, Rooted};
pub use row_words::RowWords;
pub use views::{Ended, Hand, Item, Known, Stack, View, Word};
pub use words::{Descriptor, GREATEST_LIFE, NotifyWord, PORTS_PER_WORD, Recovery, SELF_PLACE};
