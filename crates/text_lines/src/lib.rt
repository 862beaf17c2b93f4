//! Words and numbers put behind one another in a text.
#![tactic(auto)]

mod fields;

pub use fields::{put, put_field, put_number, put_signed};
