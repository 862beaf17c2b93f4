//! What the shared table answers on small graphs, worked out by hand. The crate has tests alone.
#![tactic(auto)]

#[cfg(test)]
mod one_pass;
#[cfg(test)]
mod turning;
#[cfg(test)]
mod two_seats;
