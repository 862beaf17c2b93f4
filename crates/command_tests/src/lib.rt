//! What the program answers on texts and words that were worked out by hand. The crate has tests alone.
#![tactic(auto)]

#[cfg(test)]
mod broken;
#[cfg(test)]
mod checks;
#[cfg(test)]
mod command;
#[cfg(test)]
mod cuts;
#[cfg(test)]
mod drills;
#[cfg(test)]
mod edges;
#[cfg(test)]
mod failing;
#[cfg(test)]
mod gates;
#[cfg(test)]
mod large;
#[cfg(test)]
mod memory;
#[cfg(test)]
mod paths;
#[cfg(test)]
mod replays;
#[cfg(test)]
mod rows;
#[cfg(test)]
mod strikes;
