//! Tests of what no text of the program shows: sources and sinks, a device that fails, the deck that a soak run draws, and the largest
//! load. The program itself does nothing.
#![tactic(auto)]

#[cfg(test)]
mod port;
#[cfg(test)]
mod same;
#[cfg(test)]
mod soak;
#[cfg(test)]
mod text;
#[cfg(test)]
mod uplink;

fn main() {}
