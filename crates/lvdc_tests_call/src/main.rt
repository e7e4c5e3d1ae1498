//! Tests of the top call: what each command answers of a small input, over bytes, over streams and over devices, and streams and
//! devices that fail. The program itself does nothing.
#![tactic(auto)]

#[cfg(test)]
mod answers;
#[cfg(test)]
mod exchanges;
#[cfg(test)]
mod inputs;
#[cfg(test)]
mod inquiries;
#[cfg(test)]
mod punctual;
#[cfg(test)]
mod restored;
#[cfg(test)]
mod rows;
#[cfg(test)]
mod streams;
#[cfg(test)]
mod studies;
#[cfg(test)]
mod told;

fn main() {}
