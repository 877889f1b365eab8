//! Tests across crates: masks whose rules are used again after a failed allocation, comparisons,
//! golden texts, and the examples of the crate `callers`.
#![tactic(auto)]

#[cfg(test)]
mod called_library;
#[cfg(test)]
mod command_lines;
#[cfg(test)]
mod comparing;
#[cfg(test)]
mod devices;
#[cfg(test)]
mod examples;
#[cfg(test)]
mod golden;
#[cfg(test)]
mod growths;
#[cfg(test)]
mod masks;
#[cfg(test)]
mod recordings;
#[cfg(test)]
mod texts;
