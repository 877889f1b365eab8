//! Tests of the crates below `dapnorm`, through their public interfaces. They test what no contract
//! states, and the functions that neither the program nor another crate with tests calls.
//!
//! In the modules whose names begin with `allocating_`, each allocation of a call fails in turn. The
//! same call then succeeds on the same object. tests/program/fault_injection.py runs them under a
//! shim in which allocations fail. Without the shim each test makes one turn in which no allocation
//! fails.
#![tactic(auto)]

#[cfg(test)]
mod allocating_names_and_sessions;
#[cfg(test)]
mod allocating_records;
#[cfg(test)]
mod devices;
#[cfg(test)]
mod examples;
#[cfg(test)]
mod files;
#[cfg(test)]
mod frames;
#[cfg(test)]
mod messages;
#[cfg(test)]
mod renamings;
#[cfg(test)]
mod tables;
#[cfg(test)]
mod texts;
#[cfg(test)]
mod trees;
