//! Cases that are run against the crate `bench`, and a machine of another kind, with more positions than a table has.

#![tactic(auto)]

mod counters;

pub use counters::Counter;

#[cfg(test)]
mod tests;
