//! Cases that are run against the crate `sheet`.

#![tactic(auto)]

#[cfg(test)]
mod tests;
