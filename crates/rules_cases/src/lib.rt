//! Cases that are run against the crate `rules`.

#![tactic(auto)]

#[cfg(test)]
mod printing;
#[cfg(test)]
mod tests;
