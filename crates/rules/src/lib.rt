//! Rules: Declare's templates read over finite shows, and the automaton of one rule. Nothing here allocates.

#![tactic(auto)]

mod letters;
mod moves;
mod rules;
mod templates;
mod theorems;

pub use letters::Letter;
pub use rules::{Rule, RuleRefusal};
pub use templates::{Arguments, Template};
pub use theorems::words_told_apart;
