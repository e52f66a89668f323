//! The type of a book. Its calls are in the modules below.
ghost use Rattle.std.specs.Prelude.{◌≤◌};
ghost use Rattle.book.specs.Held.{Tidy};

use crate::held::{Held, MOST_STATES};

mod as_machine;
mod reading;
mod sealing;

// A part of a position is a digit to this base.
const BASE: u64 = MOST_STATES as u64;

/// A book (a constraint set, and the conjunction of its constraints as an automaton): a cue count, and at most 16 rules,
/// numbered from 0. It takes no rule; it can be reopened as a draft.
#[derive(Drop)]
pub struct Book {
    cues: u8,
    held: Held,
    ghost some_cues: { 1 ≤ cues },
    ghost few_cues: { cues ≤ 32 },
    ghost tidy: { Tidy held },
}
