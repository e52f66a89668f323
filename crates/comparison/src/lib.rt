//! Comparisons: a bench decides two machines; a sheet is read, its two books are compared, and what comes of it is told as text.
//! Nothing here allocates.

#![tactic(auto)]

mod answering;
mod books;
mod deciding;
mod findings;
mod outcomes;
mod printing;
mod reports;
mod sheets;

pub use answering::{AnswerError, answer};
pub use deciding::{Decision, Tally, decide};
pub use outcomes::{Finding, FoundShow, Outcome};
pub use reports::Report;
pub use sheets::compared;
