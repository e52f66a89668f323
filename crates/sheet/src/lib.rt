//! Sheets: reading a comparison sheet from bytes. Nothing here allocates.

#![tactic(auto)]

mod faults;
mod fields;
mod forms;
mod lines;
mod name_lines;
mod names;
mod reader;
mod rule_lines;
mod section_lines;
mod sheets;
mod stretches;
mod theorems;
mod words;

pub use faults::{Fault, Layer, ReaderRefusal, Refusal};
pub use fields::Field;
pub use names::Names;
pub use sheets::{MOST_BYTES, Sheet};
pub use stretches::Stretch;
pub use theorems::{none_is_longer, only_two_of_a_draft};
