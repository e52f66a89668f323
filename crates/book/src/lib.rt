//! Books: rules together as a machine, drafts of books, and what a running show means to one rule of a book. Nothing here
//! allocates.

#![tactic(auto)]

mod ahead;
mod books;
mod drafts;
mod held;
mod theorems;
mod values;

pub use books::Book;
pub use drafts::{Draft, DraftRefusal};
pub use theorems::{
    books_allow_just_what_holds, example_cases, one_reading, positions_apart_just_by_rules,
    second_a_not_relevant, whole_in_content,
};
pub use values::{ReadingRefusal, Value};
