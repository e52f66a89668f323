//! What is so of readings and of drafts and books, on no call in particular. These functions do nothing; a caller takes the fact
//! from them.
ghost use Rattle.book.specs.Book.{book_content, book_meaning, AllowsWhatHolds, OnePosition};
ghost use Rattle.book.specs.Examples.{ExampleCasesHold};
ghost use Rattle.book.specs.Reading.{OneReading, SecondANotRelevant};
ghost use Rattle.book.specs.Whole.{WholeInContent};
ghost use Rattle.book.specs.declared.books.Book.{Book};

/// Any book allows a show of its cues exactly when every one of its rules holds of the show.
pub fn books_allow_just_what_holds()
    ensures { (b : Book) → AllowsWhatHolds (book_meaning b) (book_content b) }
{}

/// Two shows of a book's cues lead it to one position exactly when none of its rules tells them apart, whatever letters follow: no
/// book has more positions than its rules need.
pub fn positions_apart_just_by_rules()
    ensures { (b : Book) → OnePosition (book_meaning b).steps (book_content b) }
{}

/// Each of the example cases holds: of seven rules, a show of which it holds and one of which it does not, and of a response what
/// is read at the empty show and after its A.
#[tactic(auto, using(crate::proofs::Examples::example_cases_hold))]
pub fn example_cases()
    ensures { ExampleCasesHold }
{}

/// Two right readings of a state are the same: one value, and the same permitted cues.
#[tactic(auto, using(crate::proofs::Readings::one_reading))]
pub fn one_reading()
    ensures { OneReading }
{}

/// While a response waits for its B, one more A is not relevant to it.
#[tactic(auto, using(crate::proofs::Pending::second_a_not_relevant))]
pub fn second_a_not_relevant()
    ensures { SecondANotRelevant }
{}

/// A draft and a book are what they hold, cues and rules, and nothing beside: so nothing is lost by sealing and reopening, and
/// nothing left over.
#[tactic(auto, using(crate::proofs::Same::whole_in_content))]
pub fn whole_in_content()
    ensures { WholeInContent }
{}
