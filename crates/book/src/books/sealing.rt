//! Sealing a draft, reopening a book, and reading its rules.
ghost use Rattle.std.specs.Prelude.{◌≡◌, length};
ghost use Rattle.book.specs.Content.{Found};
ghost use Rattle.book.specs.Draft.{draft_content};
ghost use Rattle.book.specs.Book.{book_content, book_meaning, MovesByParts, AllowsWhatHolds, OnePosition};

use super::Book;
use crate::drafts::Draft;
use rules::Rule;

impl Draft {
    /// Seals the draft: it becomes a book of the same cues and rules.
    ///
    /// Here is the book's whole promise: it allows a show of its cues exactly when every rule's template holds of the show. And it
    /// has no more positions than each of its rules needs by itself: two shows lead to one exactly when no rule tells them apart,
    /// whatever letters follow.
    pub fn seal(self) -> Book
        ensures same_content { book_content result ≡ draft_content self }
        ensures moves_part_by_part { MovesByParts (book_meaning result) (book_content result) }
        ensures allows_just_what_holds { AllowsWhatHolds
            (book_meaning result) (book_content result) }
        ensures apart_just_by_rules { OnePosition
            (book_meaning result).steps (book_content result) }
    {
        let Draft { cues, held, .. } = self;
        Book { cues, held }
    }
}

impl Book {
    /// Reopens the book: it becomes a draft of the same cues and rules.
    pub fn reopen(self) -> Draft
        ensures { draft_content result ≡ book_content self }
    {
        let Book { cues, held, .. } = self;
        Draft { cues, held }
    }

    /// How many rules the book holds.
    pub fn rules(&self) -> u8
        ensures { result ≡ length (book_content self.now).rules }
    {
        self.held.count
    }

    /// The rule of a number, where there is one.
    pub fn rule(&self, i: u8) -> Option<Rule>
        ensures { Found result (book_content self.now) i }
    {
        self.held.get(i)
    }
}
