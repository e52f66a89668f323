//! Comparing two books.
ghost use Rattle.std.specs.Prelude.{◌≡◌};
ghost use Rattle.book.specs.Book.{book_meaning};
ghost use Rattle.comparison.specs.Deciding.{TallyOf};
ghost use Rattle.comparison.specs.Finding.{MachinesFinding, verdict_of};

use crate::deciding::{Decision, Tally, decide_watched};
use crate::outcomes::{Finding, FoundShow, ROOM};
use book::Book;

// Compares two books of equally many cues.
pub(crate) fn books_compared(left: Book, right: Book) -> (Finding, Tally)
    requires { (book_meaning left).steps.cues ≡ (book_meaning right).steps.cues }
    ensures finds_what_is_so { MachinesFinding (book_meaning left) (book_meaning right) result.0 }
    ensures tally_is_theirs { TallyOf (book_meaning left) (book_meaning right)
        (verdict_of result.0) result.1 }
{
    let mut cues = [0; ROOM];
    let Decision {
        verdict,
        tally,
        length,
        ..
    } = decide_watched(left, right, &mut cues);
    let show = FoundShow::new(cues, length.unwrap_or(0));
    (Finding::new(verdict, show), tally)
}
