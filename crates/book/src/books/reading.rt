//! Reading one rule of a book at a position, and weighing a cue for it.
ghost use Rattle.std.specs.Prelude.{◌≡◌, ◌<◌};
ghost use Rattle.book.specs.Book.{book_content, part};
ghost use Rattle.book.specs.Reading.{Stands, Read, ReadBehindShows, Weighed, WeighedBehindShows};

use super::{BASE, Book};
use crate::ahead::Ahead;
use crate::values::{ReadingRefusal, Value};
use rules::Rule;

impl Book {
    /// Reads rule i at a position: its value, and the permitted cues as bits, bit c for cue c. A cue is permitted unless the rule,
    /// after it, fails whatever follows.
    ///
    /// At a position to which a show of the book's cues leads, the reading is told of that show and of all that can follow it.
    #[tactic(auto, using(crate::proofs::Behind::read_behind))]
    pub fn reading(&self, position: u64, i: u8) -> Result<(Value, u32), ReadingRefusal>
        ensures read_at_its_state { Read result (book_content self.now) position i }
        ensures told_of_any_show_behind { ReadBehindShows result self.now position i }
    {
        let (rule, state) = self.stands(position, i)?;
        Ok(Ahead::of(rule, self.cues).reading(state))
    }

    /// Whether a cue is relevant (its execution relevant) to rule i at a position: it changes the value, or which cues are
    /// permitted.
    ///
    /// At a position to which a show of the book's cues leads, this too is told of that show.
    #[tactic(auto, using(crate::proofs::Behind::weighed_behind))]
    pub fn relevance(&self, position: u64, i: u8, cue: u8) -> Result<bool, ReadingRefusal>
        ensures weighed_at_its_state { Weighed result (book_content self.now) position i cue }
        ensures told_of_any_show_behind { WeighedBehindShows result self.now position i cue }
    {
        let (rule, at) = self.stands(position, i)?;
        if cue >= self.cues {
            return Err(ReadingRefusal::NoSuchCue);
        }
        Ok(Ahead::of(rule, self.cues).is_relevant(at, cue))
    }

    // Rule i, and the state of it that the position has.
    fn stands(&self, position: u64, i: u8) -> Result<(Rule, u8), ReadingRefusal>
        ensures { Stands result (book_content self.now) position i }
    {
        let rule = self.held.get(i).ok_or(ReadingRefusal::NoSuchRule)?;
        let state = part(position, i);
        if state >= rule.states() {
            return Err(ReadingRefusal::NoSuchState);
        }
        Ok((rule, state))
    }
}

// The part of a position that is a rule's state: four bits.
fn part(position: u64, i: u8) -> u8
    requires { i < 16 }
    ensures { result ≡ part position i }
{
    ((position >> (4 * i)) % BASE) as u8
}
