//! A book answers as a machine.
ghost use Rattle.std.specs.Prelude.{◌≡◌, ◌≤◌, length, map};
ghost use Rattle.rules.specs.Rule.{terms};
ghost use Rattle.book.specs.Book.{book_meaning, moved, all_close};
ghost use Rattle.book.specs.Law.{lawful};

use super::{BASE, Book};
use machine::Machine;
use rules::Rule;

impl Machine for Book {
    ghost meaning = { book_meaning };

    ghost lawful = { lawful };

    fn cues(&self) -> u8 {
        self.cues
    }

    fn start(&self) -> u64 {
        0
    }

    fn next(&self, position: u64, cue: u8) -> u64 {
        if cue >= self.cues {
            return position;
        }
        moved(self.held.all(), position, cue)
    }

    fn may_close(&self, position: u64) -> bool {
        all_close(self.held.all(), position)
    }
}

// The position to which a cue moves the first rule's part and those of the others above it. What lies beyond the last is kept.
fn moved(rules: &[Rule], position: u64, cue: u8) -> u64
    requires { length rules.now ≤ 16 }
    ensures { result ≡ moved (map terms rules.now) position cue }
{
    let [rule, rest @ ..] = rules else {
        return position;
    };
    let state = rule.step((position % BASE) as u8, rule.letter(cue));
    u64::from(state) + BASE * moved(rest, position / BASE, cue)
}

// Whether the first rule's part may close, and those of the others above it.
fn all_close(rules: &[Rule], position: u64) -> bool
    ensures { result ≡ all_close (map terms rules.now) position }
{
    match rules {
        [] => true,
        [rule, rest @ ..] => {
            rule.closes((position % BASE) as u8) && all_close(rest, position / BASE)
        }
    }
}
