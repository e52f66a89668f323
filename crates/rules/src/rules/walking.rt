//! A rule as an automaton over letters.
ghost use Rattle.std.specs.Prelude.{◌≡◌, ◌↔◌, IsTrue};
ghost use Rattle.rules.specs.States.{StatesAre};
ghost use Rattle.rules.specs.Rule.{terms, letter_of, FallsUnder, states_of, step_of, closes_at, SeenByPlace, HoldsOf, ClosesWhereItHolds};

use super::Rule;
use crate::letters::Letter;
use crate::moves;
use crate::templates::{Arguments, Template};

impl Rule {
    /// The letter that a cue is to the rule.
    pub fn letter(self, cue: u8) -> Letter
        ensures is_its_letter { result ≡ letter_of (terms self) cue }
        ensures cue_falls_under_it { FallsUnder (terms self) cue result }
    {
        if cue == self.a {
            Letter::A
        } else if self.template.arguments() == Arguments::TwoCues && cue == self.b {
            Letter::B
        } else {
            Letter::Other
        }
    }

    /// How many states the rule has: those of its minimal automaton, numbered from 0 as words over its letters first reach them.
    pub fn states(self) -> u8
        ensures has_so_many { result ≡ states_of (terms self) }
        ensures numbered_by_first_reach { StatesAre (terms self).template (terms self).n }
    {
        match self.template {
            Template::Existence | Template::Absence => self.n + 1,
            Template::Exactly => self.n + 2,
            template => moves::states(template),
        }
    }

    /// The state to which a letter leads from a state (the transition function). A state that the rule lacks leads to itself.
    pub fn step(self, state: u8, letter: Letter) -> u8
        ensures { result ≡ step_of (terms self) state letter }
    {
        match (self.template, letter) {
            (Template::Existence, Letter::A) if state < self.n => state + 1,
            (Template::Absence, Letter::A) if state < self.n => state + 1,
            (Template::Exactly, Letter::A) if state <= self.n => state + 1,
            (Template::Existence | Template::Absence | Template::Exactly, _) => state,
            (template, letter) => moves::step(template, state, letter),
        }
    }

    /// Whether a show may close at a state (whether it is accepting): the rule holds of the shows that lead there. At a state that
    /// the rule lacks none may.
    pub fn closes(self, state: u8) -> bool
        ensures closes_there { result ≡ closes_at (terms self) state }
        ensures closes_where_it_holds { ClosesWhereItHolds (terms self) }
    {
        match self.template {
            Template::Existence | Template::Exactly => state == self.n,
            Template::Absence => state < self.n,
            template => moves::closes(template, state),
        }
    }

    /// Whether the rule holds of a show.
    pub fn holds(self, show: &[u8]) -> bool
        ensures yes_if_held { IsTrue result ↔ HoldsOf (terms self) show.now }
        ensures sees_place_by_place { SeenByPlace (terms self) }
    {
        let state = show
            .iter()
            .fold(0, |state, &cue| self.step(state, self.letter(cue)));
        self.closes(state)
    }
}
