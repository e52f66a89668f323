//! The rules that a draft or a book holds.
ghost use Rattle.std.specs.Prelude.{◌≡◌, ◌<◌, ◌≤◌, ◌++◌, [], ◌∷◌, length, map, remove};
ghost use Rattle.rules.specs.Rule.{terms};
ghost use Rattle.book.specs.Held.{most_rules, blank, held_rules, Tidy, RetunedAt, FoundAt};

use rules::{Rule, RuleRefusal, Template};

/// How many rules a draft or a book holds at most.
pub(crate) const MOST_RULES: u8 = 16;

/// How many states a rule has at most, and how many a part of a position can tell.
pub(crate) const MOST_STATES: u8 = 16;

const PLACES: usize = MOST_RULES as usize;

/// Rules in places of a fixed number, those held first and blank ones beyond.
#[derive(Drop)]
pub(crate) struct Held {
    rules: [Rule; PLACES],
    pub(crate) count: u8,
}

impl Held {
    // No rule is held.
    pub(crate) fn none() -> Held
        ensures is_tidy { Tidy result }
        ensures holds_none { held_rules result ≡ [] }
    {
        Held {
            rules: [blank(); PLACES],
            count: 0,
        }
    }

    // Holds one rule more, as the last.
    pub(crate) fn push(&mut self, rule: Rule)
        requires is_tidy { Tidy self.old }
        requires has_room { self.old.count < most_rules }
        ensures is_tidy { Tidy self.new }
        ensures holds_it_last { held_rules self.new ≡ held_rules self.old ++ terms rule ∷ [] }
    {
        self.rules[usize::from(self.count)] = rule;
        self.count += 1;
    }

    // Takes a rule out. Later ones move down.
    pub(crate) fn remove(&mut self, i: u8)
        requires is_tidy { Tidy self.old }
        requires is_held { i < self.old.count }
        ensures is_tidy { Tidy self.new }
        ensures later_move_down { held_rules self.new ≡ remove (held_rules self.old) i }
    {
        self.rules[usize::from(i)..].rotate_left(1);
        self.count -= 1;
        self.rules[PLACES - 1] = blank();
    }

    // Gives one rule another count. All others stay as they are.
    pub(crate) fn retune(&mut self, i: u8, n: u8) -> Result<(), RuleRefusal>
        requires is_tidy { Tidy self.old }
        requires is_held { i < self.old.count }
        ensures is_tidy { Tidy self.new }
        ensures retunes_it_alone { RetunedAt i n result self.old self.new }
    {
        self.rules[usize::from(i)].retune(n)
    }

    // The rules that are held.
    pub(crate) fn all(&self) -> &[Rule]
        requires is_tidy { Tidy self.now }
        ensures just_those_held { map terms result.now ≡ held_rules self.now }
        ensures at_most_16 { length result.now ≤ most_rules }
    {
        &self.rules[..usize::from(self.count)]
    }

    // The rule of a number, where one is held.
    pub(crate) fn get(&self, i: u8) -> Option<Rule>
        requires is_tidy { Tidy self.now }
        ensures { FoundAt result self.now i }
    {
        if i < self.count {
            Some(self.rules[usize::from(i)])
        } else {
            None
        }
    }
}

// What stands in a place where no rule is held: init of cue 0.
fn blank() -> Rule
    ensures { terms result ≡ blank }
{
    Rule::new(Template::Init, 0, 0, 0).unwrap()
}
