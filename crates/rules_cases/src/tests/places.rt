//! What each template says of a word, read off its places and off nothing else.
use rules::{Letter, Template};

// Whether a template with count n holds of a word.
pub(super) fn holds(template: Template, n: usize, word: &[Letter]) -> bool {
    match template {
        Template::Existence => times(word) >= n,
        Template::Absence => times(word) < n,
        Template::Exactly => times(word) == n,
        Template::Init => word.is_empty() || word.first() == Some(&Letter::A),
        Template::Last => word.is_empty() || word.last() == Some(&Letter::A),
        _ => holds_with_b(template, word),
    }
}

fn holds_with_b(template: Template, word: &[Letter]) -> bool {
    let a = stands(Letter::A, word);
    let b = stands(Letter::B, word);
    match template {
        Template::RespondedExistence => !a || b,
        Template::CoExistence => a == b,
        Template::NotCoExistence => !(a && b),
        Template::Choice => a || b,
        Template::ExclusiveChoice => a != b,
        Template::NotSuccession => each_a(word, Way::Plain, false),
        Template::NotChainSuccession => each_a(word, Way::Chain, false),
        _ => holds_in_turn(template, word),
    }
}

fn holds_in_turn(template: Template, word: &[Letter]) -> bool {
    match template {
        Template::Response => each_a(word, Way::Plain, true),
        Template::Precedence => each_b(word, Way::Plain),
        Template::Succession => each_a(word, Way::Plain, true) && each_b(word, Way::Plain),
        Template::AlternateResponse => each_a(word, Way::Alternate, true),
        Template::AlternatePrecedence => each_b(word, Way::Alternate),
        Template::AlternateSuccession => each_a(word, Way::Alternate, true)
            && each_b(word, Way::Alternate),
        Template::ChainResponse => each_a(word, Way::Chain, true),
        Template::ChainPrecedence => each_b(word, Way::Chain),
        _ => each_a(word, Way::Chain, true) && each_b(word, Way::Chain),
    }
}

fn stands(letter: Letter, word: &[Letter]) -> bool {
    word.contains(&letter)
}

fn times(word: &[Letter]) -> usize {
    word.iter().filter(|letter| **letter == Letter::A).count()
}

// Anywhere later or earlier; with none of its kind between; or directly beside it.
#[derive(Clone, Copy)]
enum Way {
    Plain,
    Alternate,
    Chain,
}

// Behind every A a B stands in that way, or behind none, as is wanted.
fn each_a(word: &[Letter], way: Way, wanted: bool) -> bool {
    for i in 0..word.len() {
        if word[i] == Letter::A && b_after(&word[i + 1..], way) != wanted {
            return false;
        }
    }
    true
}

fn b_after(after: &[Letter], way: Way) -> bool {
    for j in 0..after.len() {
        let so = match way {
            Way::Plain => true,
            Way::Alternate => !stands(Letter::A, &after[..j]),
            Way::Chain => j == 0,
        };
        if after[j] == Letter::B && so {
            return true;
        }
    }
    false
}

// In front of every B an A stands in that way.
fn each_b(word: &[Letter], way: Way) -> bool {
    for i in 0..word.len() {
        if word[i] == Letter::B && !a_before(&word[..i], way) {
            return false;
        }
    }
    true
}

fn a_before(before: &[Letter], way: Way) -> bool {
    for j in 0..before.len() {
        let so = match way {
            Way::Plain => true,
            Way::Alternate => !stands(Letter::B, &before[j + 1..]),
            Way::Chain => j + 1 == before.len(),
        };
        if before[j] == Letter::A && so {
            return true;
        }
    }
    false
}
