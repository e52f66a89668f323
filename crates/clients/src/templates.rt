//! Uses of rules and their templates.
ghost use Rattle.std.specs.Prelude.{ℕ, ◌≡◌, ◌<◌, ◌≤◌, ◌↔◌, Some, slice_get, IsTrue, IsSome, IfSome, IfNone};
ghost use Rattle.rules.specs.Rule.{terms};
ghost use Rattle.rules.specs.Rule.{Terms};
ghost use Rattle.rules.specs.States.{OverItsLetters};
ghost use Rattle.rules.specs.Word.{Word};
ghost use Rattle.clients.specs.Tables.{IsOutside};
ghost use Rattle.clients.specs.Rules.{HangsOnCount, HangsOnB, CalledAtLeast, EndsWith, EachAnswered, word_state, Inseparable, AsItsStates, Reached, IfPast};

use machine::Numbered;
use rules::{Arguments, Letter, Rule, Template, words_told_apart};

/// Finds a template again by its number.
fn found_by_number(template: Template) -> Option<Template>
    ensures { result ≡ Some template }
{
    Template::from_number(template.number())
}

/// Whether two templates have one word: only a template and itself do.
fn have_one_word(t: Template, u: Template) -> bool
    ensures { IsTrue result ↔ (t ≡ u) }
{
    words_told_apart();
    t.word() == u.word()
}

/// Makes a rule twice of one description: both are made and say the same, or both are turned down for one reason.
fn made_alike(template: Template, a: u8, b: u8, n: u8) -> bool
    ensures { IsTrue result }
{
    match (Rule::new(template, a, b, n), Rule::new(template, a, b, n)) {
        (Ok(r), Ok(s)) => {
            r.template() == s.template() && r.a() == s.a() && r.b() == s.b() && r.n() == s.n()
        }
        (Err(e), Err(f)) => e == f,
        _ => false,
    }
}

/// Whether it makes a difference to the template how high a count is: some word tells two counts apart.
fn hangs_on_its_count(template: Template) -> bool
    ensures { IsTrue result ↔ HangsOnCount template }
{
    template.arguments() == Arguments::CueAndCount
}

/// Whether it makes a difference to the template where a B stands: some word tells it from the word without it.
fn hangs_on_b(template: Template) -> bool
    ensures { IsTrue result ↔ HangsOnB template }
{
    template.arguments() == Arguments::TwoCues
}

/// Whether a show calls a cue n times or more, by a rule of existence; none where no rule has such a count.
fn called_at_least(a: u8, n: u8, show: &[u8]) -> Option<bool>
    ensures yes_if_called_so_often { IfSome result (λ yes.
        IsTrue yes ↔ CalledAtLeast n a show.now) }
    ensures none_only_outside_its_limits { IfNone result (IsOutside n 14) }
{
    let rule = Rule::new(Template::Existence, a, 0, n).ok()?;
    Some(rule.holds(show))
}

/// Whether a show ends with a cue, or is empty, by a rule of last, which there is for every cue.
fn ends_with(a: u8, show: &[u8]) -> Option<bool>
    ensures yes_if_it_ends_so { IfSome result (λ yes. IsTrue yes ↔ EndsWith a show.now) }
    ensures always_answers { IsSome result }
{
    let rule = Rule::new(Template::Last, a, 0, 0).ok()?;
    Some(rule.holds(show))
}

/// Whether each call of one cue is answered by a later one of another, by a rule of response; none where they are one cue.
fn each_answered(a: u8, b: u8, show: &[u8]) -> Option<bool>
    ensures yes_if_each_is_answered { IfSome result (λ yes.
        IsTrue yes ↔ EachAnswered a b show.now) }
    ensures none_only_for_one_cue { IfNone result (a ≡ b) }
{
    let rule = Rule::new(Template::Response, a, b, 0).ok()?;
    Some(rule.holds(show))
}

/// The state to which a word leads a rule.
fn state_after(rule: Rule, word: &[Letter]) -> u8
    ensures { result ≡ word_state (terms rule) word.now }
{
    word.iter()
        .fold(0, |state, &letter| rule.step(state, letter))
}

/// Whether two words lead a rule to one state: just then nothing behind both tells them apart.
fn lead_to_one_state(rule: Rule, u: &[Letter], v: &[Letter]) -> bool
    ensures { IsTrue result ↔ Inseparable (terms rule) u.now v.now }
{
    let _states = rule.states();
    state_after(rule, u) == state_after(rule, v)
}

/// Looks up what is noted in 16 places for the state to which a word leads. No word leads past them.
fn noted_after(rule: Rule, word: &[Letter], notes: &[u8; 16]) -> u8
    ensures { slice_get notes.now (word_state (terms rule) word.now) ≡ Some result }
{
    let _states = rule.states();
    notes[usize::from(state_after(rule, word))]
}

/// Whether some word leads to a state: whether it is one of the rule's.
fn is_reached(rule: Rule, state: u8) -> bool
    ensures { IsTrue result ↔ Reached (terms rule) state }
{
    state < rule.states()
}

/// Whether a word leads to a later state than a given one: then a word that is no longer leads to that.
fn is_past(rule: Rule, word: &[Letter], state: u8) -> bool
    ensures { IfPast (terms rule) word.now state result }
{
    let _states = rule.states();
    state < state_after(rule, word)
}

/// A state past a rule's last leads nowhere else, and no show may close there.
fn past_the_last_is_shut(rule: Rule, state: u8, letter: Letter) -> bool
    ensures { IsTrue result }
{
    let states = rule.states();
    state < states || rule.step(state, letter) == state && !rule.closes(state)
}

/// Where a template takes no B, the letter B leads where other leads.
fn b_leads_as_other(rule: Rule, state: u8) -> bool
    ensures { IsTrue result }
{
    let _states = rule.states();
    rule.template().arguments() == Arguments::TwoCues
        || rule.step(state, Letter::B) == rule.step(state, Letter::Other)
}

/// A way to number the words over a rule's letters: two words have one number exactly when nothing behind both tells them apart,
/// and numbers are given in the order in which words first reach them.
trait Numbering {
    /// What the rule says.
    ghost of_rule: { Self → Terms };

    /// The number of a word.
    ghost number_of: { Self → Word → ℕ };

    /// The rule whose words are numbered, as its states are.
    fn rule(&self) -> Rule
        ensures says_this { terms result ≡ of_rule self.now }
        ensures numbered_by_first_reach { AsItsStates (of_rule self.now) (number_of self.now) };

    /// The number of a word.
    fn number(&self, word: &[Letter]) -> u8
        ensures { result ≡ number_of self.now word.now };
}

// A rule numbers words itself: each has the number of the state to which it leads.
impl Numbering for Rule {
    ghost of_rule = { terms };

    ghost number_of = { λ rule. word_state (terms rule) };

    fn rule(&self) -> Rule {
        let _states = self.states();
        *self
    }

    fn number(&self, word: &[Letter]) -> u8 {
        state_after(*self, word)
    }
}

/// Whatever way to number words is taken, a word over the rule's letters has the number of the state to which it leads.
fn numbered_as_states<N: Numbering>(numbering: &N, word: &[Letter]) -> bool
    ensures { OverItsLetters (N.of_rule numbering.now).template word.now → IsTrue result }
{
    let rule = numbering.rule();
    let _states = rule.states();
    numbering.number(word) == state_after(rule, word)
}
