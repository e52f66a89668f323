//! Beginning a draft, changing its rules, and reading them.
ghost use Rattle.std.specs.Prelude.{◌≡◌, length};
ghost use Rattle.book.specs.Content.{Found};
ghost use Rattle.book.specs.Draft.{draft_content, begun, Checked, Added, Struck, RetunedRule};

use super::{Draft, DraftRefusal};
use crate::held::{Held, MOST_RULES};
use rules::{Arguments, Rule, Template};

const MOST_CUES: u8 = 32;

impl Draft {
    /// Begins a draft without rules for a count of cues. A count outside 1 to 32 is taken as the nearer end.
    pub fn begin(cues: u8) -> Draft
        ensures { draft_content result ≡ begun cues }
    {
        Draft {
            cues: cues.clamp(1, MOST_CUES),
            held: Held::none(),
        }
    }

    /// Puts a rule last: a template's number, a cue A, a cue B and a count n. What the template lacks is not looked at, and kept
    /// as 0. A refusal leaves the draft as it was.
    pub fn add(&mut self, template: u8, a: u8, b: u8, n: u8) -> Result<(), DraftRefusal>
        ensures { Added result template a b n self.old self.new }
    {
        let rule = checked(self.cues, template, a, b, n)?;
        if self.held.count >= MOST_RULES {
            return Err(DraftRefusal::Full);
        }
        self.held.push(rule);
        Ok(())
    }

    /// Takes a rule out. Later rules move down. A refusal leaves the draft as it was.
    pub fn strike(&mut self, i: u8) -> Result<(), DraftRefusal>
        ensures { Struck result i self.old self.new }
    {
        if i >= self.held.count {
            return Err(DraftRefusal::NoSuchRule);
        }
        self.held.remove(i);
        Ok(())
    }

    /// Gives one rule another count. A refusal leaves the draft as it was.
    pub fn retune(&mut self, i: u8, n: u8) -> Result<(), DraftRefusal>
        ensures { RetunedRule result i n self.old self.new }
    {
        match self.held.get(i) {
            Some(rule) if rule.template().arguments() == Arguments::CueAndCount => {}
            _ => return Err(DraftRefusal::NoSuchRule),
        }
        Ok(self.held.retune(i, n)?)
    }

    /// How many cues the draft has.
    pub fn cues(&self) -> u8
        ensures { result ≡ (draft_content self.now).cues }
    {
        self.cues
    }

    /// How many rules the draft holds.
    pub fn rules(&self) -> u8
        ensures { result ≡ length (draft_content self.now).rules }
    {
        self.held.count
    }

    /// The rule of a number, where there is one.
    pub fn rule(&self, i: u8) -> Option<Rule>
        ensures { Found result (draft_content self.now) i }
    {
        self.held.get(i)
    }
}

// Looks over what is given of a rule, for a draft of so many cues, and makes the rule.
fn checked(cues: u8, template: u8, a: u8, b: u8, n: u8) -> Result<Rule, DraftRefusal>
    ensures { Checked result cues template a b n }
{
    let template = Template::from_number(template).ok_or(DraftRefusal::NoSuchTemplate)?;
    if a >= cues || template.arguments() == Arguments::TwoCues && b >= cues {
        return Err(DraftRefusal::NoSuchCue);
    }
    Ok(Rule::new(template, a, b, n)?)
}
