//! Making a rule, and what it is made of.
ghost use Rattle.std.specs.Prelude.{◌≡◌, Some};
ghost use Rattle.rules.specs.Rule.{LookedOver, Made, Retuned, terms, refusal_number, refusal_words};
ghost use Rattle.std.proofs.Common.{rules};

use super::{Rule, RuleRefusal};
use crate::templates::{Arguments, Template};
use machine::Numbered;
use std::error::Error;
use std::fmt;

const MOST_TIMES: u8 = 14;

impl Numbered for RuleRefusal {
    ghost number = { refusal_number };

    ghost told_apart = { Prim.search rules };

    fn number(self) -> u8 {
        self as u8
    }
}

impl fmt::Display for RuleRefusal {
    ghost output = { λ e. Some (refusal_words e) };

    ghost styled_output = { λ e spec. Some (refusal_words e) };

    fn fmt<W: fmt::Write>(&self, f: &mut fmt::Formatter<W>) -> fmt::Result {
        f.write_str(match self {
            RuleRefusal::CountOutside => "the count is not 1 to 14",
            RuleRefusal::SameCue => "A and B are the same cue",
        })
    }
}

impl Error for RuleRefusal {}

impl Rule {
    /// Makes a rule of a template and its arguments, or tells why not. An argument that the template lacks is not looked at.
    pub fn new(template: Template, a: u8, b: u8, n: u8) -> Result<Rule, RuleRefusal>
        ensures { Made result template a b n }
    {
        looked_over(template.arguments(), a, b, n)?;
        let (b, n) = match template.arguments() {
            Arguments::CueAndCount => (0, n),
            Arguments::OneCue => (0, 0),
            Arguments::TwoCues => (b, 0),
        };
        Ok(Rule { template, a, b, n })
    }

    /// Gives the rule another count. One that its template lacks is not looked at; a refusal leaves the rule as it was.
    pub fn retune(&mut self, n: u8) -> Result<(), RuleRefusal>
        ensures { Retuned result n self.old self.new }
    {
        let Rule { template, a, b, .. } = *self;
        *self = Rule::new(template, a, b, n)?;
        Ok(())
    }

    /// The rule's template.
    pub fn template(self) -> Template
        ensures { result ≡ (terms self).template }
    {
        self.template
    }

    /// The rule's cue A.
    pub fn a(self) -> u8
        ensures { result ≡ (terms self).a }
    {
        self.a
    }

    /// The rule's cue B, or 0 where its template takes none.
    pub fn b(self) -> u8
        ensures { result ≡ (terms self).b }
    {
        self.b
    }

    /// The rule's count, or 0 where its template takes none.
    pub fn n(self) -> u8
        ensures { result ≡ (terms self).n }
    {
        self.n
    }
}

// Looks arguments over before a rule is made of them.
fn looked_over(arguments: Arguments, a: u8, b: u8, n: u8) -> Result<(), RuleRefusal>
    ensures { LookedOver result arguments a b n }
{
    match arguments {
        Arguments::CueAndCount if n < 1 || n > MOST_TIMES => Err(RuleRefusal::CountOutside),
        Arguments::TwoCues if a == b => Err(RuleRefusal::SameCue),
        _ => Ok(()),
    }
}
