//! The type of a rule. Its calls are in the modules below.
ghost use Rattle.rules.specs.Naming.{arguments_of};
ghost use Rattle.rules.specs.Form.{InForm};

use crate::templates::Template;

mod making;
mod walking;

/// A rule (a Declare constraint): a template with its arguments, a cue A, a cue B and a count n. What the template lacks is
/// kept as 0.
#[derive(Clone, Copy, Debug, PartialEq, Eq, Hash)]
pub struct Rule {
    template: Template,
    a: u8,
    b: u8,
    n: u8,
    ghost in_form: { InForm (arguments_of template) a b n },
}

/// Why a rule is not made. A refusal's published number is that of its case.
#[derive(Clone, Copy, Debug, PartialEq, Eq, Hash)]
pub enum RuleRefusal {
    /// The count is not 1 to 14.
    CountOutside = 10,
    /// A and B are the same cue.
    SameCue = 11,
}
