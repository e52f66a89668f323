//! Letters.

/// A letter (a symbol of the rule's alphabet): what a cue is to a rule.
#[derive(Clone, Copy, Debug, PartialEq, Eq, Hash)]
pub enum Letter {
    /// The cue falls under the rule's A.
    A,
    /// The cue falls under the rule's B.
    B,
    /// Any other cue.
    Other,
}
