//! The type of templates.

mod naming;

/// A template (a Declare constraint template): what a rule says of its cues. A template's published number is that of its
/// case.
#[derive(Clone, Copy, Debug, PartialEq, Eq, Hash)]
pub enum Template {
    /// A is called n times or more.
    Existence = 1,
    /// A is not called n times: n - 1 times at most.
    Absence = 2,
    /// A is called n times, no more and no less.
    Exactly = 3,
    /// A is the first cue of the show, if it has one.
    Init = 4,
    /// A is the last cue of the show, if it has one.
    Last = 5,
    /// A show that calls A calls B too, before it or after.
    RespondedExistence = 6,
    /// A show that calls one of the two calls the other too.
    CoExistence = 7,
    /// Each A is answered: B follows it, at once or later.
    Response = 8,
    /// Each B is prepared: A came before it, at once or earlier.
    Precedence = 9,
    /// Each A is answered, and each B is prepared.
    Succession = 10,
    /// Each A is answered before A is called again.
    AlternateResponse = 11,
    /// Each B is prepared by an A that came after the B before.
    AlternatePrecedence = 12,
    /// Each A is answered and each B prepared, in turns.
    AlternateSuccession = 13,
    /// The very next cue after each A is B.
    ChainResponse = 14,
    /// The cue just before each B is A.
    ChainPrecedence = 15,
    /// Each A has B right after it, and each B has A right before it.
    ChainSuccession = 16,
    /// A show that calls one of the two does not call the other.
    NotCoExistence = 17,
    /// Once A is called, B no longer is.
    NotSuccession = 18,
    /// B is never the very next cue after A.
    NotChainSuccession = 19,
    /// At least one of the two is called.
    Choice = 20,
    /// One of the two is called, and the other is not.
    ExclusiveChoice = 21,
}

/// Which arguments (parameters) a template takes.
#[derive(Clone, Copy, Debug, PartialEq, Eq, Hash)]
pub enum Arguments {
    /// A cue A and a count n.
    CueAndCount,
    /// A cue A.
    OneCue,
    /// Two different cues, A and B.
    TwoCues,
}
