//! The types of readings. What they are called stands in the module below.

mod naming;

/// A rule's value (the truth value of runtime monitoring): what the rule says of the running show and of all that can
/// follow it. A value's published number is that of its case.
#[derive(Clone, Copy, Debug, PartialEq, Eq, Hash)]
pub enum Value {
    /// The rule holds, whatever follows (it is permanently satisfied).
    HoldsAlways = 0,
    /// The rule holds as the show stands, and can come to fail (it is currently satisfied).
    Holds = 1,
    /// The rule fails as the show stands, and can come to hold (it is currently violated).
    Fails = 2,
    /// The rule fails, whatever follows (it is permanently violated).
    FailsAlways = 3,
}

/// Why a position is not read. A refusal's published number is that of its case.
#[derive(Clone, Copy, Debug, PartialEq, Eq, Hash)]
pub enum ReadingRefusal {
    /// The cue is not below the cue count.
    NoSuchCue = 9,
    /// There is no rule of that number.
    NoSuchRule = 13,
    /// The position holds a state that the rule lacks.
    NoSuchState = 18,
}
