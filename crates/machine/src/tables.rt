//! The type of a table. Its calls are in the modules below.
ghost use Rattle.std.specs.Prelude.{◌≡◌, ℕ, ◌^◌, ◌<◌, ◌≤◌, length, slice_index};

mod filling;
mod machine;

// One byte for each of at most 64 states and 32 cues.
const CELLS: usize = 2048;

/// A table (an explicit automaton). Its 1 to 64 states bear the numbers from 0 on, and shows begin at 0. It keeps the next state
/// for each state and cue, and a bit for each state, whether a show may close there.
#[derive(Drop)]
pub struct Table {
    states: u8,
    cues: u8,
    next: [u8; CELLS],
    closing: u64,
    ghost some_states: { 1 ≤ states },
    ghost few_states: { states ≤ 64 },
    ghost some_cues: { 1 ≤ cues },
    ghost few_cues: { cues ≤ 32 },
    ghost full_length: { length next ≡ 2048 },
    ghost next_is_state: { (k : ℕ) → slice_index next k < states },
    ghost closing_is_state: { closing < 2 ^ states },
}

/// Why a table is not filled. A refusal's published number is that of its case.
#[derive(Clone, Copy, Debug, PartialEq, Eq, Hash)]
pub enum FillRefusal {
    /// The state count is not 1 to 64.
    StateCount = 14,
    /// The cue count is not 1 to 32.
    CueCount = 15,
    /// There is not one byte for each state and cue.
    Length = 16,
    /// A byte or a closing bit names no state.
    NoSuchState = 17,
}
