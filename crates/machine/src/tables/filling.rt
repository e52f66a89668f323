//! Making and filling a table.
ghost use Rattle.std.specs.Prelude.{◌≡◌, ◌-◌, ◌^◌, ◌<◌, ◌≤◌, ◌↔◌, ◌++◌, Some, length, replicate, IsTrue};
ghost use Rattle.machine.specs.Show.{AllBelow};
ghost use Rattle.machine.specs.Table.{described, description_of, LookedOver, Filled, Made, Holds, fill_number, fill_words, blank};
ghost use Rattle.std.proofs.Common.{rules};

use super::{CELLS, FillRefusal, Table};
use crate::numbers::Numbered;
use std::error::Error;
use std::fmt;

const MOST_STATES: u8 = 64;

const MOST_CUES: u8 = 32;

impl Numbered for FillRefusal {
    ghost number = { fill_number };

    ghost told_apart = { Prim.search rules };

    fn number(self) -> u8 {
        self as u8
    }
}

impl fmt::Display for FillRefusal {
    ghost output = { λ e. Some (fill_words e) };

    ghost styled_output = { λ e spec. Some (fill_words e) };

    fn fmt<W: fmt::Write>(&self, f: &mut fmt::Formatter<W>) -> fmt::Result {
        f.write_str(match self {
            FillRefusal::StateCount => "the state count is not 1 to 64",
            FillRefusal::CueCount => "the cue count is not 1 to 32",
            FillRefusal::Length => "there is not one byte for each state and cue",
            FillRefusal::NoSuchState => "a byte or a closing bit names no state",
        })
    }
}

impl Error for FillRefusal {}

impl Table {
    /// A table of one state and one cue, which closes nowhere.
    pub fn new() -> Table
        ensures { Holds result blank }
    {
        Table {
            states: 1,
            cues: 1,
            next: [0; CELLS],
            closing: 0,
        }
    }

    /// Fills the table. `next` names the next states, first those of state 0, one byte a cue, then those of state 1, and so on;
    /// bit s of `closing` is set where state s may close. A refusal leaves the table as it was.
    pub fn fill(
        &mut self,
        states: u8,
        cues: u8,
        next: &[u8],
        closing: u64,
    ) -> Result<(), FillRefusal>
        ensures { Filled result (described states cues next.now closing) self.old self.new }
    {
        looked_over(states, cues, next, closing)?;
        *self = Table {
            states,
            cues,
            next: padded(next),
            closing,
        };
        Ok(())
    }

    /// Makes a table and fills it so, or answers why not.
    pub fn filled(states: u8, cues: u8, next: &[u8], closing: u64) -> Result<Table, FillRefusal>
        ensures { Made result (described states cues next.now closing) }
    {
        let mut table = Table::new();
        table.fill(states, cues, next, closing)?;
        Ok(table)
    }

    /// How many states the table has: those of the description that it holds.
    pub fn states(&self) -> u8
        ensures { result ≡ (description_of self.now).states }
    {
        self.states
    }
}

impl Default for Table {
    ghost is_default = { λ table. Holds table blank };

    /// A new table.
    fn default() -> Table {
        Table::new()
    }
}

// What is wrong first with a description of a table, if anything.
fn looked_over(states: u8, cues: u8, next: &[u8], closing: u64) -> Result<(), FillRefusal>
    ensures { LookedOver result (described states cues next.now closing) }
{
    if !(1..=MOST_STATES).contains(&states) {
        return Err(FillRefusal::StateCount);
    }
    if !(1..=MOST_CUES).contains(&cues) {
        return Err(FillRefusal::CueCount);
    }
    if next.len() != usize::from(states) * usize::from(cues) {
        return Err(FillRefusal::Length);
    }
    if !all_below(next, states) || !bits_below(closing, states) {
        return Err(FillRefusal::NoSuchState);
    }
    Ok(())
}

// Whether each byte is below a limit.
fn all_below(bytes: &[u8], limit: u8) -> bool
    ensures { IsTrue result ↔ AllBelow limit bytes.now }
{
    bytes.iter().all(|&b| b < limit)
}

// Whether a number has no bit set from a place on.
fn bits_below(bits: u64, count: u8) -> bool
    requires { count ≤ 64 }
    ensures { IsTrue result ↔ (bits < 2 ^ count) }
{
    count == 64 || bits < 1 << count
}

// The bytes with zeros behind them.
fn padded(bytes: &[u8]) -> [u8; CELLS]
    requires { length bytes.now ≤ 2048 }
    ensures { result ≡ bytes.now ++ replicate (2048 - length bytes.now) 0 }
{
    let mut all = [0; CELLS];
    all[..bytes.len()].copy_from_slice(bytes);
    all
}
