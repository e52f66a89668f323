//! Example tables over three cues, LOAD, HOLD and FLY, for programs to play and to compare.

#![tactic(auto)]

ghost use Rattle.std.specs.Prelude.{◌≡◌};
ghost use Rattle.machine.specs.Table.{described, Right, Means, table_meaning};
ghost use Rattle.examples.specs.Example.{load_first, hold_later, hold_directly, LoadFirst, HoldLater, HoldDirectly, AllowsJust, cue_name};

use machine::Table;

/// The name of a cue.
pub fn name(cue: u8) -> &'static str
    ensures { result.now ≡ cue_name cue }
{
    match cue {
        0 => "LOAD",
        1 => "HOLD",
        2 => "FLY",
        _ => "?",
    }
}

/// A flight only after its star field was loaded: before every FLY a LOAD stands earlier.
pub fn flight() -> Table
    ensures as_described { Means (table_meaning result) load_first }
    ensures flies_only_after_load { AllowsJust (table_meaning result) LoadFirst }
{
    filled(3, 3, &[1, 0, 2, 1, 1, 1, 2, 2, 2], 0b011)
}

/// After every LOAD a HOLD stands later.
pub fn held_later() -> Table
    ensures as_described { Means (table_meaning result) hold_later }
    ensures each_load_is_held_later { AllowsJust (table_meaning result) HoldLater }
{
    filled(2, 3, &[1, 0, 0, 1, 0, 1], 0b01)
}

/// Directly after every LOAD stands HOLD.
pub fn held_directly() -> Table
    ensures as_described { Means (table_meaning result) hold_directly }
    ensures each_load_is_held_directly { AllowsJust (table_meaning result) HoldDirectly }
{
    filled(3, 3, &[1, 0, 0, 2, 0, 2, 2, 2, 2], 0b001)
}

// A table filled from a right description.
fn filled(states: u8, cues: u8, next: &[u8], closing: u64) -> Table
    requires { Right (described states cues next.now closing) }
    ensures { Means (table_meaning result) (described states cues next.now closing) }
{
    Table::filled(states, cues, next, closing).unwrap()
}
