//! Uses of tables.
ghost use Rattle.std.specs.Prelude.{◌≡◌, ◌≢◌, ◌*◌, ◌≤◌, ◌↔◌, Some, None, false, length, IsTrue, IfSome, IfNone};
ghost use Rattle.std.specs.Bool.{OnTrue, OnFalse};
ghost use Rattle.machine.specs.Table.{table_meaning, description_of};
ghost use Rattle.clients.specs.Tables.{IsOutside, IsWithin, NamesBeyond, IsATable};

use examples::flight;
use machine::{FillRefusal, Machine, Table, allows};

/// Replaces a table by what is described, if that is a table, and says whether it did. A refusal leaves the table as it was.
fn replaced(table: &mut Table, states: u8, cues: u8, next: &[u8], closing: u64) -> bool
    ensures yes_if_right { IsTrue result ↔ IsATable states cues next.now closing }
    ensures as_it_was_if_refused { OnFalse result (table.new ≡ table.old) }
{
    table.fill(states, cues, next, closing).is_ok()
}

/// Fills two tables with one description. Whatever each held before, they are the same table then; or both stay as they were.
fn filled_alike(
    one: &mut Table,
    other: &mut Table,
    states: u8,
    cues: u8,
    next: &[u8],
    closing: u64,
) -> bool
    ensures same_if_filled { OnTrue result (one.new ≡ other.new) }
    ensures one_as_it_was_if_refused { OnFalse result (one.new ≡ one.old) }
    ensures other_as_it_was_if_refused { OnFalse result (other.new ≡ other.old) }
{
    let first = one.fill(states, cues, next, closing);
    let second = other.fill(states, cues, next, closing);
    first.is_ok() && second.is_ok()
}

/// Fills a table, and makes another of the same description: the same table, or none, and the first stays as it was.
fn made_as_filled(
    table: &mut Table,
    states: u8,
    cues: u8,
    next: &[u8],
    closing: u64,
) -> Option<Table>
    ensures made_is_the_same { IfSome result (λ made. made ≡ table.new) }
    ensures as_it_was_if_refused { IfNone result (table.new ≡ table.old) }
{
    let filled = table.fill(states, cues, next, closing);
    let made = Table::filled(states, cues, next, closing);
    filled.ok()?;
    made.ok()
}

/// The first fault of a description, if it has one: the counts come before the length, and the length before the names.
fn first_fault(states: u8, cues: u8, next: &[u8], closing: u64) -> Option<FillRefusal>
    ensures states_come_first { IsOutside states 64 → result ≡ Some FillRefusal.StateCount }
    ensures then_cues { IsWithin states 64 → IsOutside cues 32 →
        result ≡ Some FillRefusal.CueCount }
    ensures then_the_length { IsWithin states 64 → IsWithin cues 32 →
        length next.now ≢ states * cues → result ≡ Some FillRefusal.Length }
    ensures then_the_names { IsWithin states 64 → IsWithin cues 32 →
        length next.now ≡ states * cues → NamesBeyond states next.now closing →
        result ≡ Some FillRefusal.NoSuchState }
    ensures none_if_right { IsWithin states 64 → IsWithin cues 32 →
        length next.now ≡ states * cues → ¬ (NamesBeyond states next.now closing) → result ≡ None }
{
    Table::filled(states, cues, next, closing).err()
}

/// How many next states a table has: one for each of its states and cues.
fn next_state_count(table: &Table) -> usize
    ensures one_for_each_state_and_cue { result
        ≡ (description_of table.now).states * (table_meaning table.now).steps.cues }
    ensures at_least_one { 1 ≤ result }
    ensures at_most_2048 { result ≤ 2048 }
{
    usize::from(table.states()) * usize::from(table.cues())
}

/// Whether a new table allows a show: it allows none.
fn new_allows(show: &[u8]) -> bool
    ensures { result ≡ false }
{
    allows(&Table::new(), show)
}

/// Whether a show may close at position 3 of the example of three states in which FLY comes only after LOAD. It is past
/// the last state, so no show may close there.
fn flight_closes_past_its_states() -> bool
    ensures { result ≡ false }
{
    flight().may_close(3)
}

/// Where a cue leads from position 3 of that example: nowhere else.
fn flight_leads_past_its_states(cue: u8) -> u64
    ensures { result ≡ 3 }
{
    flight().next(3, cue)
}
