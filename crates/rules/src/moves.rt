//! The states of the templates without a count, as constants, and reading them.
ghost use Rattle.std.specs.Prelude.{◌≡◌, ◌≤◌, slice_index};
ghost use Rattle.rules.specs.Naming.{template_number};
ghost use Rattle.rules.specs.States.{row, slot, tabled, table_closes};

use crate::letters::Letter;
use crate::templates::Template;
use machine::Numbered;

// Where the letters lead, in a row for each template from 4 to 21: the next state by A, by B and by other, for each of four
// states. What is no state of a template leads to itself.
const MOVES: [u8; 216] = [
    1, 2, 2, 1, 1, 1, 2, 2, 2, 3, 3, 3, // init
    0, 1, 1, 0, 1, 1, 2, 2, 2, 3, 3, 3, // last
    1, 2, 0, 1, 2, 1, 2, 2, 2, 3, 3, 3, // responded-existence
    1, 2, 0, 1, 3, 1, 3, 2, 2, 3, 3, 3, // co-existence
    1, 0, 0, 1, 0, 1, 2, 2, 2, 3, 3, 3, // response
    1, 2, 0, 1, 1, 1, 2, 2, 2, 3, 3, 3, // precedence
    1, 2, 0, 1, 3, 1, 2, 2, 2, 1, 3, 3, // succession
    1, 0, 0, 2, 0, 1, 2, 2, 2, 3, 3, 3, // alternate-response
    1, 2, 0, 1, 0, 1, 2, 2, 2, 3, 3, 3, // alternate-precedence
    1, 2, 0, 2, 0, 1, 2, 2, 2, 3, 3, 3, // alternate-succession
    1, 0, 0, 2, 0, 2, 2, 2, 2, 3, 3, 3, // chain-response
    1, 2, 0, 1, 0, 0, 2, 2, 2, 3, 3, 3, // chain-precedence
    1, 2, 0, 2, 0, 2, 2, 2, 2, 3, 3, 3, // chain-succession
    1, 2, 0, 1, 3, 1, 3, 2, 2, 3, 3, 3, // not-co-existence
    1, 0, 0, 1, 2, 1, 2, 2, 2, 3, 3, 3, // not-succession
    1, 0, 0, 1, 2, 0, 2, 2, 2, 3, 3, 3, // not-chain-succession
    1, 1, 0, 1, 1, 1, 2, 2, 2, 3, 3, 3, // choice
    1, 2, 0, 1, 3, 1, 3, 2, 2, 3, 3, 3, // exclusive-choice
];

// Where a show may close, beside the moves: for each of the 18 templates and 4 states.
const CLOSING: [bool; 72] = [
    true, true, false, false, // init
    true, false, false, false, // last
    true, false, true, false, // responded-existence
    true, false, false, true, // co-existence
    true, false, false, false, // response
    true, true, false, false, // precedence
    true, false, false, true, // succession
    true, false, false, false, // alternate-response
    true, true, false, false, // alternate-precedence
    true, false, false, false, // alternate-succession
    true, false, false, false, // chain-response
    true, true, false, false, // chain-precedence
    true, false, false, false, // chain-succession
    true, true, true, false, // not-co-existence
    true, true, false, false, // not-succession
    true, true, false, false, // not-chain-succession
    false, true, false, false, // choice
    false, true, true, false, // exclusive-choice
];

// How many states each of the 18 templates has.
const STATES: [u8; 18] = [
    3, // init
    2, // last
    3, // responded-existence
    4, // co-existence
    2, // response
    3, // precedence
    4, // succession
    3, // alternate-response
    3, // alternate-precedence
    3, // alternate-succession
    3, // chain-response
    3, // chain-precedence
    3, // chain-succession
    4, // not-co-existence
    3, // not-succession
    3, // not-chain-succession
    2, // choice
    4, // exclusive-choice
];

// Each template has a slot for each of 4 states, and in the moves each slot has an entry for each of 3 letters.
const SLOTS: u8 = 4;

const LETTERS: usize = 3;

// The row of a template.
fn row(template: Template) -> usize
    requires { 4 ≤ template_number template }
    ensures { result ≡ row template }
{
    usize::from(template.number() - 4)
}

// The slot of a state of a template.
fn slot(template: Template, state: u8) -> usize
    requires { 4 ≤ template_number template }
    ensures { result ≡ slot (row template) state }
{
    row(template) * usize::from(SLOTS) + usize::from(state)
}

/// How many states the template has.
pub(crate) fn states(template: Template) -> u8
    requires { 4 ≤ template_number template }
    ensures { result ≡ slice_index STATES (row template) }
{
    STATES[row(template)]
}

/// The next state.
pub(crate) fn step(template: Template, state: u8, letter: Letter) -> u8
    requires { 4 ≤ template_number template }
    ensures { result ≡ tabled (row template) state letter }
{
    if state >= SLOTS {
        return state;
    }
    MOVES[slot(template, state) * LETTERS + letter as usize]
}

/// Whether a show may close at the state.
pub(crate) fn closes(template: Template, state: u8) -> bool
    requires { 4 ≤ template_number template }
    ensures { result ≡ table_closes (row template) state }
{
    state < SLOTS && CLOSING[slot(template, state)]
}
