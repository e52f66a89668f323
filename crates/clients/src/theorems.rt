//! Theorems that clients take from what is promised of every machine, and not from a call.
ghost use Rattle.std.specs.Prelude.{◌<◌, ◌^◌};
ghost use Rattle.machine.specs.Show.{Show};
ghost use Rattle.machine.specs.Meaning.{leads_to};

use machine::Machine;

/// Wherever a show leads, of cues or of any other numbers, the position fits into 64 bits. That is so of what a machine means,
/// whether or not anybody asks it.
fn positions_fit<M: Machine>()
    ensures { (x : M) (s : Show) → leads_to (M.Machine.meaning x).steps s < 2 ^ 64 }
{}
