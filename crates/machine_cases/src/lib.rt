//! Cases that are run against the crate `machine`, and a client of it that is proved from its contracts alone.

#![tactic(auto)]

ghost use Rattle.std.specs.Prelude.{◌≡◌};
ghost use Rattle.machine.specs.Table.{table_meaning};
ghost use Rattle.machine.specs.Watch.{closed_after, heard_by};

use machine::{Closed, Table, Watch};

/// Plays numbers as one show over a table, passing over those that are turned down, and closes it.
pub fn rehearse(table: Table, calls: &[u8]) -> Closed<Table>
    ensures { result ≡ closed_after table_meaning table (heard_by table_meaning table calls.now) }
{
    let (mut watch, slip) = Watch::begin(table);
    for cue in calls {
        let _ = watch.cue(*cue);
    }
    watch.close(slip)
}

#[cfg(test)]
mod printing;
#[cfg(test)]
mod tests;
