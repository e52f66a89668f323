//! A table answers as a machine.
ghost use Rattle.machine.specs.Table.{table_meaning};
ghost use Rattle.std.proofs.Common.{rules};

use super::Table;
use crate::machines::Machine;

impl Machine for Table {
    ghost meaning = { table_meaning };

    ghost lawful = { Prim.search rules };

    fn cues(&self) -> u8 {
        self.cues
    }

    fn start(&self) -> u64 {
        0
    }

    fn next(&self, position: u64, cue: u8) -> u64 {
        if position >= u64::from(self.states) || cue >= self.cues {
            return position;
        }
        u64::from(self.next[position as usize * usize::from(self.cues) + usize::from(cue)])
    }

    fn may_close(&self, position: u64) -> bool {
        position < u64::from(self.states) && (self.closing >> position) % 2 == 1
    }
}
