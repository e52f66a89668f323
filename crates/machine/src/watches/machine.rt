//! A running watch answers as a machine.
ghost use Rattle.machine.specs.Watch.{watch_meaning};
ghost use Rattle.std.proofs.Common.{rules};

use super::Watch;
use crate::machines::Machine;

impl<M: Machine> Machine for Watch<M> {
    ghost meaning = { watch_meaning M.Machine.meaning };

    ghost lawful = { Prim.search rules };

    fn cues(&self) -> u8 {
        self.machine.cues()
    }

    fn start(&self) -> u64 {
        self.position
    }

    fn next(&self, position: u64, cue: u8) -> u64 {
        self.machine.next(position, cue)
    }

    fn may_close(&self, position: u64) -> bool {
        self.machine.may_close(position)
    }
}
