//! A machine that counts.
ghost use Rattle.bench_cases.specs.Counter.{counter_meaning};
ghost use Rattle.std.proofs.Common.{rules};

use machine::Machine;

/// A counter: its one cue counts up to the largest position, and a show may close at one count alone.
#[derive(Drop)]
pub struct Counter {
    /// The count at which a show may close.
    pub closing: u64,
}

impl Machine for Counter {
    ghost meaning = { counter_meaning };

    ghost lawful = { Prim.search rules };

    fn cues(&self) -> u8 {
        1
    }

    fn start(&self) -> u64 {
        0
    }

    fn next(&self, position: u64, cue: u8) -> u64 {
        if cue >= 1 || position == u64::MAX {
            return position;
        }
        position + 1
    }

    fn may_close(&self, position: u64) -> bool {
        position == self.closing
    }
}
