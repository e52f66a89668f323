//! Beginning, cueing and closing a show.
ghost use Rattle.std.specs.Prelude.{◌≡◌, Some};
ghost use Rattle.machine.specs.Watch.{standing, IsSpent, begun, cue_answer, after_cue, closed, cue_number, cue_words, WholeShow};
ghost use Rattle.std.proofs.Common.{rules};

use super::{Closed, CueRefusal, Slip, Watch};
use crate::machines::Machine;
use crate::numbers::Numbered;
use std::error::Error;
use std::fmt;

const LONGEST: u16 = 10_000;

impl Numbered for CueRefusal {
    ghost number = { cue_number };

    ghost told_apart = { Prim.search rules };

    fn number(self) -> u8 {
        self as u8
    }
}

impl fmt::Display for CueRefusal {
    ghost output = { λ e. Some (cue_words e) };

    ghost styled_output = { λ e spec. Some (cue_words e) };

    fn fmt<W: fmt::Write>(&self, f: &mut fmt::Formatter<W>) -> fmt::Result {
        f.write_str(match self {
            CueRefusal::NoSuchCue => "the number is not below the cue count",
            CueRefusal::ShowFull => "10,000 cues are taken",
        })
    }
}

impl Error for CueRefusal {}

impl<M: Machine> Watch<M> {
    /// Begins a show over a machine. The slip that comes with it is unspent.
    pub fn begin(machine: M) -> (Watch<M>, Slip)
        ensures at_the_start { standing result.0 ≡ begun M.Machine.meaning machine }
        ensures unspent { ¬ IsSpent result.1 }
        ensures stands_where_its_show_leads { WholeShow M.Machine.meaning machine }
    {
        let position = machine.start();
        let watch = Watch {
            machine,
            position,
            taken: 0,
        };
        (watch, Slip { spent: false })
    }

    /// Takes the next cue of the show. A refusal leaves the watch as it was.
    pub fn cue(&mut self, cue: u8) -> Result<(), CueRefusal>
        ensures answered_when_due { result ≡ cue_answer M.Machine.meaning (standing self.old) cue }
        ensures moves_if_taken { standing self.new
            ≡ after_cue M.Machine.meaning (standing self.old) cue }
    {
        if cue >= self.machine.cues() {
            return Err(CueRefusal::NoSuchCue);
        }
        if self.taken >= LONGEST {
            return Err(CueRefusal::ShowFull);
        }
        self.position = self.machine.next(self.position, cue);
        self.taken += 1;
        Ok(())
    }

    /// Closes the show: spends the slip and gives the machine back. Slips are alike, so any will do.
    pub fn close(self, slip: Slip) -> Closed<M>
        ensures { result ≡ closed M.Machine.meaning (standing self) }
    {
        slip.spend();
        let Watch {
            machine,
            position,
            taken,
        } = self;
        let allowed = machine.may_close(position);
        Closed {
            machine,
            taken,
            allowed,
        }
    }
}
