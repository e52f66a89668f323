//! The trait of every machine, and what any machine says of a show.
ghost use Rattle.std.specs.Prelude.{◌≡◌, ◌↔◌, IsTrue};
ghost use Rattle.machine.specs.Meaning.{Meaning, Lawful, leads_to, allowed, Divides};

/// A machine (a deterministic automaton). It tells how many cues it has, at which position every show begins, to which
/// position a cue leads from any other, and at which positions a show may close.
///
/// A new kind of machine writes its meaning out in specs/ and shows its four calls equal to it. The calls never refuse,
/// and answer the same however often they are called.
pub trait Machine {
    /// What the machine means.
    ghost meaning: { Self → Meaning };

    /// How many cues (events) the machine has. A cue is a number below this count.
    fn cues(&self) -> u8
        ensures { result ≡ (meaning self.now).steps.cues };

    /// The position (state) where every show begins.
    fn start(&self) -> u64
        ensures { result ≡ (meaning self.now).steps.start };

    /// The position to which a cue leads from a position.
    fn next(&self, position: u64, cue: u8) -> u64
        ensures { result ≡ (meaning self.now).steps.next position cue };

    /// Whether a show may close at a position.
    fn may_close(&self, position: u64) -> bool
        ensures { result ≡ (meaning self.now).closes position };

    /// The cue count lies in 1 to 32, what is no cue leads nowhere else, and positions are below 2^64.
    ghost lawful: { (x : Self) → Lawful (meaning x).steps };
}

/// The position to which a show leads from the start.
pub fn leads_to<M: Machine>(machine: &M, show: &[u8]) -> u64
    ensures { result ≡ leads_to (M.meaning machine.now).steps show.now }
{
    show.iter().fold(
        machine.start(),
        |position, &cue| machine.next(position, cue),
    )
}

/// Whether the machine allows a show: it may close where the show leads.
pub fn allows<M: Machine>(machine: &M, show: &[u8]) -> bool
    ensures { result ≡ allowed (M.meaning machine.now) show.now }
{
    machine.may_close(leads_to(machine, show))
}

/// Whether a show divides (distinguishes) two machines: exactly one of them allows it.
pub fn divides<L: Machine, R: Machine>(left: &L, right: &R, show: &[u8]) -> bool
    ensures { IsTrue result ↔ Divides (L.meaning left.now) (R.meaning right.now) show.now }
{
    allows(left, show) != allows(right, show)
}
