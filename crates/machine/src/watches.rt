//! The types of watches and slips. Beginning, cueing and closing a show are in the modules below.
ghost use Rattle.std.specs.Prelude.{◌^◌, ◌<◌, ◌≤◌};

mod machine;
mod showing;

/// A watch (a runtime monitor) over a machine: a running show, its position, and the number of cues taken.
#[derive(Drop)]
pub struct Watch<M> {
    machine: M,
    position: u64,
    taken: u16,
    ghost within: { position < 2 ^ 64 },
    ghost short: { taken ≤ 10000 },
}

impl<M> Watch<M> {
    ghost use Rattle.std.specs.Prelude.{◌≡◌};
    ghost use Rattle.machine.specs.Watch.{standing};

    /// How many cues the show has taken.
    pub fn taken(&self) -> u16
        ensures { result ≡ (standing self.now).taken }
    {
        self.taken
    }
}

/// A slip (a linear token): it comes unspent with each begun show, and `close` alone takes it back and spends it.
pub struct Slip {
    spent: bool,
}

impl Drop for Slip {
    ghost use Rattle.machine.specs.Watch.{IsSpent};

    // No slip is let go unspent, and nobody but `close` spends one.
    fn drop(self)
        requires { IsSpent self }
    {
        let Slip { spent: _ } = self;
    }
}

impl Slip {
    // Spends the slip, and lets it go.
    fn spend(mut self) {
        self.spent = true;
    }
}

/// Why a cue is turned down. A refusal's published number is that of its case.
#[derive(Clone, Copy, Debug, PartialEq, Eq, Hash)]
pub enum CueRefusal {
    /// The number is not below the cue count.
    NoSuchCue = 21,
    /// 10,000 cues are taken.
    ShowFull = 22,
}

/// A closed show.
#[derive(Drop)]
pub struct Closed<M> {
    /// The machine as it was given.
    pub machine: M,
    /// How many cues the show took.
    pub taken: u16,
    /// Whether the machine allows the show.
    pub allowed: bool,
}
