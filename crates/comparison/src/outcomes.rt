//! The types of outcomes: what a comparison finds, and what comes of a sheet.
ghost use Rattle.std.specs.Prelude.{◌≡◌};

use crate::reports::Report;
use bench::LIMIT;
use sheet::Fault;
use std::marker::Model;

// Room for the longest show that a bench finds.
pub(crate) const ROOM: usize = LIMIT as usize;

/// A show that was found (a distinguishing trace). What `compared` finds is the first, in show order, that divides the books.
#[derive(Drop)]
pub struct FoundShow {
    cues: [u8; ROOM],
    length: usize,
}

// Clauses see the show.
impl Model for FoundShow {
    ghost use Rattle.std.specs.Prelude.{◌≤◌, take};
    ghost use Rattle.machine.specs.Show.{Show};
    ghost use Rattle.bench.specs.declared.cells.TheConstants.{LIMIT};

    ghost Value = { Show };

    ghost view = { λ found. take found.length found.cues };

    ghost invariant = { λ found. found.length ≤ LIMIT };
}

impl FoundShow {
    ghost use Rattle.std.specs.Prelude.{◌≤◌, take};

    // The show of so many cues at the front of a buffer.
    pub(crate) fn new(cues: [u8; ROOM], length: usize) -> FoundShow
        requires { length ≤ LIMIT }
        ensures { result ≡ take length cues }
    {
        FoundShow { cues, length }
    }

    /// The show, cue by cue.
    pub fn cues(&self) -> &[u8]
        ensures { result.now ≡ self.now }
    {
        &self.cues[..self.length]
    }
}

/// What comparing two books finds (the result of the product-automaton search).
#[derive(Drop)]
pub enum Finding {
    /// No show divides the books, and a bench can record all their joint positions.
    Equal,
    /// The left book allows this show, and the right one does not.
    Left(FoundShow),
    /// The right book allows this show, and the left one does not.
    Right(FoundShow),
    /// There are more joint positions than a bench can record, and none of those recorded divides the books.
    Full,
}

/// The outcome of a sheet (the result of the whole comparison).
#[derive(Drop)]
pub enum Outcome<'a> {
    /// The sheet is turned down.
    Refused(Fault),
    /// Its two books are compared.
    Compared(Report<'a>),
}
