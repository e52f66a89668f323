//! How tables and shows are printed.
ghost use Rattle.std.specs.Prelude.{Some};
ghost use Rattle.two_tables.specs.Printing.{state_line, show_line};

use examples::name;
use machine::{Machine, Table};
use std::fmt;

// A state of a table: whether a show may close there, and where each cue leads.
#[derive(Clone, Copy)]
pub(crate) struct StateLine<'a> {
    pub(crate) table: &'a Table,
    pub(crate) state: u8,
}

impl fmt::Display for StateLine<'_> {
    ghost output = { λ line. Some (state_line line) };

    fn fmt<W: fmt::Write>(&self, f: &mut fmt::Formatter<W>) -> fmt::Result {
        let state = self.state;
        let position = u64::from(state);
        let may = if self.table.may_close(position) {
            ", may close"
        } else {
            ""
        };
        write!(f, "{state}{may}:")?;
        for cue in 0..self.table.cues() {
            let cue_name = name(cue);
            let next = self.table.next(position, cue);
            write!(f, " {cue_name} {next}")?;
        }
        Ok(())
    }
}

// A show: its length, and the names of its cues.
#[derive(Clone, Copy)]
pub(crate) struct ShowLine<'a> {
    pub(crate) show: &'a [u8],
}

impl fmt::Display for ShowLine<'_> {
    ghost output = { λ line. Some (show_line line) };

    fn fmt<W: fmt::Write>(&self, f: &mut fmt::Formatter<W>) -> fmt::Result {
        let length = self.show.len();
        write!(f, "{length}")?;
        for cue in self.show {
            let cue_name = name(*cue);
            write!(f, " {cue_name}")?;
        }
        Ok(())
    }
}
