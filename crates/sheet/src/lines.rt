//! Lines, read field by field.
ghost use Rattle.std.specs.Prelude.{◌≡◌, Some};
ghost use Rattle.sheet.specs.Fields.{InSheet, RestInSheet};

use crate::stretches::Stretch;

const SPACE: u8 = b' ';

/// What is left of a line: its fields stand between single spaces.
#[derive(Clone, Copy)]
pub(crate) struct Line<'a> {
    rest: Option<Stretch<'a>>,
    ghost inside: { RestInSheet rest },
}

impl<'a> Line<'a> {
    ghost use Rattle.sheet.specs.Lines.{NextField};

    // A whole line.
    pub(crate) fn of(text: Stretch<'a>) -> Line<'a>
        requires { InSheet text }
        ensures { result.rest ≡ Some text.entry }
    {
        Line { rest: Some(text) }
    }

    // The next field, where one is left.
    pub(crate) fn field(&mut self) -> Option<Stretch<'a>>
        ensures { NextField result self.old self.new }
    {
        let rest = self.rest?;
        match rest.cut(SPACE) {
            Some((field, behind)) => {
                self.rest = Some(behind);
                Some(field)
            }
            None => {
                self.rest = None;
                Some(rest)
            }
        }
    }
}
