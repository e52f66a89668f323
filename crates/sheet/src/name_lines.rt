//! Reading a name's line.
ghost use Rattle.std.specs.Prelude.{◌<◌, length};
ghost use Rattle.sheet.specs.Lines.{FindsOnlyName, ReadName};
ghost use Rattle.sheet.specs.Names.{fields_of};

use crate::faults::{ReaderRefusal, Refusal};
use crate::fields::Field;
use crate::lines::Line;
use crate::names::Names;

// Reads a name's line, and takes the name.
pub(crate) fn name<'a>(line: Option<Line<'a>>, names: &mut Names<'a>) -> Result<(), Refusal>
    requires has_room { length (fields_of names.old) < 32 }
    ensures { ReadName result line.entry names.old names.new }
{
    let name = only_name(line).ok_or(ReaderRefusal::NotInForm)?;
    match names.cue(name.text()) {
        Some(_) => Err(ReaderRefusal::NameTwice.into()),
        None => {
            names.push(name);
            Ok(())
        }
    }
}

// The name of a line that has nothing else.
fn only_name(line: Option<Line<'_>>) -> Option<Field<'_>>
    ensures { FindsOnlyName result line.entry }
{
    let mut line = line?;
    let name = Field::name(line.field()?)?;
    match line.field() {
        None => Some(name),
        Some(_) => None,
    }
}
