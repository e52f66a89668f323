//! Reading a section's line.
ghost use Rattle.std.specs.Prelude.{◌≡◌, ◌≤◌, ⊤, Some, MatchOption};
ghost use Rattle.sheet.specs.Fault.{IsSection};
ghost use Rattle.sheet.specs.Lines.{fields_in, ReadSection};
ghost use Rattle.sheet.specs.Sheet.{section_line};
ghost use Rattle.sheet.specs.Text.{most_count};

use crate::faults::{ReaderRefusal, Refusal};
use crate::fields::Field;
use crate::lines::Line;

// Reads the line of a section: its word, and its count, which lies within limits.
pub(crate) fn section(
    line: Option<Line<'_>>,
    word: &[u8],
    least: u8,
    most: u8,
) -> Result<u8, Refusal>
    ensures { ReadSection result word.now least most (fields_in line.entry) }
{
    let count = counted(line, word).ok_or(ReaderRefusal::NotInForm)?;
    match u8::try_from(count) {
        Ok(count) if (least..=most).contains(&count) => Ok(count),
        _ => Err(ReaderRefusal::SectionCountOutside.into()),
    }
}

// The count of a section, where the line is that of the section.
fn counted(line: Option<Line<'_>>, word: &[u8]) -> Option<u16>
    ensures { MatchOption result (IsSection word.now (λ n. ⊤) (fields_in line.entry) → ⊥)
        (λ n. (n ≤ most_count) × (fields_in line.entry ≡ Some (section_line word.now n))) }
{
    let mut line = line?;
    Field::this_word(line.field()?, word)?;
    let count = Field::number(line.field()?)?;
    match (count, line.field()) {
        (Field::Number(_, n), None) => Some(n),
        _ => None,
    }
}
