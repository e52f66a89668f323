//! The fields of a line.
ghost use Rattle.std.specs.Prelude.{◌≡◌};
ghost use Rattle.sheet.specs.declared.fields.Field.TheVariants.{Word, Name};
ghost use Rattle.sheet.specs.Fields.{ReadField, ReadNumber};
ghost use Rattle.sheet.specs.Names.{field_stretch, field_text, field_line, field_at};
ghost use Rattle.sheet.specs.Text.{WordForm, NameForm};

use crate::forms::{count, is_name, is_word};
use crate::stretches::Stretch;

/// A field of a line: what it was read as, with its part of the sheet.
#[derive(Clone, Copy)]
pub enum Field<'a> {
    /// A section's word, or a template's.
    Word(Stretch<'a>),
    /// A cue's name.
    Name(Stretch<'a>),
    /// A count, with the number that it is.
    Number(Stretch<'a>, u16),
}

impl<'a> Field<'a> {
    // Reads a part of a line as a word.
    pub(crate) fn word(text: Stretch<'a>) -> Option<Field<'a>>
        ensures { ReadField result (Word text.entry) (WordForm text.entry.text.now) }
    {
        is_word(text.text).then_some(Field::Word(text))
    }

    // Reads a part of a line as a word that is given.
    pub(crate) fn this_word(text: Stretch<'a>, word: &[u8]) -> Option<Field<'a>>
        ensures { ReadField result (Word text.entry) (text.entry.text.now ≡ word.now) }
    {
        (text.text == word).then_some(Field::Word(text))
    }

    // Reads a part of a line as a name.
    pub(crate) fn name(text: Stretch<'a>) -> Option<Field<'a>>
        ensures { ReadField result (Name text.entry) (NameForm text.entry.text.now) }
    {
        is_name(text.text).then_some(Field::Name(text))
    }

    // Reads a part of a line as a count.
    pub(crate) fn number(text: Stretch<'a>) -> Option<Field<'a>>
        ensures { ReadNumber result text.entry }
    {
        Some(Field::Number(text, count(text.text)?))
    }

    // The part of the sheet where the field stands.
    fn stretch(&self) -> Stretch<'a>
        ensures { result ≡ field_stretch self.now }
    {
        match *self {
            Field::Word(text) | Field::Name(text) | Field::Number(text, _) => text,
        }
    }

    /// The field's bytes.
    pub fn text(&self) -> &'a [u8]
        ensures { result.now ≡ field_text self.now }
    {
        self.stretch().text
    }

    /// The line in which the field stands, from 1.
    pub fn line(&self) -> u32
        ensures { result ≡ field_line self.now }
    {
        self.stretch().line
    }

    /// The byte of the sheet at which the field begins, from 0.
    pub fn at(&self) -> usize
        ensures { result ≡ field_at self.now }
    {
        self.stretch().at
    }
}
