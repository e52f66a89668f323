//! Taking names.
ghost use Rattle.std.specs.Prelude.{◌≡◌, ◌<◌, [], ◌∷◌, ◌++◌, length};
ghost use Rattle.sheet.specs.Names.{fields_of};

use super::{Names, PLACES};
use crate::fields::Field;
use crate::stretches::Stretch;

impl<'a> Names<'a> {
    // No name.
    pub(crate) fn none() -> Names<'a>
        ensures { fields_of result ≡ [] }
    {
        Names {
            fields: [Field::Name(Stretch::nothing()); PLACES],
            count: 0,
        }
    }

    // Takes one name more, as the last.
    pub(crate) fn push(&mut self, name: Field<'a>)
        requires has_room { length (fields_of self.old) < 32 }
        ensures { fields_of self.new ≡ fields_of self.old ++ name.entry ∷ [] }
    {
        self.fields[usize::from(self.count)] = name;
        self.count += 1;
    }
}
