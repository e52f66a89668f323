//! Counting names, and looking them up.
ghost use Rattle.std.specs.Prelude.{◌≡◌, ◌≤◌, ◌↔◌, length, slice_get, IsTrue, Some, MatchOption};
ghost use Rattle.sheet.specs.Names.{fields_of, names_of, Named, CueOf, SameName};

use super::Names;
use crate::fields::Field;

impl<'a> Names<'a> {
    /// How many names there are.
    pub fn count(&self) -> u8
        ensures { result ≡ length (names_of self.now) }
    {
        self.count
    }

    /// The field in which the name of a cue stands, where there is such a cue.
    pub fn field(&self, cue: u8) -> Option<Field<'a>>
        ensures { MatchOption result (length (fields_of self.now) ≤ cue)
            (λ f. slice_get (fields_of self.now) cue ≡ Some f) }
    {
        if cue < self.count {
            Some(self.fields[usize::from(cue)])
        } else {
            None
        }
    }

    /// The name of a cue, where there is such a cue.
    pub fn name(&self, cue: u8) -> Option<&'a [u8]>
        ensures { MatchOption result (length (names_of self.now) ≤ cue)
            (λ x. slice_get (names_of self.now) cue ≡ Some x.now) }
    {
        Some(self.field(cue)?.text())
    }

    /// The first cue that has a name, where one has it. No two cues of a sheet that was read have one name.
    pub fn cue(&self, name: &[u8]) -> Option<u8>
        ensures { CueOf result (names_of self.now) name.now }
    {
        for cue in 0..self.count() {
            if self.is_named(cue, name) {
                return Some(cue);
            }
        }
        None
    }

    // Whether a cue has a name.
    fn is_named(&self, cue: u8, name: &[u8]) -> bool
        ensures { IsTrue result ↔ Named (names_of self.now) name.now cue }
    {
        match self.name(cue) {
            Some(own) => same_name(own, name),
            None => false,
        }
    }
}

// Whether two names are the same.
fn same_name(one: &[u8], other: &[u8]) -> bool
    ensures { IsTrue result ↔ SameName one.now other.now }
{
    one == other
}
