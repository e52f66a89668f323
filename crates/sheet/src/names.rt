//! The type of cue names. Its calls are in the modules below.
ghost use Rattle.std.specs.Prelude.{◌≡◌, ◌≤◌, length};

use crate::fields::Field;

mod finding;
mod taking;

pub(crate) const MOST_NAMES: u8 = 32;

const PLACES: usize = MOST_NAMES as usize;

/// The names of a sheet's cues, in order: the name of cue 0 stands first.
#[derive(Drop)]
pub struct Names<'a> {
    fields: [Field<'a>; PLACES],
    count: u8,
    ghost places: { length fields ≡ 32 },
    ghost few: { count ≤ 32 },
}
