//! The type of a reader. What it reads is in the module below.
ghost use Rattle.std.specs.Prelude.{◌+◌, ◌≤◌, length};

mod reading;

/// A sheet that is being read, and how far: up to a byte, at which the line of this number begins or the sheet ends.
#[derive(Drop)]
pub(crate) struct Reader<'a> {
    sheet: &'a [u8],
    at: usize,
    line: u32,
    ghost inside: { at ≤ length sheet.now },
    ghost short: { length sheet.now ≤ 16384 },
    ghost early: { line ≤ at + 1 },
}
