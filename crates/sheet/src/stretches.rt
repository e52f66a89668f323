//! Parts of a sheet, with their places.
ghost use Rattle.std.specs.Prelude.{◌≡◌, [], position, eqb};
ghost use Rattle.sheet.specs.Fields.{InSheet, CutAtFirst};

/// A part of a sheet with its place: the line in which it stands, from 1, and the byte at which it begins, from 0.
#[derive(Clone, Copy)]
pub struct Stretch<'a> {
    pub(crate) text: &'a [u8],
    pub(crate) line: u32,
    pub(crate) at: usize,
}

impl<'a> Stretch<'a> {
    // No part.
    pub(crate) fn nothing() -> Stretch<'a>
        ensures { (result.text.now ≡ []) × (result.line ≡ 0) × (result.at ≡ 0) }
    {
        Stretch {
            text: &[],
            line: 0,
            at: 0,
        }
    }

    // Cuts at the first byte of a kind, where there is one: what stands before it, and what stands behind.
    #[tactic(auto, using(crate::proofs::Cut::uncut))]
    pub(crate) fn cut(&self, byte: u8) -> Option<(Stretch<'a>, Stretch<'a>)>
        requires { InSheet self.now }
        ensures { CutAtFirst result byte self.now }
    {
        let end = first(byte, self.text)?;
        let before = Stretch {
            text: &self.text[..end],
            line: self.line,
            at: self.at,
        };
        let behind = Stretch {
            text: &self.text[end + 1..],
            line: self.line,
            at: self.at + end + 1,
        };
        Some((before, behind))
    }
}

// Where a byte of a kind stands first, where there is one.
fn first(byte: u8, text: &[u8]) -> Option<usize>
    ensures { result ≡ position (λ b. eqb b byte) text.now }
{
    text.iter().position(|b| *b == byte)
}
