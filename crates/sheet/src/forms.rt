//! The forms of names, words and counts.
ghost use Rattle.std.specs.Prelude.{◌≡◌, ◌-◌, ◌↔◌, IsTrue};
ghost use Rattle.sheet.specs.Fields.{NumeralForm, WorthOf};
ghost use Rattle.sheet.specs.Text.{NameForm, WordForm, IsCount};

const LONGEST_NAME: usize = 16;

// Whether a text has the form of a name.
pub(crate) fn is_name(text: &[u8]) -> bool
    ensures { IsTrue result ↔ NameForm text.now }
{
    (1..=LONGEST_NAME).contains(&text.len())
        && text.iter().all(|b| b.is_ascii_uppercase() || b.is_ascii_digit() || *b == b'-')
}

// Whether a text has the form of a word.
pub(crate) fn is_word(text: &[u8]) -> bool
    ensures { IsTrue result ↔ WordForm text.now }
{
    !text.is_empty() && text.iter().all(|b| b.is_ascii_lowercase() || *b == b'-')
}

// The number whose decimal text this is, where it has the form of a count.
#[tactic(auto, using(crate::proofs::Counts::is_count, crate::proofs::Counts::no_count))]
pub(crate) fn count(text: &[u8]) -> Option<u16>
    ensures { IsCount result text.now }
{
    if is_numeral(text) { value(text) } else { None }
}

// Whether a text has digits alone, and begins with 0 only where it is 0 alone.
fn is_numeral(text: &[u8]) -> bool
    ensures { IsTrue result ↔ NumeralForm text.now }
{
    text.iter().all(|b| b.is_ascii_digit()) && (text.len() == 1 || text.first() != Some(&b'0'))
}

// What digits are worth, where there are one to three.
fn value(digits: &[u8]) -> Option<u16>
    ensures { WorthOf result digits.now }
{
    match *digits {
        [a] => Some(digit(a)),
        [a, b] => Some(10 * digit(a) + digit(b)),
        [a, b, c] => Some(100 * digit(a) + 10 * digit(b) + digit(c)),
        _ => None,
    }
}

// What a digit is worth.
fn digit(b: u8) -> u16
    ensures { result ≡ b - 48 }
{
    u16::from(b.saturating_sub(b'0'))
}
