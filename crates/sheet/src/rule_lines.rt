//! Reading a rule's line.
ghost use Rattle.std.specs.Prelude.{◌≡◌, [], ◌∷◌, length, Some, MatchOption, MatchResult};
ghost use Rattle.rules.specs.Naming.{template_word};
ghost use Rattle.book.specs.Draft.{draft_content};
ghost use Rattle.sheet.specs.declared.faults.Refusal.TheVariants.{Reader};
ghost use Rattle.sheet.specs.Lines.{rest_of, fields_in, ReadTemplate, ReadArguments, ReadCues};
ghost use Rattle.sheet.specs.RuleLines.{ReadAsked, ReadRule};
ghost use Rattle.sheet.specs.Names.{field_text, names_of};

use crate::faults::{ReaderRefusal, Refusal};
use crate::fields::Field;
use crate::lines::Line;
use crate::names::Names;
use crate::words::template_of;
use book::Draft;
use machine::Numbered;
use rules::{Arguments, Template};

// What a rule's line asks to add: a template, cues A and B, and a count. What the template lacks is 0. A count above 255 is told as
// 255, which is as much out of its range.
struct Asked {
    template: Template,
    a: u8,
    b: u8,
    n: u8,
}

// Reads a rule's line, and puts the rule last in a draft.
#[tactic(auto, using(crate::proofs::RuleLine::turned_down))]
pub(crate) fn rule(
    line: Option<Line<'_>>,
    names: &Names<'_>,
    draft: &mut Draft,
) -> Result<(), Refusal>
    requires same_cues { (draft_content draft.old).cues ≡ length (names_of names.now) }
    ensures { ReadRule result (names_of names.now) (fields_in line.entry) draft.old draft.new }
{
    let Asked { template, a, b, n } = asked_by(line, names)?;
    Ok(draft.add(template.number(), a, b, n)?)
}

// Reads what a rule's line asks to add.
#[tactic(auto, using(crate::proofs::RuleLine::is_asked))]
fn asked_by(line: Option<Line<'_>>, names: &Names<'_>) -> Result<Asked, ReaderRefusal>
    ensures { ReadAsked result (names_of names.now) (fields_in line.entry) }
{
    let mut line = line.ok_or(ReaderRefusal::NotInForm)?;
    let template = template(&mut line)?;
    let (first, second) = arguments(template.arguments(), line).ok_or(ReaderRefusal::NotInForm)?;
    let (a, b, n) = cues(names, first, second).ok_or(ReaderRefusal::NoSuchName)?;
    Ok(Asked { template, a, b, n })
}

// Reads the first field of a line as the word of a template.
fn template(line: &mut Line<'_>) -> Result<Template, ReaderRefusal>
    ensures { ReadTemplate result (rest_of line.old) (rest_of line.new) }
{
    let word = line
        .field()
        .and_then(Field::word)
        .ok_or(ReaderRefusal::NotInForm)?;
    template_of(word.text()).ok_or(ReaderRefusal::NoSuchWord)
}

// Reads what is left of a line as the arguments that a template takes: a name, and what follows it.
fn arguments<'a>(taken: Arguments, mut line: Line<'a>) -> Option<(Field<'a>, Option<Field<'a>>)>
    ensures { ReadArguments result taken (rest_of line.entry) }
{
    let first = Field::name(line.field()?)?;
    let second = line.field();
    if line.field().is_some() {
        return None;
    }
    match (taken, second) {
        (Arguments::CueAndCount, Some(text)) => Some((first, Some(Field::number(text)?))),
        (Arguments::OneCue, None) => Some((first, None)),
        (Arguments::TwoCues, Some(text)) => Some((first, Some(Field::name(text)?))),
        _ => None,
    }
}

// Looks up the names of a rule's arguments: its cues A and B, and its count.
fn cues(names: &Names<'_>, first: Field<'_>, second: Option<Field<'_>>) -> Option<(u8, u8, u8)>
    ensures { ReadCues result (names_of names.now) first.entry second.entry }
{
    let a = names.cue(first.text())?;
    match second {
        Some(Field::Name(text)) => Some((a, names.cue(text.text)?, 0)),
        Some(Field::Number(_, n)) => Some((a, 0, u8::try_from(n).unwrap_or(u8::MAX))),
        _ => Some((a, 0, 0)),
    }
}
