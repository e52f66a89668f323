//! Reading line by line.
ghost use Rattle.std.specs.Prelude.{◌≡◌, ◌<◌, ◌≤◌, [], ◌∷◌, ◌++◌, length, MatchResult};
ghost use Rattle.book.specs.Draft.{draft_content};
ghost use Rattle.sheet.specs.Fault.{SectionDue, NameDue, RuleDue, EndDue};
ghost use Rattle.sheet.specs.Names.{fields_of, names_of};
ghost use Rattle.sheet.specs.Reader.{NextLine, ReadLine, ReadNames, ReadBook, TakesName, TakesRule, FaultAfter};
ghost use Rattle.sheet.specs.WholeSheet.{AtStart, Begun, ReadWhole};
ghost use Rattle.sheet.specs.Sheet.{section_line};

use super::Reader;
use crate::faults::{Fault, ReaderRefusal, Refusal};
use crate::lines::Line;
use crate::name_lines::name;
use crate::names::{MOST_NAMES, Names};
use crate::rule_lines::rule;
use crate::section_lines::section;
use crate::sheets::{MOST_BYTES, Sheet};
use crate::stretches::Stretch;
use book::Draft;

const LINE_END: u8 = b'\n';

const MOST_RULES: u8 = 16;

impl<'a> Reader<'a> {
    // Begins to read a sheet, if it is not too long.
    pub(crate) fn over(sheet: &'a [u8]) -> Result<Reader<'a>, Fault>
        ensures { Begun result sheet.now }
    {
        if sheet.len() > MOST_BYTES {
            return Err(Fault {
                refusal: Refusal::Reader(ReaderRefusal::TooLong),
                line: 0,
            });
        }
        Ok(Reader {
            sheet,
            at: 0,
            line: 1,
        })
    }

    // Reads all of a sheet.
    pub(crate) fn whole(mut self) -> Result<Sheet<'a>, Fault>
        requires at_start { AtStart self }
        ensures { ReadWhole result self.entry.sheet.now }
    {
        let names = self.names()?;
        let left = self.book(b"left", &names)?;
        let right = self.book(b"right", &names)?;
        self.end()?;
        Ok(Sheet { names, left, right })
    }

    // Reads the section of names.
    fn names(&mut self) -> Result<Names<'a>, Fault>
        ensures { ReadNames result self.old self.new }
    {
        let count = self.section(b"cues", 1, MOST_NAMES)?;
        let mut names = Names::none();
        while names.count() < count {
            self.name(&mut names)?;
        }
        Ok(names)
    }

    // Reads the section of a book over names.
    fn book(&mut self, word: &[u8], names: &Names<'a>) -> Result<Draft, Fault>
        requires has_a_name { 1 ≤ length (names_of names.now) }
        ensures { ReadBook result word.now (names_of names.now) self.old self.new }
    {
        let count = self.section(word, 0, MOST_RULES)?;
        let mut draft = Draft::begin(names.count());
        while draft.rules() < count {
            self.rule(names, &mut draft)?;
        }
        Ok(draft)
    }

    // Looks for bytes after the last line.
    fn end(&self) -> Result<(), Fault>
        ensures { MatchResult result (λ _. self.now.at ≡ length self.now.sheet.now)
            (λ f. FaultAfter [] EndDue self.now f) }
    {
        if self.at < self.sheet.len() {
            return Err(Fault {
                refusal: Refusal::Reader(ReaderRefusal::LeftOver),
                line: self.line,
            });
        }
        Ok(())
    }

    // Reads a section's line: its count, within limits.
    fn section(&mut self, word: &[u8], least: u8, most: u8) -> Result<u8, Fault>
        ensures { ReadLine result
            (λ n fs. (least ≤ n) × (n ≤ most) × (fs ≡ section_line word.now n))
            (SectionDue word.now least most) self.old self.new }
    {
        let line = self.line;
        section(self.line(), word, least, most).map_err(|refusal| Fault { refusal, line })
    }

    // Reads a name's line, and takes the name.
    fn name(&mut self, names: &mut Names<'a>) -> Result<(), Fault>
        requires has_room { length (fields_of names.old) < 32 }
        ensures { ReadLine result (λ _ fs. TakesName self.old names.old names.new fs)
            (NameDue (names_of names.old)) self.old self.new }
    {
        let line = self.line;
        name(self.line(), names).map_err(|refusal| Fault { refusal, line })
    }

    // Reads a rule's line, and takes the rule.
    fn rule(&mut self, names: &Names<'a>, draft: &mut Draft) -> Result<(), Fault>
        requires same_cues { (draft_content draft.old).cues ≡ length (names_of names.now) }
        ensures { ReadLine result (λ _ fs. TakesRule (names_of names.now) draft.old draft.new fs)
            (RuleDue (names_of names.now) (draft_content draft.old).rules) self.old self.new }
    {
        let line = self.line;
        rule(self.line(), names, draft).map_err(|refusal| Fault { refusal, line })
    }

    // The next line, where a whole one is left.
    fn line(&mut self) -> Option<Line<'a>>
        ensures { NextLine result self.old self.new }
    {
        let rest = Stretch {
            text: &self.sheet[self.at..],
            line: self.line,
            at: self.at,
        };
        let (line, behind) = rest.cut(LINE_END)?;
        self.at = behind.at;
        self.line += 1;
        Some(Line::of(line))
    }
}
