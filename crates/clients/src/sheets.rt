//! Uses of sheets.
ghost use Rattle.std.specs.Prelude.{◌≡◌, ◌+◌, ◌<◌, ◌⊎◌, ◌↔◌, length, IsTrue, IsOk, IfOk, IsSome, IfSome, Some};
ghost use Rattle.book.specs.Draft.{draft_number};
ghost use Rattle.sheet.specs.Names.{field_at, field_line, field_text};
ghost use Rattle.sheet.specs.Text.{NameForm};
ghost use Rattle.clients.specs.Sheets.{one_cue_text, IsLaidOut, IsOneCue, HasNameAt, NamesCue, IsRefusedByADraft};

use machine::Numbered;
use sheet::{Fault, Field, ReaderRefusal, Refusal, Sheet, none_is_longer, only_two_of_a_draft};
use std::alloc::{AllocError, Global};

/// Lays out a sheet of one cue and of two books without rules, and reads it back: it is a sheet where the name is in form.
fn one_cue_is_read(alloc: Global, name: &str) -> Result<bool, AllocError>
    ensures { NameForm name.now → IfOk result IsTrue }
{
    let text = format!(in alloc; "cues 1\n{name}\nleft 0\nright 0\n")?;
    Ok(Sheet::read(text.as_bytes()).is_ok())
}

/// Reads a sheet. Where it is laid out as that of one cue, it is just that; and where it is just that, it was laid out so.
fn read_as_laid_out(sheet: &[u8]) -> Result<Sheet<'_>, Fault>
    ensures one_cue_is_accepted { (x : _) → IsLaidOut sheet.now x → IsOk result }
    ensures one_cue_is_read { (x : _) → IsLaidOut sheet.now x → IfOk result (IsOneCue x) }
    ensures was_laid_out_so { IfOk result (λ r. (x : _) →
        IsOneCue x r → sheet.now ≡ one_cue_text x) }
{
    Sheet::read(sheet)
}

/// Whether a sheet that is accepted fits a page of 2,329 bytes. It always does.
fn fits_a_page(sheet: &[u8]) -> bool
    ensures { IsTrue result }
{
    none_is_longer();
    match Sheet::read(sheet) {
        Ok(_) => sheet.len() <= 2329,
        Err(_) => true,
    }
}

/// The field in which the name of a cue stands, in its line and at its byte. A sheet that is accepted has one for each of its cues.
fn name_field(sheet: &[u8], cue: u8) -> Option<Field<'_>>
    ensures stands_in_its_line { IfSome result (λ f. field_line f ≡ cue + 2) }
    ensures stands_at_its_byte { IfSome result (λ f.
        HasNameAt sheet.now (field_at f) (field_text f)) }
    ensures there_is_one_for_each_cue { IsSome result ↔ NamesCue sheet.now cue }
{
    match Sheet::read(sheet) {
        Ok(sheet) => sheet.names.field(cue),
        Err(_) => None,
    }
}

/// Whether a sheet is told to be too long.
fn is_told_too_long(sheet: &[u8]) -> bool
    ensures { IsTrue result ↔ (16384 < length sheet.now) }
{
    match Sheet::read(sheet) {
        Err(fault) => fault.refusal == Refusal::Reader(ReaderRefusal::TooLong),
        Ok(_) => false,
    }
}

/// The number and the line of the fault of a sheet without bytes.
fn fault_of_nothing() -> Option<(u8, u32)>
    ensures { result ≡ Some (2, 1) }
{
    let fault = Sheet::read(&[]).err()?;
    Some((fault.refusal.number(), fault.line))
}

/// The number of the fault, where a draft turns a sheet down.
fn number_by_a_draft(sheet: &[u8]) -> Option<u8>
    ensures ten_or_eleven { IfSome result (λ n. (n ≡ 10) ⊎ (n ≡ 11)) }
    ensures told_if_a_draft_refuses { (e : _) → IsRefusedByADraft sheet.now e →
        result ≡ Some (draft_number e) }
{
    only_two_of_a_draft();
    match Sheet::read(sheet) {
        Ok(_) => None,
        Err(fault) => match fault.refusal {
            Refusal::Draft(refusal) => Some(refusal.number()),
            Refusal::Reader(_) => None,
        },
    }
}
