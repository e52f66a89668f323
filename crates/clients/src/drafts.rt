//! Uses of drafts and books.
ghost use Rattle.std.specs.Prelude.{◌≡◌, ◌↔◌, IsTrue, IsErr, IsErrOf, OnOk, OnErr};
ghost use Rattle.book.specs.declared.drafts.DraftRefusal.TheVariants.{NoSuchTemplate, NoSuchRule, Full};
ghost use Rattle.clients.specs.Books.{IsFull, WithCount, OthersStay, OfItsCues, IsAllowed, NoneTellsApart, StaysKept, StaysBroken, MayComeNext, RuleHolds};

use book::{
    Book, Draft, DraftRefusal, Value, books_allow_just_what_holds, example_cases, one_reading,
    positions_apart_just_by_rules, second_a_not_relevant, whole_in_content,
};
use machine::{Machine, Numbered, leads_to};
use rules::{Rule, Template};

/// Strikes the rule past a draft's last. There is none, and the draft stays as it was.
fn strike_past_the_last(draft: &mut Draft) -> Result<(), DraftRefusal>
    ensures there_is_no_such_rule { IsErrOf result NoSuchRule }
    ensures as_it_was { draft.new ≡ draft.old }
{
    draft.strike(draft.rules())
}

/// Retunes the rule past a draft's last. There is none, and the draft stays as it was.
fn retune_past_the_last(draft: &mut Draft, n: u8) -> Result<(), DraftRefusal>
    ensures there_is_no_such_rule { IsErrOf result NoSuchRule }
    ensures as_it_was { draft.new ≡ draft.old }
{
    draft.retune(draft.rules(), n)
}

/// Gives a rule the count 0. No rule takes it, and the draft stays as it was.
fn retune_to_none(draft: &mut Draft, i: u8) -> Result<(), DraftRefusal>
    ensures no_rule_takes_it { IsErr result }
    ensures as_it_was { draft.new ≡ draft.old }
{
    draft.retune(i, 0)
}

/// Adds a rule of template 22. There is none, and the draft stays as it was.
fn add_of_no_template(draft: &mut Draft, a: u8, b: u8, n: u8) -> Result<(), DraftRefusal>
    ensures there_is_no_such_template { IsErrOf result NoSuchTemplate }
    ensures as_it_was { draft.new ≡ draft.old }
{
    draft.add(22, a, b, n)
}

/// Adds that a show begins with its first cue. For this rule only room can be wanting.
fn add_first_cue(draft: &mut Draft) -> Result<(), DraftRefusal>
    ensures only_room_can_be_wanting { OnErr result (IsErrOf result Full × IsFull draft.old) }
    ensures as_it_was { OnErr result (draft.new ≡ draft.old) }
{
    draft.add(Template::Init.number(), 0, 0, 0)
}

/// Adds a rule, and strikes it again. The draft is as it was, whether the rule was taken or not.
fn add_and_strike(draft: &mut Draft, template: u8, a: u8, b: u8, n: u8) -> Result<(), DraftRefusal>
    ensures { draft.new ≡ draft.old }
{
    whole_in_content();
    draft.add(template, a, b, n)?;
    draft.strike(draft.rules() - 1)
}

/// Gives one rule another count. Its template and its cue stay, and so do all other rules; a refusal leaves the draft as it was.
fn retune_one(draft: &mut Draft, i: u8, n: u8) -> Result<(), DraftRefusal>
    ensures has_the_count { OnOk result (WithCount draft.old draft.new i n) }
    ensures others_stay { OnOk result (OthersStay draft.old draft.new i) }
    ensures as_it_was { OnErr result (draft.new ≡ draft.old) }
{
    draft.retune(i, n)
}

/// Seals a draft and reopens the book. It is the draft that it was.
fn sealed_and_reopened(draft: Draft) -> Draft
    ensures { result ≡ draft }
{
    whole_in_content();
    draft.seal().reopen()
}

/// Reopens a book and seals the draft. It is the book that it was.
fn reopened_and_sealed(book: Book) -> Book
    ensures { result ≡ book }
{
    whole_in_content();
    book.reopen().seal()
}

/// Whether a book allows a show, by asking its rules one by one and not by its positions.
fn all_rules_hold(book: &Book, show: &[u8]) -> bool
    ensures { OfItsCues book.now show.now → IsTrue result ↔ IsAllowed book.now show.now }
{
    books_allow_just_what_holds();
    for i in 0..book.rules() {
        if !rule_holds(book, i, show) {
            return false;
        }
    }
    true
}

// Whether the rule of a number, if there is one, holds of a show.
fn rule_holds(book: &Book, i: u8, show: &[u8]) -> bool
    ensures { IsTrue result ↔ RuleHolds book.now i show.now }
{
    match book.rule(i) {
        Some(rule) => rule.holds(show),
        None => true,
    }
}

/// Whether two shows lead a book to one position: just then nothing behind both makes one of its rules tell them apart.
fn lead_to_one_position(book: &Book, s: &[u8], t: &[u8]) -> bool
    ensures { OfItsCues book.now s.now → OfItsCues book.now t.now
        → IsTrue result ↔ NoneTellsApart book.now s.now t.now }
{
    positions_apart_just_by_rules();
    leads_to(book, s) == leads_to(book, t)
}

/// Whether a rule holds of a show and of every show that begins with it.
fn stays_kept(book: &Book, show: &[u8], i: u8) -> bool
    ensures { OfItsCues book.now show.now → IsTrue result ↔ StaysKept book.now show.now i }
{
    match book.reading(leads_to(book, show), i) {
        Ok((value, _)) => value == Value::HoldsAlways,
        Err(_) => false,
    }
}

/// Whether a rule fails of a show and of every show that begins with it.
fn stays_broken(book: &Book, show: &[u8], i: u8) -> bool
    ensures { OfItsCues book.now show.now → IsTrue result ↔ StaysBroken book.now show.now i }
{
    match book.reading(leads_to(book, show), i) {
        Ok((value, _)) => value == Value::FailsAlways,
        Err(_) => false,
    }
}

/// Whether a rule lets a cue come next: whether it is not broken for good by it.
fn may_come_next(book: &Book, show: &[u8], i: u8, cue: u8) -> bool
    ensures { OfItsCues book.now show.now → IsTrue result ↔ MayComeNext book.now show.now i cue }
{
    match book.reading(leads_to(book, show), i) {
        Ok((_, permitted)) => cue < 32 && (permitted >> cue) % 2 == 1,
        Err(_) => false,
    }
}

/// One more A while a response waits for its B changes nothing that is read of it.
fn another_a_is_idle(book: &Book, show: &[u8], i: u8) -> bool
    ensures { OfItsCues book.now show.now → IsTrue result }
{
    second_a_not_relevant();
    let Some(rule) = book.rule(i) else {
        return true;
    };
    if rule.template() != Template::Response || rule.holds(show) {
        return true;
    }
    match book.relevance(leads_to(book, show), i, rule.a()) {
        Ok(relevant) => !relevant,
        Err(_) => true,
    }
}

/// A cue is relevant exactly when the reading after it is another.
fn relevance_is_told_by_readings(draft: Draft, position: u64, i: u8, cue: u8) -> bool
    ensures { IsTrue result }
{
    one_reading();
    let book = draft.seal();
    let now = book.reading(position, i);
    let then = book.reading(book.next(position, cue), i);
    match (book.relevance(position, i, cue), now, then) {
        (Ok(relevant), Ok(now), Ok(then)) => relevant != are_same(now, then),
        _ => true,
    }
}

// Whether two readings are the same.
fn are_same(now: (Value, u32), then: (Value, u32)) -> bool
    ensures { IsTrue result ↔ (now.0 ≡ then.0) × (now.1 ≡ then.1) }
{
    now == then
}

/// The four bits of a position past those of a sixteenth rule that is not there stay as they are.
fn spare_bits_stay(draft: Draft, position: u64, cue: u8) -> bool
    ensures { IsTrue result }
{
    let book = draft.seal();
    book.rules() >= 16 || book.next(position, cue) >> 60 == position >> 60
}

/// A book of one rule closes where its rule does, and one without a rule everywhere.
fn closes_where_its_rule_does(draft: Draft, position: u64) -> bool
    ensures { IsTrue result }
{
    let book = draft.seal();
    match book.rule(0) {
        Some(rule) if book.rules() == 1 => {
            book.may_close(position) == rule.closes((position % 16) as u8)
        }
        Some(_) => true,
        None => book.may_close(position),
    }
}

/// The first of the example cases, walked: two As with a B behind them keep a response, and a second A without one breaks it.
fn response_is_as_in_the_example() -> bool
    ensures { IsTrue result }
{
    example_cases();
    match Rule::new(Template::Response, 0, 1, 0) {
        Ok(rule) => rule.holds(&[0, 0, 1, 2]) && !rule.holds(&[0, 1, 0, 2]),
        Err(_) => true,
    }
}
