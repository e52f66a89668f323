//! Plays a show from standard input, one cue number a line, on a small example table, and prints what each cue did.

#![tactic(auto)]

ghost use Rattle.std.specs.Prelude.{◌≡◌, ◌↔◌, IsTrue, Some};
ghost use Rattle.std.specs.Str.Parse.{IsNumeral};
ghost use Rattle.machine.specs.Table.{Means, table_meaning};
ghost use Rattle.machine.specs.Watch.{standing, after_cue, IsSpent};
ghost use Rattle.examples.specs.Example.{load_first};
ghost use Rattle.play.specs.Playing.{FliesAfterLoad, IsNumberOf, Told, CalledIfNumeral, OnlyCued, EndedAs, stand_text, answered_text, ended_text};

use examples::{flight, name};
use machine::{Closed, CueRefusal, Machine, Numbered, Slip, Table, Watch};
use std::fmt;

// Where a show stands: the position reached, and whether the show may close there.
#[derive(Drop)]
struct Stand {
    position: u64,
    may_close: bool,
}

impl fmt::Display for Stand {
    ghost output = { λ stand. Some (stand_text stand) };

    #[tactic(auto, unfolding(crate::specs::Playing::stand_text))]
    fn fmt<W: fmt::Write>(&self, f: &mut fmt::Formatter<W>) -> fmt::Result {
        let position = self.position;
        let may = if self.may_close { "may" } else { "may not" };
        write!(f, "position {position}, {may} close")
    }
}

// What a line that is a number came to: the line, the cue that was called, and how it was answered.
#[derive(Drop)]
struct Answered<'a> {
    line: &'a str,
    cue: u8,
    answer: Result<Stand, CueRefusal>,
}

impl fmt::Display for Answered<'_> {
    ghost output = { λ answered. Some (answered_text answered) };

    fn fmt<W: fmt::Write>(&self, f: &mut fmt::Formatter<W>) -> fmt::Result {
        match &self.answer {
            Ok(stand) => {
                let cue = self.cue;
                let cue_name = name(cue);
                write!(f, "{cue} {cue_name}: {stand}")
            }
            Err(refusal) => {
                let line = self.line;
                let number = refusal.number();
                write!(f, "{line}: refused {number}")
            }
        }
    }
}

// A closed show: how many cues it took, and whether the example allows it.
#[derive(Drop)]
struct Ended {
    taken: u16,
    allowed: bool,
}

impl fmt::Display for Ended {
    ghost output = { λ ended. Some (ended_text ended) };

    fn fmt<W: fmt::Write>(&self, f: &mut fmt::Formatter<W>) -> fmt::Result {
        let taken = self.taken;
        let denial = if self.allowed { "" } else { "not " };
        write!(f, "closed after {taken} cues: {denial}allowed")
    }
}

// Begins a show over the example in which FLY comes only after LOAD.
fn begin() -> (Watch<Table>, Slip)
    ensures as_described { Means (table_meaning (standing result.0).machine) load_first }
    ensures flies_only_after_load { FliesAfterLoad result.0 }
    ensures at_the_start { (standing result.0).position ≡ 0 }
    ensures none_taken { (standing result.0).taken ≡ 0 }
    ensures unspent { ¬ IsSpent result.1 }
{
    Watch::begin(flight())
}

// Whether a line is one or more decimal digits.
fn is_numeral(line: &str) -> bool
    ensures { IsTrue result ↔ IsNumeral 10 line.now }
{
    !line.is_empty() && line.as_bytes().iter().all(|b| b.is_ascii_digit())
}

// The decimal number on a line. One above 255 is read as 255, since neither is a cue of any machine.
fn number(line: &str) -> Option<u8>
    ensures { IsNumberOf result line.now }
{
    if !is_numeral(line) {
        return None;
    }
    Some(u8::from_str_radix(line, 10).unwrap_or(u8::MAX))
}

// Calls the cue, and says what it did.
fn take(watch: &mut Watch<Table>, cue: u8) -> Result<Stand, CueRefusal>
    ensures told_as_taken { Told result watch.old watch.new cue }
    ensures moves_if_taken { standing watch.new ≡ after_cue table_meaning (standing watch.old) cue }
{
    watch.cue(cue)?;
    let position = watch.start();
    Ok(Stand {
        position,
        may_close: watch.may_close(position),
    })
}

// Calls the cue of a line that is a number, and says what it did.
fn call<'a>(watch: &mut Watch<Table>, line: &'a str) -> Option<Answered<'a>>
    ensures { CalledIfNumeral result watch.old watch.new line.now }
{
    let cue = number(line)?;
    let answer = take(watch, cue);
    Some(Answered { line, cue, answer })
}

// Plays each line that is a number, and tells what it did.
fn play(rt: &(impl Input + Alloc + Print), watch: &mut Watch<Table>) -> anyhow::Result<()>
    ensures { OnlyCued watch.old watch.new }
{
    for line in rt.lines(rt.alloc()) {
        let line = line?;
        match call(watch, line.as_str()) {
            Some(answered) => println!(rt; "{answered}")?,
            None => println!(rt; "not a number: {line:?}")?,
        }
    }
    Ok(())
}

// Closes the show with its slip.
fn end(watch: Watch<Table>, slip: Slip) -> Ended
    ensures { EndedAs result watch }
{
    let Closed { taken, allowed, .. } = watch.close(slip);
    Ended { taken, allowed }
}

// Begins a show over the example, plays it, and closes it with its slip, whether or not all of it could be read and told.
fn run(rt: &(impl Input + Alloc + Print)) -> anyhow::Result<()> {
    let (mut watch, slip) = begin();
    let played = play(rt, &mut watch);
    let ended = end(watch, slip);
    played?;
    println!(rt; "{ended}")?;
    Ok(())
}

fn main(rt: HostRuntime) -> anyhow::Result<()> {
    run(&rt)
}
