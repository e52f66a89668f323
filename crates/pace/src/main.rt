//! A load for the bench: compares two tables with 32 cues and 2,048 joint positions, the most that a bench records, as many
//! times as its argument says. It prints how many joint positions were worked, and on standard error how many a second.

#![tactic(auto)]

ghost use Rattle.std.specs.Prelude.{◌≡◌, ◌*◌, ◌/◌, ◌≤◌, max};
ghost use Rattle.machine.specs.Table.{table_meaning};
ghost use Rattle.pace.specs.Wheel.{turns, Laid, Wheel, WheelsWorked};

use bench::{Bench, LIMIT};
use machine::Table;
use std::env;
use std::rt::{Clock, Env};
use std::time::Instant;

// How many comparisons are made when no number is given.
const FEW: u32 = 10;

// By how many states a cue turns a wheel.
fn turn(first: u8, cue: u8) -> u8
    ensures { result ≡ turns first cue }
{
    if cue >= first && cue - first < 16 {
        cue - first + 1
    } else {
        0
    }
}

// Writes the next states of a wheel of so many states, state by state and cue by cue.
fn lay(next: &mut [u8], states: u8, first: u8)
    requires { 1 ≤ states }
    ensures { Laid states first next.new }
{
    for (i, cell) in next.iter_mut().enumerate() {
        let cue = (i % 32) as u8;
        *cell = ((i / 32 + turn(first, cue) as usize) % states as usize) as u8;
    }
}

// A wheel of so many states, turned by sixteen cues from the given one on.
fn wheel(states: u8, first: u8) -> Table
    requires { (1 ≤ states) × (states ≤ 64) }
    ensures { Wheel states first (table_meaning result) }
{
    let mut next = [0; 2048];
    let next = &mut next[0..states as usize * 32];
    lay(next, states, first);
    Table::filled(states, 32, next, 0).unwrap()
}

// Compares a wheel of 64 states with one of 32 that turns by the other cues. Answers how many joint positions were worked.
fn compare() -> u16
    ensures { WheelsWorked result }
{
    let mut bench = Bench::open(wheel(64, 0), wheel(32, 16));
    bench.advance(LIMIT)
}

// The argument, or few.
fn times(rt: &(impl Env + Alloc)) -> anyhow::Result<u32> {
    match env::args(rt)?.nth(1) {
        Some(word) => Ok(word.as_str().parse()?),
        None => Ok(FEW),
    }
}

// How many a second, when so many took so many millionths of a second.
fn a_second(worked: u64, micros: u128) -> u128
    ensures { result ≡ worked * 1000000 / max micros 1 }
{
    u128::from(worked) * 1_000_000 / micros.max(1)
}

fn run(rt: &(impl Env + Alloc + Clock + Print + Eprint)) -> anyhow::Result<()> {
    let times = times(rt)?;
    let start = Instant::now(rt)?;
    let mut worked: u64 = 0;
    for _ in 0..times {
        worked = worked.saturating_add(u64::from(compare()));
    }
    let pace = a_second(worked, start.elapsed(rt)?.as_micros());
    println!(rt; "{times} comparisons, {worked} joint positions worked")?;
    eprintln!(rt; "{pace} joint positions a second")?;
    Ok(())
}

fn main(rt: HostRuntime) -> anyhow::Result<()> {
    run(&rt)
}
