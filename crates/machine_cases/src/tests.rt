//! Tables at their limits, watches at the longest show, and shows in order.
use super::rehearse;
use machine::{
    Closed, CueRefusal, FillRefusal, Machine, Numbered, Table, Watch, allows, divides, leads_to,
    show_order,
};
use std::cmp::Ordering;
use std::process::Abort;
use std::test::Fail;

// What a table is filled from: state count, cue count, how many bytes of one value, that value, and the closing bits.
struct Fill(u8, u8, usize, u8, u64);

// What a table is filled from, and the number of the refusal that is due, if any.
const FILLS: [(Fill, Option<u8>); 23] = [
    (Fill(1, 1, 1, 0, 0), None),
    (Fill(1, 1, 1, 0, 1), None),
    (Fill(1, 32, 32, 0, 1), None),
    (Fill(64, 1, 64, 63, u64::MAX), None),
    (Fill(64, 32, 2048, 63, u64::MAX), None),
    (Fill(63, 32, 2016, 62, u64::MAX / 2), None),
    // the state count
    (Fill(0, 1, 0, 0, 0), Some(14)),
    (Fill(65, 1, 65, 0, 0), Some(14)),
    (Fill(255, 1, 255, 0, 0), Some(14)),
    // the cue count
    (Fill(1, 0, 0, 0, 0), Some(15)),
    (Fill(1, 33, 33, 0, 0), Some(15)),
    (Fill(1, 255, 255, 0, 0), Some(15)),
    // the length
    (Fill(1, 1, 0, 0, 0), Some(16)),
    (Fill(1, 1, 2, 0, 0), Some(16)),
    (Fill(64, 32, 2047, 0, 0), Some(16)),
    (Fill(64, 32, 2049, 0, 0), Some(16)),
    // a byte or a bit that names no state
    (Fill(1, 1, 1, 1, 0), Some(17)),
    (Fill(64, 32, 2048, 64, 0), Some(17)),
    (Fill(1, 1, 1, 0, 2), Some(17)),
    (Fill(63, 32, 2016, 62, u64::MAX), Some(17)),
    // the order of the checks
    (Fill(0, 0, 7, 9, u64::MAX), Some(14)),
    (Fill(1, 0, 7, 9, u64::MAX), Some(15)),
    (Fill(1, 1, 7, 9, u64::MAX), Some(16)),
];

// The number of the refusal of a filling of a new table, and the table after it.
fn filled(fill: &Fill) -> (Option<u8>, Table) {
    let Fill(states, cues, length, byte, closing) = fill;
    let bytes = [*byte; 2049];
    let mut table = Table::new();
    match table.fill(*states, *cues, &bytes[..(*length).min(2049)], *closing) {
        Ok(()) => (None, table),
        Err(refusal) => (Some(refusal.number()), table),
    }
}

// A filling is answered so. A table that is turned down stays new.
fn try_fill(rt: &impl Abort, fill: &Fill, refusal: Option<u8>) {
    let (answer, table) = filled(fill);
    assert_eq!(rt; answer, refusal);
    let counts = match answer {
        None => (fill.0, fill.1),
        Some(_) => (1, 1),
    };
    assert_eq!(rt; (table.states(), table.cues()), counts);
    assert_eq!(rt; table.start(), 0);
}

#[test]
fn tables_are_filled_or_turned_down(rt: HostRuntime) {
    for (fill, refusal) in &FILLS {
        try_fill(&rt, fill, *refusal);
    }
}

// Three states, two cues; shows may close at 0 and 2.
fn small() -> Result<Table, FillRefusal> {
    Table::filled(3, 2, &[1, 2, 0, 2, 2, 1], 0b101)
}

// A position, a cue, and where the small table leads.
const STEPS: [(u64, u8, u64); 14] = [
    (0, 0, 1),
    (0, 1, 2),
    (1, 0, 0),
    (1, 1, 2),
    (2, 0, 2),
    (2, 1, 1),
    // what is no state and what is no cue lead nowhere else
    (0, 2, 0),
    (1, 2, 1),
    (2, 255, 2),
    (3, 0, 3),
    (3, 1, 3),
    (3, 2, 3),
    (64, 1, 64),
    (u64::MAX, 0, u64::MAX),
];

// A position, and whether a show may close there in the small table.
const CLOSING: [(u64, bool); 6] = [
    (0, true),
    (1, false),
    (2, true),
    (3, false),
    (64, false),
    (u64::MAX, false),
];

#[test]
fn tables_step_and_close(rt: HostRuntime) -> Result<(), Fail> {
    let mut table = small()?;
    assert!(rt; table.fill(3, 2, &[1, 2, 0, 2, 2, 3], 0b111).is_err());
    for &(position, cue, next) in &STEPS {
        assert_eq!(rt; table.next(position, cue), next);
    }
    for &(position, closes) in &CLOSING {
        assert_eq!(rt; table.may_close(position), closes);
    }
    Ok(())
}

// A show, where it leads in the small table, and whether the table allows it.
const SHOWS: [(&[u8], u64, bool); 6] = [
    (&[], 0, true),
    (&[0], 1, false),
    (&[1], 2, true),
    (&[0, 0], 0, true),
    (&[0, 1, 1], 1, false),
    (&[1, 0, 0, 1, 0], 0, true),
];

// A new table allows no show. So a show divides it from this table exactly when this one allows the show.
fn try_divides(rt: &impl Abort, table: &Table, show: &[u8], allowed: bool) {
    let nowhere = Table::new();
    assert_eq!(rt; divides(table, &nowhere, show), allowed);
    assert_eq!(rt; divides(&nowhere, table, show), allowed);
    assert!(rt; !divides(table, table, show));
}

#[test]
fn shows_lead_to_positions(rt: HostRuntime) -> Result<(), Fail> {
    let table = small()?;
    for &(show, position, allowed) in &SHOWS {
        assert_eq!(rt; leads_to(&table, show), position);
        assert_eq!(rt; allows(&table, show), allowed);
        try_divides(&rt, &table, show, allowed);
    }
    Ok(())
}

#[test]
fn shows_are_rehearsed(rt: HostRuntime) -> Result<(), Fail> {
    for &(show, _, allowed) in &SHOWS {
        let closed = rehearse(small()?, show);
        assert_eq!(rt; closed.allowed, allowed);
        assert_eq!(rt; usize::from(closed.taken), show.len());
    }
    Ok(())
}

#[test]
fn what_is_no_cue_is_not_heard(rt: HostRuntime) -> Result<(), Fail> {
    let closed = rehearse(small()?, &[7, 0, 2, 1, 255]);
    assert_eq!(rt; closed.taken, 2);
    assert!(rt; closed.allowed);
    Ok(())
}

// The number of the refusal where a cue is turned down.
fn refused(answer: Result<(), CueRefusal>) -> Option<u8> {
    match answer {
        Ok(()) => None,
        Err(refusal) => Some(refusal.number()),
    }
}

// A new table's one cue, called many times, and then once more, and then what is no cue: how the last two are turned down, and the
// closed show.
fn long_show(calls: u16) -> (Option<u8>, Option<u8>, Closed<Table>) {
    let (mut watch, slip) = Watch::begin(Table::new());
    for _ in 0..calls {
        let _ = watch.cue(0);
    }
    let more = refused(watch.cue(0));
    let stranger = refused(watch.cue(1));
    (more, stranger, watch.close(slip))
}

// How often the cue is called, the refusal of the next call, and how many cues were taken.
const LONG_SHOWS: [(u16, Option<u8>, u16); 5] = [
    (0, None, 1),
    (9_998, None, 9_999),
    (9_999, None, 10_000),
    (10_000, Some(22), 10_000),
    (10_001, Some(22), 10_000),
];

#[test]
fn a_show_takes_ten_thousand_cues(rt: HostRuntime) {
    for &(calls, refusal, taken) in &LONG_SHOWS {
        let (more, stranger, closed) = long_show(calls);
        assert_eq!(rt; (more, stranger), (refusal, Some(21)));
        assert_eq!(rt; (closed.taken, closed.allowed), (taken, false));
    }
}

#[test]
fn a_running_watch_starts_where_it_stands(rt: HostRuntime) -> Result<(), Fail> {
    let (mut watch, slip) = Watch::begin(small()?);
    let before = allows(&watch, &[1, 1]);
    let _ = watch.cue(0);
    let place = watch.start();
    let after = allows(&watch, &[1, 1]);
    let rest = allows(&watch, &[0]);
    let _ = watch.close(slip);
    assert_eq!(rt; place, 1);
    assert!(rt; !before && !after && rest);
    Ok(())
}

#[test]
fn a_watch_runs_over_a_watch(rt: HostRuntime) -> Result<(), Fail> {
    let (mut inner, first) = Watch::begin(small()?);
    let _ = inner.cue(0);
    let (mut outer, second) = Watch::begin(inner);
    let _ = outer.cue(1);
    let _ = outer.cue(1);
    let _ = outer.cue(0);
    let above = outer.close(second);
    let below = above.machine.close(first);
    assert_eq!(rt; above.taken, 3);
    assert!(rt; above.allowed);
    assert_eq!(rt; below.taken, 1);
    assert!(rt; !below.allowed);
    Ok(())
}

// Two shows, and how the first stands to the second.
const ORDERS: [(&[u8], &[u8], Ordering); 8] = [
    (&[], &[], Ordering::Equal),
    (&[], &[0], Ordering::Less),
    (&[31], &[0, 0], Ordering::Less),
    (&[0, 0], &[31], Ordering::Greater),
    (&[0, 1, 9], &[0, 2, 0], Ordering::Less),
    (&[1, 0, 0], &[0, 9, 9], Ordering::Greater),
    (&[3, 1, 4], &[3, 1, 4], Ordering::Equal),
    (&[3, 1, 4], &[3, 1, 5], Ordering::Less),
];

#[test]
fn shows_stand_in_order(rt: HostRuntime) {
    for &(s, t, order) in &ORDERS {
        assert_eq!(rt; show_order(s, t), order);
        assert_eq!(rt; show_order(t, s), order.reverse());
    }
}
