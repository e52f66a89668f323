//! Uses of shows in order.
ghost use Rattle.std.specs.Prelude.{◌≡◌, ◌↔◌, ◌++◌, [], ◌∷◌, IsTrue};
ghost use Rattle.machine.specs.Show.{Earlier, Placed};

use machine::{show_order, shows_stand_in_one_order};
use std::cmp::Ordering;

/// The earlier of two shows, or the first where they are the same: neither is earlier.
fn earlier_of<'a>(s: &'a [u8], t: &'a [u8]) -> &'a [u8]
    ensures first_is_no_earlier { ¬ Earlier s.now result.now }
    ensures second_is_no_earlier { ¬ Earlier t.now result.now }
{
    shows_stand_in_one_order();
    match show_order(t, s) {
        Ordering::Less => t,
        Ordering::Equal | Ordering::Greater => s,
    }
}

/// The earliest of three shows: none of them is earlier.
fn earliest_of<'a>(s: &'a [u8], t: &'a [u8], u: &'a [u8]) -> &'a [u8]
    ensures first_is_no_earlier { ¬ Earlier s.now result.now }
    ensures second_is_no_earlier { ¬ Earlier t.now result.now }
    ensures third_is_no_earlier { ¬ Earlier u.now result.now }
{
    shows_stand_in_one_order();
    earlier_of(earlier_of(s, t), u)
}

/// Whether two shows are the same, cue by cue.
fn is_same_show(s: &[u8], t: &[u8]) -> bool
    ensures { IsTrue result ↔ (s.now ≡ t.now) }
{
    shows_stand_in_one_order();
    show_order(s, t) == Ordering::Equal
}

/// Places two shows in order, each followed by one more cue, without writing either out: the shows decide, and where both are
/// the same show, the cues do.
fn order_behind(s: &[u8], c: u8, t: &[u8], d: u8) -> Ordering
    ensures { Placed result (s.now ++ c ∷ []) (t.now ++ d ∷ []) }
{
    shows_stand_in_one_order();
    show_order(s, t).then(c.cmp(&d))
}
