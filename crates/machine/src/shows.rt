//! Show order.
ghost use Rattle.machine.specs.Show.{Placed};

use std::cmp::Ordering;

/// Places the first show beside the second in show order: `Less` says that it comes earlier.
pub fn show_order(s: &[u8], t: &[u8]) -> Ordering
    ensures { Placed result s.now t.now }
{
    s.len().cmp(&t.len()).then_with(|| s.cmp(&t))
}
