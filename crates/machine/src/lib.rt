//! Machines: what a deterministic automaton over cues is, and the two that stand on their own, a filled table and a watch
//! over a running show. Nothing here allocates.

#![tactic(auto)]

mod machines;
mod numbers;
mod shows;
mod tables;
mod theorems;
mod watches;

pub use machines::{Machine, allows, divides, leads_to};
pub use numbers::Numbered;
pub use shows::show_order;
pub use tables::{FillRefusal, Table};
pub use theorems::{shows_stand_in_one_order, tables_mean_what_they_hold};
pub use watches::{Closed, CueRefusal, Slip, Watch};
