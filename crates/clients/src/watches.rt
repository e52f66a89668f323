//! Uses of watches, and of what any machine says of a show.
ghost use Rattle.std.specs.Prelude.{◌≡◌, ◌↔◌, ◌≤◌, ◌^◌, ◌+◌, [], ◌++◌, IsTrue, length, true};
ghost use Rattle.std.specs.Bool.{OnTrue, OnFalse};
ghost use Rattle.machine.specs.Meaning.{allowed, leads_to};
ghost use Rattle.machine.specs.Watch.{standing, after_cues};
ghost use Rattle.clients.specs.Watches.{FitsAShow, IsDue, AllTaken};

use machine::{Closed, Machine, Watch, allows};

/// Begins a show and closes it at once.
fn closed_at_once<M: Machine>(machine: M) -> Closed<M>
    ensures machine_comes_back { result.machine ≡ machine }
    ensures none_taken { result.taken ≡ 0 }
    ensures allowed_as_the_empty_show { result.allowed ≡ allowed (M.Machine.meaning machine) [] }
{
    let (watch, slip) = Watch::begin(machine);
    watch.close(slip)
}

/// Calls a cue, and says whether it was taken: if it is one of the machine's, and the show has fewer than 10,000. Otherwise the
/// show is as it was.
fn takes_cue<M: Machine>(watch: &mut Watch<M>, cue: u8) -> bool
    ensures taken_if_cue_and_room { IsTrue result
        ↔ IsDue M.Machine.meaning (standing watch.old) cue }
    ensures one_more_if_taken { OnTrue result
        ((standing watch.new).taken ≡ (standing watch.old).taken + 1) }
    ensures as_it_was_if_refused { OnFalse result (standing watch.new ≡ standing watch.old) }
{
    watch.cue(cue).is_ok()
}

/// Plays a show over a machine, cue by cue, and closes it. Beside what is closed stands whether every cue was taken.
///
/// Of a show of the machine's cues, as long as a show may be, every cue is taken, and it is allowed as the machine says.
fn rehearsed<M: Machine>(machine: M, show: &[u8]) -> (Closed<M>, bool)
    ensures machine_comes_back { result.0.machine ≡ machine }
    ensures every_cue_is_taken { FitsAShow (M.Machine.meaning machine).steps show.now →
        result.1 ≡ true }
    ensures all_are_counted { FitsAShow (M.Machine.meaning machine).steps show.now →
        result.0.taken ≡ length show.now }
    ensures allowed_as_the_show { FitsAShow (M.Machine.meaning machine).steps show.now →
        result.0.allowed ≡ allowed (M.Machine.meaning machine) show.now }
{
    let (mut watch, slip) = Watch::begin(machine);
    let is_taken = hears(&mut watch, show);
    (watch.close(slip), is_taken)
}

/// Plays the first part of a show, asks the running watch whether it allows the rest, and closes the show there.
fn allows_rest<M: Machine + Drop>(machine: M, first: &[u8], rest: &[u8]) -> bool
    ensures { FitsAShow (M.Machine.meaning machine).steps first.now →
        result ≡ allowed (M.Machine.meaning machine) (first.now ++ rest.now) }
{
    let (mut watch, slip) = Watch::begin(machine);
    let _ = hears(&mut watch, first);
    let is_allowed = allows(&watch, rest);
    let _ = watch.close(slip);
    is_allowed
}

/// The position to which a show leads, as a watch finds it that hears the cues one by one.
fn position_by_watch<M: Machine + Drop>(machine: M, show: &[u8]) -> u64
    ensures { FitsAShow (M.Machine.meaning machine).steps show.now →
        result ≡ leads_to (M.Machine.meaning machine).steps show.now }
{
    let (mut watch, slip) = Watch::begin(machine);
    let _ = hears(&mut watch, show);
    let position = watch.start();
    let _ = watch.close(slip);
    position
}

/// All cues of a machine as a set, a bit for each: as many bits as it has cues, from the lowest on.
fn all_cues<M: Machine>(machine: &M) -> u32
    ensures { result + 1 ≡ 2 ^ (M.Machine.meaning machine.now).steps.cues }
{
    low_bits(machine.cues())
}

// As many bits as this, from the lowest on.
fn low_bits(count: u8) -> u32
    requires at_least_one { 1 ≤ count }
    requires at_most_32 { count ≤ 32 }
    ensures { result + 1 ≡ 2 ^ count }
{
    u32::MAX >> (32 - count)
}

// Calls each number, and says whether every one was taken.
fn hears<M: Machine>(watch: &mut Watch<M>, calls: &[u8]) -> bool
    ensures each_is_called { standing watch.new
        ≡ after_cues M.Machine.meaning (standing watch.old) calls.now }
    ensures true_if_all_are_taken { AllTaken M.Machine.meaning (standing watch.old) calls.now
        → result ≡ true }
{
    let mut is_taken = true;
    for call in calls {
        is_taken = watch.cue(*call).is_ok() && is_taken;
    }
    is_taken
}
