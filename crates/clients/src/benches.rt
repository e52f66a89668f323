//! Uses of a bench.
ghost use Rattle.std.specs.Prelude.{◌≡◌, ◌≢◌, ℕ, ◌+◌, ◌<◌, ◌≤◌, ◌↔◌, IsTrue, IfSome, None, take};
ghost use Rattle.search.specs.declared.states.Verdict.TheVariants.{Open};
ghost use Rattle.search.specs.Search.{recorded};
ghost use Rattle.clients.specs.Comparing.{SameCues, NotSameCues, EqualSays, FullSays, UnlikeSays};
ghost use Rattle.clients.specs.Comparing.{SideSays, WritesFront, DifferFirst, BenchFinds};
ghost use Rattle.clients.specs.Comparing.{AreSame, AreTooLarge, NoneToFind};
ghost use Rattle.clients.specs.Granting.{AtOnce, InAnyCalls, NamesSide};
ghost use Rattle.clients.specs.Counting.{PlaceFound, CountedAs};

use bench::{Bench, LIMIT, ShowRefusal, Verdict};
use machine::Machine;
use search::{Side, decided_in_time, whole_runs};

// Room for the longest show that a bench finds.
const LONGEST: usize = 2047;

/// Compares two machines by small grants, and stops when a verdict falls. Answers the verdict, and the length of the show that
/// then stands at the front of the buffer: the first of which the machines do not say the same.
fn patient<L: Machine + Drop, R: Machine + Drop>(
    left: L,
    right: R,
    buffer: &mut [u8; LONGEST],
) -> (Verdict, usize)
    ensures verdict_has_fallen { result.0 ≢ Open }
    ensures equal_just_when_same { EqualSays (L.meaning left) (R.meaning right) result.0 }
    ensures full_just_when_too_large { FullSays (L.meaning left) (R.meaning right) result.0 }
    ensures unlike_just_when_counts_differ { UnlikeSays
        (L.meaning left).steps (R.meaning right).steps result.0 }
    ensures side_allows_the_show_first { SideSays
        (L.meaning left) (R.meaning right) result.0 (take result.1 buffer.new) }
    ensures later_bytes_stay { WritesFront result.1 buffer.old buffer.new }
{
    let mut bench = Bench::open(left, right);
    for _ in 0..32u32 {
        bench.advance(64);
        if !bench.verdict().is_open() {
            break;
        }
    }
    let verdict = bench.verdict();
    let length = bench.show(buffer).unwrap_or(0);
    (verdict, length)
}

/// What a bench tells when it is asked for everything.
#[derive(Drop)]
struct Findings {
    /// The verdict.
    verdict: Verdict,
    /// How many joint positions are worked, and how many recorded.
    tally: (u16, u16),
    /// How many cues the show has, or why none was written.
    length: Result<usize, ShowRefusal>,
    /// What stands in a buffer that held zeros.
    show: [u8; LONGEST],
}

/// Grants all at once to two machines, and then by single units to the same two. Answers what was found at the end of each.
fn either_way<L: Machine + Drop, R: Machine + Drop>(
    left: L,
    right: R,
    grant: u32,
) -> (Findings, Findings)
    ensures { result.0 ≡ result.1 }
{
    let mut at_once = Bench::open(left, right);
    at_once.advance(grant);
    let mut show = [0; LONGEST];
    let length = at_once.show(&mut show);
    let found = Findings {
        verdict: at_once.verdict(),
        tally: at_once.tally(),
        length,
        show,
    };
    let (left, right) = at_once.release();
    let mut singly = Bench::open(left, right);
    for _ in 0..grant {
        singly.advance(1);
    }
    let mut show = [0; LONGEST];
    let length = singly.show(&mut show);
    let found_again = Findings {
        verdict: singly.verdict(),
        tally: singly.tally(),
        length,
        show,
    };
    (found, found_again)
}

/// Decides two machines, and then the same two again, with more grants and in two parts. Answers both verdicts.
fn decided_again<L: Machine + Drop, R: Machine + Drop>(
    left: L,
    right: R,
    more: u32,
) -> (Verdict, Verdict)
    ensures { result.0 ≡ result.1 }
{
    let mut first = Bench::open(left, right);
    first.advance(LIMIT);
    let verdict = first.verdict();
    let (left, right) = first.release();
    let mut second = Bench::open(left, right);
    second.advance(more);
    second.advance(LIMIT);
    (verdict, second.verdict())
}

/// Whether a show is the first of which two machines do not say the same. It is found wherever a bench suffices.
fn is_first_difference<L: Machine + Drop, R: Machine + Drop>(
    left: L,
    right: R,
    expected: &[u8],
) -> bool
    ensures yes_only_of_the_first { IsTrue result →
        DifferFirst (L.meaning left) (R.meaning right) expected.now }
    ensures yes_where_a_bench_finds_it { BenchFinds
        (L.meaning left) (R.meaning right) expected.now → IsTrue result }
{
    let mut bench = Bench::open(left, right);
    bench.advance(LIMIT);
    let mut show = [0; LONGEST];
    match bench.show(&mut show) {
        Ok(length) => &show[..length] == expected,
        Err(_) => false,
    }
}

/// Finds where two machines first differ, and answers how many joint positions were met, that one the last, and the length of its
/// first show, which then stands at the front of the buffer. It answers nothing just where the cue counts differ, the machines are
/// the same, or they are too large for a bench.
fn place_of_difference<L: Machine + Drop, R: Machine + Drop>(
    left: L,
    right: R,
    buffer: &mut [u8; LONGEST],
) -> Option<(u16, usize)>
    ensures first_difference_was_met_last { IfSome result
        (PlaceFound (L.meaning left) (R.meaning right) buffer.new) }
    ensures none_just_where_none_is_to_find { (result ≡ None) ↔
        NoneToFind (L.meaning left) (R.meaning right) }
{
    let mut bench = Bench::open(left, right);
    bench.advance(LIMIT);
    let (_, recorded) = bench.tally();
    match bench.show(buffer) {
        Ok(length) => Some((recorded, length)),
        Err(_) => None,
    }
}

/// Counts the joint positions of two machines after a grant.
fn tally_after<L: Machine + Drop, R: Machine + Drop>(
    left: L,
    right: R,
    grant: u32,
) -> (Verdict, u16, u16)
    ensures { CountedAs (L.meaning left) (R.meaning right) grant result.0 result.1 result.2 }
{
    let mut bench = Bench::open(left, right);
    bench.advance(grant);
    let (worked, recorded) = bench.tally();
    (bench.verdict(), worked, recorded)
}

/// Grants so often to a bench, each time looks at its tally and asks for the show, and answers the largest number that was told.
fn most_told<L: Machine + Drop, R: Machine + Drop>(
    left: L,
    right: R,
    grant: u32,
    times: u16,
    buffer: &mut [u8],
) -> u16
    ensures zero_where_counts_differ { NotSameCues (L.meaning left).steps (R.meaning right).steps →
        result ≡ 0 }
    ensures buffer_stays_where_counts_differ { NotSameCues
        (L.meaning left).steps (R.meaning right).steps → buffer.new ≡ buffer.old }
{
    let mut bench = Bench::open(left, right);
    let mut most = 0;
    for _ in 0..times {
        let worked = bench.advance(grant);
        let (counted, recorded) = bench.tally();
        most = worked.max(counted).max(recorded).max(most);
        bench.show(buffer).ok();
    }
    most
}

/// What two grants came to: how many joint positions they worked, and how many of those recorded wait to be worked.
fn worked_and_waiting<L: Machine + Drop, R: Machine + Drop>(
    left: L,
    right: R,
    first: u32,
    second: u32,
) -> (u16, u16)
    ensures worked_at_most_as_granted { result.0 ≤ first + second }
    ensures recorded_at_most_2048 { result.0 + result.1 ≤ 2048 }
{
    let mut bench = Bench::open(left, right);
    let worked = bench.advance(first);
    let worked_then = bench.advance(second);
    let (_, recorded) = bench.tally();
    (worked + worked_then, recorded - worked - worked_then)
}

/// What is left of any bench: how many recorded joint positions wait to be worked, and how many places are free.
fn spare<L: Machine, R: Machine>(bench: &Bench<L, R>) -> (Verdict, u16, u16)
    ensures waiting_and_free_fit_2048 { result.1 + result.2 ≤ 2048 }
    ensures one_waits_while_open { result.0 ≡ Open → 0 < result.1 }
{
    let (worked, recorded) = bench.tally();
    (bench.verdict(), recorded - worked, 2048 - recorded)
}

/// Grants so much to any bench, and answers how many joint positions that worked. No more are worked than have a place.
fn worked_of_grant<L: Machine, R: Machine>(bench: &mut Bench<L, R>, units: u32) -> u16
    ensures worked_have_places { bench.new.state.worked ≤ 2048 }
{
    bench.advance(units)
}

/// What is recorded on a bench has its place, whatever stands on it: the two need not even be machines.
fn has_places<L, R>(any_bench: &Bench<L, R>)
    ensures recorded_have_places { recorded any_bench.now.state ≤ 2048 }
{
    any_bench.state_is_in_order();
}

/// Whether a joint position of a bench waits to be worked. It asks for the verdict alone, and not for the tally.
fn waits<L: Machine, R: Machine>(bench: &Bench<L, R>) -> bool
    ensures one_is_left { IsTrue result → bench.now.state.worked < recorded bench.now.state }
{
    bench.state_is_in_order();
    bench.verdict().is_open()
}

/// Grants to a bench so often, and gives both machines back with the verdict. They are of one kind, so they could be exchanged.
fn given_back<M: Machine>(left: M, right: M, grant: u32, times: u16) -> (Verdict, M, M)
    ensures { (result.1 ≡ left) × (result.2 ≡ right) }
{
    let mut bench = Bench::open(left, right);
    for _ in 0..times {
        bench.advance(grant);
    }
    let verdict = bench.verdict();
    let (left, right) = bench.release();
    (verdict, left, right)
}

/// Whether so much is enough for a verdict, whichever machines are compared.
fn is_enough(grant: u32) -> bool
    ensures { IsTrue result ↔ AtOnce grant }
{
    decided_in_time(LIMIT, grant)
}

/// How much is still to be granted to be sure of a verdict, when so much was.
fn still_to_grant(granted: u32) -> u32
    ensures { (more : ℕ) → (result ≤ more) ↔ InAnyCalls (granted + more) }
{
    whole_runs(LIMIT, granted)
}

/// Grants, and when a verdict has fallen, grants all that a bench can use once more. Answers verdict and tally of each time. While the
/// verdict is open, so only after a grant below 2,048, it answers nothing.
fn grants_after_verdict<L: Machine + Drop, R: Machine + Drop>(
    left: L,
    right: R,
    grant: u32,
) -> Option<((Verdict, (u16, u16)), (Verdict, (u16, u16)))>
    ensures stay_as_they_were { IfSome result (λ found. found.0 ≡ found.1) }
    ensures none_only_below_2048 { result ≡ None → grant < 2048 }
{
    let mut bench = Bench::open(left, right);
    bench.advance(grant);
    let verdict = bench.verdict();
    if verdict.is_open() {
        return None;
    }
    let tally = bench.tally();
    bench.advance(LIMIT);
    let verdict_then = bench.verdict();
    let tally_then = bench.tally();
    Some(((verdict, tally), (verdict_then, tally_then)))
}

/// What a verdict answers when it is asked.
#[derive(Drop)]
struct Replies {
    /// Whether it is equal.
    equal: bool,
    /// Whether it is full.
    full: bool,
    /// Which side it names.
    side: Option<Side>,
    /// Whether it is unlike.
    unlike: bool,
}

/// Decides two machines, and asks the verdict each of its questions.
fn ask_all<L: Machine + Drop, R: Machine + Drop>(left: L, right: R) -> Replies
    ensures equal_just_when_same { SameCues (L.meaning left).steps (R.meaning right).steps →
        (IsTrue result.equal ↔ AreSame (L.meaning left) (R.meaning right)) }
    ensures full_just_when_too_large { SameCues (L.meaning left).steps (R.meaning right).steps →
        (IsTrue result.full ↔ AreTooLarge (L.meaning left) (R.meaning right)) }
    ensures side_allows_a_show_first { SameCues (L.meaning left).steps (R.meaning right).steps →
        NamesSide (L.meaning left) (R.meaning right) result.side }
    ensures unlike_just_when_counts_differ { IsTrue result.unlike ↔
        NotSameCues (L.meaning left).steps (R.meaning right).steps }
{
    let mut bench = Bench::open(left, right);
    bench.advance(LIMIT);
    let verdict = bench.verdict();
    Replies {
        equal: verdict.is_equal(),
        full: verdict.is_full(),
        side: verdict.side(),
        unlike: verdict.is_unlike(),
    }
}
