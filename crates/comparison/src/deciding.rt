//! Deciding two machines on a bench.
ghost use Rattle.std.specs.Prelude.{◌≡◌, ◌≢◌, ◌≤◌, IfOk, Some, length};
ghost use Rattle.comparison.specs.Deciding.{Decided, NotCompared, tally_text, decision_text};

use bench::{Bench, LIMIT, ShowRefusal, Verdict};
use machine::{Closed, Machine, Watch};
use std::fmt;

/// The tally (the search's counters) of a bench that has decided.
#[derive(Clone, Copy, Debug, PartialEq, Eq, Hash)]
pub struct Tally {
    /// How many joint positions were worked.
    pub worked: u16,
    /// How many joint positions were recorded.
    pub recorded: u16,
}

impl fmt::Display for Tally {
    ghost output = { λ tally. Some (tally_text tally) };

    fn fmt<W: fmt::Write>(&self, f: &mut fmt::Formatter<W>) -> fmt::Result {
        let Tally { worked, recorded } = *self;
        write!(f, "{worked} {recorded}")
    }
}

/// What a bench decides of two machines: the verdict, the tally, and the length of the show found; and both machines, given back.
#[derive(Drop)]
pub struct Decision<L, R> {
    /// The left machine.
    pub left: L,
    /// The right machine.
    pub right: R,
    /// The verdict.
    pub verdict: Verdict,
    /// How many joint positions it took.
    pub tally: Tally,
    /// How many cues the show found has, or why none was written.
    pub length: Result<usize, ShowRefusal>,
}

// The verdict and the tally.
impl<L, R> fmt::Display for Decision<L, R> {
    ghost output = { λ decision. Some (decision_text decision.verdict decision.tally) };

    fn fmt<W: fmt::Write>(&self, f: &mut fmt::Formatter<W>) -> fmt::Result {
        let verdict = self.verdict;
        let tally = self.tally;
        write!(f, "{verdict} {tally}")
    }
}

/// Decides two machines: sets them on a bench, grants all that a verdict can need, and writes the show found to the front of a
/// buffer.
pub fn decide<L: Machine, R: Machine>(left: L, right: R, buffer: &mut [u8]) -> Decision<L, R>
    ensures machines_given_back { (result.left ≡ left) × (result.right ≡ right) }
    ensures decided_where_alike { (L.Machine.meaning left).steps.cues
        ≡ (R.Machine.meaning right).steps.cues →
        Decided (L.Machine.meaning left) (R.Machine.meaning right) result buffer.old buffer.new }
    ensures not_compared_where_unlike { ((L.Machine.meaning left).steps.cues
        ≢ (R.Machine.meaning right).steps.cues) →
        NotCompared result buffer.old buffer.new }
    ensures show_fits { IfOk result.length (λ n. n ≤ length buffer.old) }
{
    let mut bench = Bench::open(left, right);
    bench.advance(LIMIT);
    let verdict = bench.verdict();
    let (worked, recorded) = bench.tally();
    let length = bench.show(buffer);
    let (left, right) = bench.release();
    Decision {
        left,
        right,
        verdict,
        tally: Tally { worked, recorded },
        length,
    }
}

// The same, where a watch that was just begun stands over each machine. Such a watch means what its machine means: nothing that is
// decided changes.
pub(crate) fn decide_watched<L: Machine, R: Machine>(
    left: L,
    right: R,
    buffer: &mut [u8],
) -> Decision<L, R>
    ensures machines_given_back { (result.left ≡ left) × (result.right ≡ right) }
    ensures decided_where_alike { (L.Machine.meaning left).steps.cues
        ≡ (R.Machine.meaning right).steps.cues →
        Decided (L.Machine.meaning left) (R.Machine.meaning right) result buffer.old buffer.new }
    ensures not_compared_where_unlike { ((L.Machine.meaning left).steps.cues
        ≢ (R.Machine.meaning right).steps.cues) →
        NotCompared result buffer.old buffer.new }
    ensures show_fits { IfOk result.length (λ n. n ≤ length buffer.old) }
{
    let (left, left_slip) = Watch::begin(left);
    let (right, right_slip) = Watch::begin(right);
    let Decision {
        left,
        right,
        verdict,
        tally,
        length,
    } = decide(left, right, buffer);
    let Closed { machine: left, .. } = left.close(left_slip);
    let Closed { machine: right, .. } = right.close(right_slip);
    Decision {
        left,
        right,
        verdict,
        tally,
        length,
    }
}
