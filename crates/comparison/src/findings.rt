//! What is found, and what a finding tells.
ghost use Rattle.std.specs.Prelude.{◌≡◌, ◌≢◌, Some, None, MatchOption};
ghost use Rattle.search.specs.declared.states.Verdict.TheVariants.{Open, Unlike};
ghost use Rattle.comparison.specs.Finding.{verdict_of, shown, IfShown};

use crate::outcomes::{Finding, FoundShow};
use bench::Verdict;

impl Finding {
    // What is found, by the verdict and the show.
    pub(crate) fn new(verdict: Verdict, show: FoundShow) -> Finding
        requires { (verdict ≢ Open) × (verdict ≢ Unlike) }
        ensures has_this_verdict { verdict_of result ≡ verdict }
        ensures has_this_show { IfShown result (λ t. t ≡ show) }
    {
        match verdict {
            Verdict::Equal => Finding::Equal,
            Verdict::Left => Finding::Left(show),
            Verdict::Right => Finding::Right(show),
            Verdict::Full => Finding::Full,
            Verdict::Open | Verdict::Unlike => unreachable!(),
        }
    }

    /// The verdict of the bench.
    pub fn verdict(&self) -> Verdict
        ensures { result ≡ verdict_of self.now }
    {
        match self {
            Finding::Equal => Verdict::Equal,
            Finding::Left(_) => Verdict::Left,
            Finding::Right(_) => Verdict::Right,
            Finding::Full => Verdict::Full,
        }
    }

    /// The show found, where there is one.
    pub fn show(&self) -> Option<&[u8]>
        ensures { MatchOption result (shown self.now ≡ None)
            (λ t. shown self.now ≡ Some t.now) }
    {
        match self {
            Finding::Left(show) | Finding::Right(show) => Some(show.cues()),
            Finding::Equal | Finding::Full => None,
        }
    }
}
