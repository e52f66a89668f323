//! What is so of all sheets, on no call in particular. These functions do nothing; a caller takes the fact from them.
ghost use Rattle.sheet.specs.Reading.{NoneIsLonger, OnlyTheseOfADraft};

/// Of a draft's refusals, a sheet has two at most for its fault: a count outside its limits, and one cue twice.
#[tactic(auto, using(crate::proofs::DraftsOwn::only_these))]
pub fn only_two_of_a_draft()
    ensures { OnlyTheseOfADraft }
{}

/// No sheet that is well formed has more than 2,329 bytes.
#[tactic(auto, using(crate::proofs::Short::none_is_longer))]
pub fn none_is_longer()
    ensures { NoneIsLonger }
{}
