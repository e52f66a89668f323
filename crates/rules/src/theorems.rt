//! What is so of all templates, on no call in particular. These functions do nothing; a caller takes the fact from them.
ghost use Rattle.rules.specs.Naming.{WordsToldApart};

/// No two templates have one word: so a word names one template at most.
#[tactic(auto, using(crate::proofs::Words::words_apart))]
pub fn words_told_apart()
    ensures { WordsToldApart }
{}
